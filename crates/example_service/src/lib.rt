//! How a service calls the library: the slice of a document in memory, and a loader over a database.
#![tactic(auto)]

pub mod loader;

ghost use Rattle.std.specs.Prelude.{◌≡◌, ◌∷◌, [], IfOk, codes, map, string_bytes};
ghost use Rattle.json_document.specs.declared.document.Document.{Document};
ghost use Rattle.json_document.specs.declared.shape.Shape.TheVariants as shape;
ghost use Rattle.policy_gate.specs.Headline.{IsDocumentOf, IsSliced};

use byte_streams::{MemorySink, SliceSource};
use policy_gate::{Status, run};
use std::alloc::{AllocError, Global};

/// Why there is no slice.
#[derive(Debug, Drop)]
pub enum SliceError {
    /// The document is refused.
    Refused {
        /// How the run ended.
        status: Status,
        /// The text that says more.
        text: Vec<u8>,
    },
    /// There was no memory for it.
    OutOfMemory,
}

impl From<AllocError> for SliceError {
    ghost use Rattle.std.specs.Prelude.{◌≡◌};
    ghost use Rattle.example_service.specs.declared.SliceError.{SliceError};

    ghost from_gives = { λ _ e. e ≡ SliceError.OutOfMemory };

    fn from(_: AllocError) -> SliceError {
        SliceError::OutOfMemory
    }
}

/// The decision on the document's request, with a slice of its store on which every policy does what it does
/// on the whole.
pub fn slice(alloc: Global, document: &[u8]) -> Result<Vec<u8>, SliceError>
    ensures sliced { IfOk result (λ text.
        (d : Document) × IsDocumentOf shape.Whole document.now d × IsSliced d text.items) }
{
    let words = words(alloc)?;
    let mut source = SliceSource::new(document);
    let mut sink = MemorySink::new(alloc, usize::MAX, Vec::new(alloc));
    let status = run(alloc, &words, &mut source, &mut sink);
    let MemorySink { bytes: text, .. } = sink;
    match status {
        Status::Done => Ok(text),
        Status::OutOfMemory => Err(SliceError::OutOfMemory),
        _ => Err(SliceError::Refused { status, text }),
    }
}

// The words of the command.
fn words(alloc: Global) -> Result<Vec<String>, AllocError>
    ensures { IfOk result (λ words. map string_bytes words.items ≡ codes "slice" ∷ []) }
{
    let mut words = Vec::new(alloc);
    words.push(String::from_str(alloc, "slice")?)?;
    Ok(words)
}
