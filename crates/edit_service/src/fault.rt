//! Where a document has its first fault.
ghost use Rattle.std.specs.Prelude.{◌≡◌, ◌++◌, IfOk, string_bytes, codes};
ghost use Rattle.edit_service.specs.Faults.{before_text, fault_text, policies_text};

use json_document::Place;
use std::alloc::{AllocError, Global};

/// Where the first fault of a document of an edit is. The places have the order of the variants.
#[derive(Debug, Drop)]
pub enum EditFault {
    /// The bytes are no JSON value.
    Json,
    /// The whole has not the form of a document.
    Form,
    /// The schema has not the form of one, or breaks a rule.
    Schema(Place),
    /// A fault of the policies before; the form is that there is no list of them.
    Before(Place),
    /// A fault of the policies after; the form is that there is no list of them.
    Policies(Place),
}

/// The line on a fault.
pub(crate) fn fault_line(alloc: Global, fault: &EditFault) -> Result<String, AllocError>
    ensures { IfOk result (λ s. string_bytes s ≡ fault_text fault.now ++ codes "\n") }
{
    let mut line = fault_text(alloc, fault)?;
    line.push_str("\n")?;
    Ok(line)
}

fn fault_text(alloc: Global, fault: &EditFault) -> Result<String, AllocError>
    ensures { IfOk result (λ s. string_bytes s ≡ fault_text fault.now) }
{
    match fault {
        EditFault::Json => String::from_str(alloc, "document: json"),
        EditFault::Form => String::from_str(alloc, "document: form"),
        EditFault::Schema(place) => format!(in alloc; "{place}"),
        EditFault::Before(place) => before_text(alloc, place),
        EditFault::Policies(place) => policies_text(alloc, place),
    }
}

fn before_text(alloc: Global, place: &Place) -> Result<String, AllocError>
    ensures { IfOk result (λ s. string_bytes s ≡ before_text place.now) }
{
    match place {
        Place::Form => String::from_str(alloc, "document: before"),
        Place::Policy(i) => format!(in alloc; "document: before[{i}]"),
        Place::PolicyNested(i) => format!(in alloc;
            "document: before[{i}]: nested deeper than 400"
        ),
        Place::PolicyDuplicate(i) => format!(in alloc; "document: before[{i}]: duplicate id"),
        Place::UnknownTemplate(i) => format!(in alloc; "document: before[{i}]: unknown template"),
        Place::SlotMissing(i) => format!(in alloc; "document: before[{i}]: slot missing"),
        Place::SlotExtra(i) => format!(in alloc; "document: before[{i}]: slot extra"),
        other => format!(in alloc; "{other}"),
    }
}

fn policies_text(alloc: Global, place: &Place) -> Result<String, AllocError>
    ensures { IfOk result (λ s. string_bytes s ≡ policies_text place.now) }
{
    match place {
        Place::Form => String::from_str(alloc, "document: policies"),
        other => format!(in alloc; "{other}"),
    }
}
