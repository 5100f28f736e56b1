//! The tries of a manifest with those of one policy more.

ghost use Rattle.std.specs.Prelude.{◌≡◌, map, IfOk};
ghost use Rattle.live_manifest.specs.Tries.{AreUnionsOf, AreUnited};

use access_tries::RootAccessTrie;
use manifest_core::EntityManifest;
use std::alloc::{AllocError, Global};

/// The tries of the manifest, each united with the one at its place; of a manifest without entries, which is
/// that of no policies, the others alone.
pub(crate) fn united(
    alloc: Global,
    manifest: &EntityManifest,
    own: &[RootAccessTrie],
) -> Result<Vec<RootAccessTrie>, AllocError>
    ensures { IfOk result (λ ts. AreUnited manifest.now own.now ts.items) }
{
    if manifest.per_action().is_empty() {
        copies(alloc, own)
    } else {
        each_united(alloc, manifest, own)
    }
}

fn copies(alloc: Global, tries: &[RootAccessTrie]) -> Result<Vec<RootAccessTrie>, AllocError>
    ensures { IfOk result (λ ts. ts.items ≡ tries.now) }
{
    let mut copies = Vec::new(alloc);
    for trie in tries {
        copies.push(trie.try_clone(alloc)?)?;
    }
    Ok(copies)
}

fn each_united(
    alloc: Global,
    manifest: &EntityManifest,
    own: &[RootAccessTrie],
) -> Result<Vec<RootAccessTrie>, AllocError>
    ensures { IfOk result (λ ts. AreUnionsOf (map (λ e. e.1) manifest.now) own.now ts.items) }
{
    let mut tries = Vec::new(alloc);
    let mut rest = own.iter();
    for whole in manifest.per_action().values() {
        let Some(more) = rest.next() else {
            return Ok(tries);
        };
        tries.push(whole.union(alloc, more)?)?;
    }
    Ok(tries)
}
