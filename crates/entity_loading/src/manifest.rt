//! Loading by the trie of a request's type.

ghost use Rattle.std.specs.Prelude.{◌≡◌, ◌≤◌, ◌+◌, ◌↔◌, ℕ, [], None, IfOk, IfErr};
ghost use Rattle.std.specs.Option.{option_copied};
ghost use Rattle.entity_loading.specs.Begun.{PathsWithin};
ghost use Rattle.entity_loader.specs.State.{Continues};
ghost use Rattle.entity_loading.specs.Between.{LiesBetween};
ghost use Rattle.entity_loading.specs.Causes.{CauseOf, IsPartial};
ghost use Rattle.entity_loading.specs.Ordered.{WhereIdsAscend};
ghost use Rattle.entity_loading.specs.Right.{IsRefusedRightly, RootOrEntityBlocks};
ghost use Rattle.entity_loading.specs.Sliced.{WhereTrie};
ghost use Rattle.entity_loading.specs.Unasked.{DemandsNothing, ReadsNothing};
ghost use Rattle.entity_loading.specs.declared.error.EntitySliceError.TheVariants.{OutOfMemory};
ghost use Rattle.entity_store.specs.Request.{IsWhole};
ghost use Rattle.manifest_core.specs.Manifest.{trie_for};

use crate::{EntitySliceError, PartialRequestError, Steps, load_trie};
use access_tries::RootAccessTrie;
use entity_loader::EntityLoader;
use entity_store::{Entities, Request};
use manifest_core::EntityManifest;
use std::alloc::{AllocError, Global};
use std::sync::ledger::Ledger;

/// The entities that the manifest's trie of the request's type reads on the request, as a loader gives them;
/// without a trie none, and the loader is not asked; nor is it along a trie without paths. A step is counted
/// for each call of the loader's `load_entities`.
///
/// Errors: `PartialRequest` exactly where an entry of the request is not known; the others as of a trie's
/// loading.
pub fn load_entities<D: EntityLoader, L: Ledger>(
    alloc: Global,
    manifest: &EntityManifest,
    request: &Request,
    loader: &mut D,
    steps: &mut Steps<L>,
) -> Result<Entities, EntitySliceError>
    ensures partial { IsPartial result ↔ (IsWhole request.now → ⊥) }
    ensures first { (IsWhole request.now → ⊥) →
        (D.state loader.new ≡ D.state loader.old) × (steps.new ≡ steps.old) }
    ensures none { IsWhole request.now → trie_for manifest.now request.now ≡ None →
        IfOk result (λ s. s ≡ []) }
    ensures unasked { trie_for manifest.now request.now ≡ None →
        (D.state loader.new ≡ D.state loader.old) × (steps.new ≡ steps.old) }
    ensures lists { (D.state loader.new).lists ≤ (D.state loader.old).lists + 1 }
    ensures undemanded { WhereTrie manifest.now request.now (λ t. DemandsNothing t →
        (D.state loader.new).lists ≡ (D.state loader.old).lists) }
    ensures nothing { WhereTrie manifest.now request.now (λ t. ReadsNothing t →
        (D.state loader.new ≡ D.state loader.old) × (steps.new ≡ steps.old)) }
    ensures goes_on { Continues (D.state loader.old) (D.state loader.new) }
    ensures rounds { WhereTrie manifest.now request.now (λ t. (n : ℕ) → PathsWithin t n →
        (D.state loader.new).rounds ≤ (D.state loader.old).rounds + (n + 1)) }
    ensures steps { WhereTrie manifest.now request.now (λ t. (n : ℕ) → PathsWithin t n →
        steps.new ≤ steps.old + (n + 1)) }
    ensures counted { (D.state loader.new).rounds + steps.old ≤ (D.state loader.old).rounds + steps.new }
    ensures between { WhereTrie manifest.now request.now (λ t. WhereIdsAscend (D.state loader.old) (λ s.
        LiesBetween (D.state loader.old).exact t request.now s result)) }
    ensures cause { IsWhole request.now → WhereTrie manifest.now request.now (λ t.
        IfErr result (CauseOf (RootOrEntityBlocks t request.now)
        (D.state loader.old) (D.state loader.new))) }
    ensures cause_without { IsWhole request.now → trie_for manifest.now request.now ≡ None →
        IfErr result (λ e. e ≡ OutOfMemory) }
    ensures right { IsWhole request.now → WhereTrie manifest.now request.now (λ t.
        IsRefusedRightly t request.now (D.state loader.old) (D.state loader.new) result) }
{
    if !request.is_whole() {
        return Err(EntitySliceError::PartialRequest(PartialRequestError {}));
    }
    match chosen_trie(manifest, request)? {
        Some(trie) => load_trie(alloc, trie, request, loader, steps),
        None => Ok(Entities::new(alloc)),
    }
}

// The trie that the manifest has for requests of this type.
fn chosen_trie<'a>(
    manifest: &'a EntityManifest,
    request: &Request,
) -> Result<Option<&'a RootAccessTrie>, AllocError>
    ensures { IfOk result (λ trie. option_copied trie ≡ trie_for manifest.entry.now request.now) }
{
    match request.request_type()? {
        Some(request_type) => Ok(manifest.per_action().get(&request_type)),
        None => Ok(None),
    }
}
