//! Loading the entities that a trie reads.

ghost use Rattle.std.specs.Prelude.{◌≡◌, ◌≤◌, ◌+◌, ◌↔◌, ℕ, map, IfOk, IfErr};
ghost use Rattle.std.specs.BTreeMap.{get, values};
ghost use Rattle.std.specs.List.Sorted.{IsStrictlySortedBy};
ghost use Rattle.entity_loading.specs.Begun.{PathsWithin};
ghost use Rattle.entity_loader.specs.State.{Continues};
ghost use Rattle.policy_values.specs.Uid.{uid_cmp};
ghost use Rattle.policy_values.specs.declared.entity_uid.EntityUID.{EntityUID};
ghost use Rattle.entity_store.specs.Request.{IsWhole};
ghost use Rattle.entity_store.specs.Store.{entity_at};
ghost use Rattle.entity_loading.specs.Answering.{AreUnderIds};
ghost use Rattle.entity_loading.specs.Between.{LiesBetween};
ghost use Rattle.entity_loading.specs.Causes.{CauseOf, IsPartial};
ghost use Rattle.entity_loading.specs.KeptPart.{IsLoaded};
ghost use Rattle.entity_loading.specs.Ordered.{WhereIdsAscend, WhereKeysAscend};
ghost use Rattle.entity_loading.specs.Right.{IsRefusedRightly, RootOrEntityBlocks};
ghost use Rattle.entity_loading.specs.Unasked.{DemandsNothing, ReadsNothing};

use crate::ancestors::with_ancestors;
use crate::error::{EntitySliceError, PartialRequestError};
use crate::first_places;
use crate::keeping::refusal;
use crate::rounds::load_rounds;
use access_tries::RootAccessTrie;
use entity_loader::EntityLoader;
use entity_store::{Entities, Entity, Request};
use plain_lemmas::Steps;
use policy_values::EntityUID;
use std::alloc::{AllocError, Global};
use std::collections::BTreeMap;
use std::sync::ledger::Ledger;

/// The entities that the paths of the trie reach on the request, each with what is read of it and those of
/// its ancestors that are asked for, as a loader gives them. A step is counted for each call of the loader's
/// `load_entities`. Its `load_ancestors` is called once at most, and not where the trie asks for no
/// ancestors. Along a trie without paths the loader is not called.
///
/// Errs with `PartialRequest` exactly where an entry of the request is not known; with
/// `IncompatibleEntityManifest` for a value below which a path of the trie goes on, or of which ancestors are
/// asked for, though it has none; with `WrongNumberOfEntities` or `WrongNumberOfAncestors` where the loader
/// gives more or fewer answers than were asked for; with `InconsistentLoader` where an entity that it gives
/// has another id than was asked for, or does not merge with what it gave before; with `LoaderFault` where it
/// fails; and with `OutOfMemory` where memory runs out.
pub fn load_trie<D: EntityLoader, L: Ledger>(
    alloc: Global,
    trie: &RootAccessTrie,
    request: &Request,
    loader: &mut D,
    steps: &mut Steps<L>,
) -> Result<Entities, EntitySliceError>
    ensures goes_on { Continues (D.state loader.old) (D.state loader.new) }
    ensures rounds { (n : ℕ) → PathsWithin trie.now n →
        (D.state loader.new).rounds ≤ (D.state loader.old).rounds + (n + 1) }
    ensures steps { (n : ℕ) → PathsWithin trie.now n → steps.new ≤ steps.old + (n + 1) }
    ensures counted { (D.state loader.new).rounds + steps.old ≤ (D.state loader.old).rounds + steps.new }
    ensures lists { (D.state loader.new).lists ≤ (D.state loader.old).lists + 1 }
    ensures undemanded { DemandsNothing trie.now →
        (D.state loader.new).lists ≡ (D.state loader.old).lists }
    ensures nothing { ReadsNothing trie.now →
        (D.state loader.new ≡ D.state loader.old) × (steps.new ≡ steps.old) }
    ensures partial { IsPartial result ↔ (IsWhole request.now → ⊥) }
    ensures untouched { (IsWhole request.now → ⊥) →
        (D.state loader.new ≡ D.state loader.old) × (steps.new ≡ steps.old) }
    ensures honest { WhereKeysAscend (D.state loader.old) (λ s.
        IfOk result (IsLoaded (D.state loader.old).exact trie.now request.now s)) }
    ensures between { WhereIdsAscend (D.state loader.old) (λ s.
        LiesBetween (D.state loader.old).exact trie.now request.now s result) }
    ensures cause { IsWhole request.now →
        IfErr result (CauseOf (RootOrEntityBlocks trie.now request.now)
        (D.state loader.old) (D.state loader.new)) }
    ensures right { IsWhole request.now →
        IsRefusedRightly trie.now request.now (D.state loader.old) (D.state loader.new) result }
{
    if !request.is_whole() {
        return Err(EntitySliceError::PartialRequest(PartialRequestError {}));
    }
    load_whole(alloc, trie, request, loader, steps)
}

fn load_whole<D: EntityLoader, L: Ledger>(
    alloc: Global,
    trie: &RootAccessTrie,
    request: &Request,
    loader: &mut D,
    steps: &mut Steps<L>,
) -> Result<Entities, EntitySliceError>
    requires { IsWhole request.now }
    ensures partial { IsPartial result → ⊥ }
    ensures lists { (D.state loader.new).lists ≤ (D.state loader.old).lists + 1 }
    ensures undemanded { DemandsNothing trie.now →
        (D.state loader.new).lists ≡ (D.state loader.old).lists }
    ensures nothing { ReadsNothing trie.now →
        (D.state loader.new ≡ D.state loader.old) × (steps.new ≡ steps.old) }
    ensures goes_on { Continues (D.state loader.old) (D.state loader.new) }
    ensures rounds { (n : ℕ) → PathsWithin trie.now n →
        (D.state loader.new).rounds ≤ (D.state loader.old).rounds + (n + 1) }
    ensures steps { (n : ℕ) → PathsWithin trie.now n → steps.new ≤ steps.old + (n + 1) }
    ensures counted { (D.state loader.new).rounds + steps.old ≤ (D.state loader.old).rounds + steps.new }
    ensures honest { WhereKeysAscend (D.state loader.old) (λ s.
        IfOk result (IsLoaded (D.state loader.old).exact trie.now request.now s)) }
    ensures between { WhereIdsAscend (D.state loader.old) (λ s.
        LiesBetween (D.state loader.old).exact trie.now request.now s result) }
    ensures cause { IfErr result (CauseOf (RootOrEntityBlocks trie.now request.now)
        (D.state loader.old) (D.state loader.new)) }
    ensures right { IsRefusedRightly trie.now request.now (D.state loader.old) (D.state loader.new) result }
{
    let start = match first_places(alloc, request, trie) {
        Ok(start) => start,
        Err(error) => return Err(refusal(error)),
    };
    let loaded = load_rounds(alloc, trie.nodes(), start, loader, steps)?;
    let kept = with_ancestors(alloc, trie.nodes(), request, loaded, loader)?;
    Ok(store_of(alloc, kept)?)
}

// The store of what is kept.
fn store_of(alloc: Global, mut kept: BTreeMap<EntityUID, Entity>) -> Result<Entities, AllocError>
    requires { AreUnderIds kept }
    ensures values { IfOk result (λ s. s ≡ values kept) }
    ensures at { IfOk result (λ s. (x : EntityUID) → entity_at s x ≡ get uid_cmp kept x) }
    ensures ascending { IfOk result (λ s. IsStrictlySortedBy uid_cmp (map (λ e. e.uid) s)) }
{
    let mut store = Entities::new(alloc);
    while let Some((_uid, entity)) = kept.pop_first() {
        store.push(entity)?;
    }
    Ok(store)
}
