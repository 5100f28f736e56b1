//! Loading in rounds, until nothing is asked for.

ghost use Rattle.std.specs.Prelude.{◌≡◌, ◌≤◌, ◌+◌, ℕ, [], IfOk, IfErr, OnOk};
ghost use Rattle.std.specs.BTreeMap.{get};
ghost use Rattle.access_tries.specs.Table.{IsTable};
ghost use Rattle.entity_loading.specs.Begun.{PathsWithin, IsFirst};
ghost use Rattle.entity_loading.specs.Places.{IsBelowSome};
ghost use Rattle.entity_loading.specs.declared.place.Place.{Place};
ghost use Rattle.entity_loader.specs.State.{Continues};
ghost use Rattle.policy_values.specs.Uid.{uid_cmp};
ghost use Rattle.reads_spec.specs.Among.{IsIn};
ghost use Rattle.entity_loading.specs.KeptPart.{IsState, WhereBegun};
ghost use Rattle.entity_loading.specs.Ordered.{WhereKnown};
ghost use Rattle.entity_loading.specs.Answering.{AreUnderIds};
ghost use Rattle.entity_loading.specs.Causes.{CauseOf, IsRight};
ghost use Rattle.entity_loading.specs.Right.{CannotStep, RoundIsRefused};
ghost use Rattle.entity_loading.specs.Rounds.{AreHonestAt, IsRound, Sticks, AreNoted};
ghost use Rattle.entity_loading.specs.Unasked.{DemandNothing};

use crate::answers::answers_for;
use crate::borrowed::{borrowed_tries, requests_of};
use crate::error::EntitySliceError;
use crate::keeping::take_answers;
use crate::{Place, ask};
use access_tries::Node;
use entity_loader::EntityLoader;
use entity_store::Entity;
use plain_lemmas::Steps;
use policy_values::EntityUID;
use std::alloc::{AllocError, Global};
use std::collections::{BTreeMap, BTreeSet};
use std::sync::ledger::Ledger;

/// What was asked for, and what is kept of the answers.
#[derive(Debug, Drop)]
pub(crate) struct Loaded {
    /// Where entities were asked for.
    pub(crate) asked: BTreeSet<Place>,
    /// What is kept of entities, under their ids.
    pub(crate) kept: BTreeMap<EntityUID, Entity>,
}

// What comes for the ids of places, each of which is asked for once.
fn answers_at<D: EntityLoader>(
    alloc: Global,
    nodes: &[Node],
    pending: &BTreeSet<Place>,
    loader: &mut D,
) -> Result<BTreeMap<EntityUID, Entity>, EntitySliceError>
    requires { IsTable nodes.now }
    ensures goes_on { Continues (D.state loader.old) (D.state loader.new) }
    ensures rounds { (D.state loader.new).rounds ≤ (D.state loader.old).rounds + 1 }
    ensures lists { (D.state loader.new).lists ≡ (D.state loader.old).lists }
    ensures ids { IfOk result AreUnderIds }
    ensures cause { IfErr result (CauseOf (λ v. ⊥) (D.state loader.old) (D.state loader.new)) }
    ensures honest { WhereKnown (D.state loader.old) (λ s. IfOk result (λ found.
        AreHonestAt (D.state loader.old).exact s nodes.now pending.now.keys (get uid_cmp found))) }
    ensures right { WhereKnown (D.state loader.old) (λ s.
        IfErr result (IsRight (λ v. ⊥) (D.state loader.old) (D.state loader.new))) }
{
    let borrowed = borrowed_tries(alloc, nodes, pending)?;
    let requests = requests_of(alloc, nodes, &borrowed)?;
    answers_for(alloc, &requests, loader)
}

// Asks for what is pending, keeps what comes, and answers what is to be asked for next.
fn one_round<D: EntityLoader, L: Ledger>(
    alloc: Global,
    nodes: &[Node],
    pending: &BTreeSet<Place>,
    kept: &mut BTreeMap<EntityUID, Entity>,
    loader: &mut D,
    steps: &mut Steps<L>,
) -> Result<BTreeSet<Place>, EntitySliceError>
    requires table { IsTable nodes.now }
    requires ids { AreUnderIds kept.old }
    ensures goes_on { Continues (D.state loader.old) (D.state loader.new) }
    ensures rounds { (D.state loader.new).rounds ≤ (D.state loader.old).rounds + 1 }
    ensures lists { (D.state loader.new).lists ≡ (D.state loader.old).lists }
    ensures steps { steps.new ≡ steps.old + 1 }
    ensures ids { OnOk result (AreUnderIds kept.new) }
    ensures below { IfOk result (λ next. (q : Place) → IsIn q next.keys →
        IsBelowSome nodes.now pending.now.keys q) }
    ensures quiet { IfOk result (λ next. DemandNothing nodes.now pending.now.keys →
        DemandNothing nodes.now next.keys) }
    ensures cause { IfErr result (CauseOf (Sticks nodes.now) (D.state loader.old) (D.state loader.new)) }
    ensures honest { WhereKnown (D.state loader.old) (λ s. IfOk result (λ next.
        IsRound (D.state loader.old).exact s nodes.now pending.now.keys (get uid_cmp kept.old)
        (get uid_cmp kept.new) next.keys)) }
    ensures right { WhereKnown (D.state loader.old) (λ s. IfErr result
        (RoundIsRefused s nodes.now pending.now.keys (get uid_cmp kept.old)
        (D.state loader.old) (D.state loader.new))) }
{
    steps.tick();
    let found = answers_at(alloc, nodes, pending, loader)?;
    take_answers(alloc, nodes, pending, found, kept)
}

// Adds places to those that were asked for.
fn note(asked: &mut BTreeSet<Place>, pending: &BTreeSet<Place>) -> Result<(), AllocError>
    ensures { OnOk result (AreNoted pending.now.keys asked.old.keys asked.new.keys) }
{
    for place in pending.iter() {
        ask(asked, &place.uid, place.number)?;
    }
    Ok(())
}

/// Asks for entities in rounds, until nothing is pending.
pub(crate) fn load_rounds<D: EntityLoader, L: Ledger>(
    alloc: Global,
    nodes: &[Node],
    start: BTreeSet<Place>,
    loader: &mut D,
    steps: &mut Steps<L>,
) -> Result<Loaded, EntitySliceError>
    requires table { IsTable nodes.now }
    requires start { (q : Place) → IsIn q start.keys → IsFirst nodes.now q }
    ensures goes_on { Continues (D.state loader.old) (D.state loader.new) }
    ensures rounds { (n : ℕ) → PathsWithin nodes.now n →
        (D.state loader.new).rounds ≤ (D.state loader.old).rounds + (n + 1) }
    ensures lists { (D.state loader.new).lists ≡ (D.state loader.old).lists }
    ensures steps { (n : ℕ) → PathsWithin nodes.now n → steps.new ≤ steps.old + (n + 1) }
    ensures counted { (D.state loader.new).rounds + steps.old ≤ (D.state loader.old).rounds + steps.new }
    ensures none { start.keys ≡ [] → (D.state loader.new ≡ D.state loader.old) ×
        (steps.new ≡ steps.old) × IfOk result (λ loaded. loaded.asked.keys ≡ []) }
    ensures quiet { DemandNothing nodes.now start.keys →
        IfOk result (λ loaded. DemandNothing nodes.now loaded.asked.keys) }
    ensures ids { IfOk result (λ loaded. AreUnderIds loaded.kept) }
    ensures honest { WhereBegun (D.state loader.old) nodes.now start.keys (λ s q.
        IfOk result (λ loaded. IsState (D.state loader.old).exact nodes.now q s loaded.asked.keys []
        (get uid_cmp loaded.kept))) }
    ensures right { WhereBegun (D.state loader.old) nodes.now start.keys (λ s q.
        IfErr result (IsRight (CannotStep nodes.now q s) (D.state loader.old) (D.state loader.new))) }
    ensures cause { IfErr result (CauseOf (Sticks nodes.now) (D.state loader.old) (D.state loader.new)) }
{
    let mut asked = BTreeSet::new(alloc);
    let mut pending = start;
    let mut kept = BTreeMap::new(alloc);
    'rounds: while !pending.is_empty() {
        let next = one_round(alloc, nodes, &pending, &mut kept, loader, steps)?;
        note(&mut asked, &pending)?;
        pending = next;
    }
    Ok(Loaded { asked, kept })
}
