//! Where the answers of a round lead.

ghost use Rattle.std.specs.Prelude.{◌≡◌, ◌⊎◌, [], IfOk, OnOk, IfErr};
ghost use Rattle.access_tries.specs.Table.{IsTable};
ghost use Rattle.policy_values.specs.Uid.{uid_cmp};
ghost use Rattle.reads_spec.specs.Among.{IsIn};
ghost use Rattle.std.specs.BTreeMap.{get};
ghost use Rattle.std.specs.Option.{option_copied};
ghost use Rattle.entity_loading.specs.declared.place.Place.{Place};
ghost use Rattle.entity_loading.specs.Places.{IsPlaceBelow, IsBelowSome, node_of};
ghost use Rattle.entity_loading.specs.CannotGoOn.{tests_of, RefusedBy};
ghost use Rattle.entity_loading.specs.Answered.{answer_points, answers_point, AnswerBlocks, SomeAnswerBlocks};
ghost use Rattle.entity_loading.specs.Needs.{Adds};

use crate::blocking::blocked_in_entity;
use crate::follow::{FollowError, follow_entity};
use crate::place::Place;
use access_tries::{Node, TrieRef};
use entity_store::Entity;
use policy_values::EntityUID;
use std::alloc::Global;
use std::collections::{BTreeMap, BTreeSet};

/// The places to which the entities that were found lead, each from the places at which it was asked for.
pub fn next_places(
    alloc: Global,
    nodes: &[Node],
    pending: &BTreeSet<Place>,
    found: &BTreeMap<EntityUID, Entity>,
) -> Result<BTreeSet<Place>, FollowError>
    requires { IsTable nodes.now }
    ensures asked { IfOk result
        (λ next. Adds nodes.now
        (answers_point nodes.now (get uid_cmp found.now) pending.now.keys) [] next.keys) }
    ensures below { IfOk result (λ next. (q : Place) → IsIn q next.keys →
        IsBelowSome nodes.now pending.now.keys q) }
    ensures why { IfErr result
        (RefusedBy (SomeAnswerBlocks nodes.now (get uid_cmp found.now) pending.now.keys)) }
{
    let mut next = BTreeSet::new(alloc);
    for place in pending.iter() {
        let trie = TrieRef::new(nodes, place.number);
        if let Err(error) = follow_answer(alloc, found.get(&place.uid), &trie, &mut next) {
            return Err(error);
        }
    }
    Ok(next)
}

fn follow_answer(
    alloc: Global,
    answer: Option<&Entity>,
    trie: &TrieRef<'_>,
    next: &mut BTreeSet<Place>,
) -> Result<(), FollowError>
    ensures asked { OnOk result
        (Adds trie.now.nodes
        (answer_points (option_copied answer.entry) trie.now) next.old.keys next.new.keys) }
    ensures below { OnOk result ((q : Place) → IsIn q next.new.keys → IsIn q next.old.keys ⊎
        IsPlaceBelow trie.now q) }
    ensures why { IfErr result
        (RefusedBy (AnswerBlocks (option_copied answer.entry) (tests_of trie.now))) }
{
    match answer {
        Some(entity) => {
            if let Some(value) = blocked_in_entity(entity, trie) {
                return Err(FollowError::Incompatible(value.try_clone(alloc)?));
            }
            Ok(follow_entity(entity, trie, next)?)
        }
        None => Ok(()),
    }
}
