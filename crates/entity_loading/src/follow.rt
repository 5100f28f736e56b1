//! Where values and entities lead along tries.

ghost use Rattle.std.specs.Prelude.{◌≡◌, ◌⊎◌, true, [], OnOk};
ghost use Rattle.access_tries.specs.Views.{view_leads};
ghost use Rattle.std.specs.List.{list_any};
ghost use Rattle.reads_spec.specs.Among.{IsIn};
ghost use Rattle.reads_spec.specs.Restrict.{values_in};
ghost use Rattle.policy_values.specs.Value.{fields_of};
ghost use Rattle.entity_loading.specs.declared.place.Place.{Place};
ghost use Rattle.entity_loading.specs.Places.{IsAtOrBelow, IsPlaceBelow};
ghost use Rattle.entity_loading.specs.Needs.{Adds, sees, points, fields_point, entity_points};
ghost use Rattle.entity_loading.specs.Leads.{Leads, FieldsLead, SomeLeads, EntityLeads, IsLed};

use crate::place::{Place, ask};
use access_tries::TrieRef;
use entity_store::Entity;
use policy_values::{Text, Value, ValueKind};
use std::alloc::AllocError;
use std::collections::{BTreeMap, BTreeSet};

/// Why values can't be followed.
#[derive(Debug, Drop)]
pub enum FollowError {
    /// A path goes on below this value, or ancestors are asked for there, though it has none.
    Incompatible(Value),
    /// There is no memory left.
    OutOfMemory,
}

impl From<AllocError> for FollowError {
    ghost use Rattle.std.specs.Prelude.{◌≡◌};
    ghost use Rattle.entity_loading.specs.declared.follow.FollowError.TheVariants.{OutOfMemory};

    ghost from_gives = { λ _ e. e ≡ OutOfMemory };

    fn from(_error: AllocError) -> FollowError {
        FollowError::OutOfMemory
    }
}

/// Adds the places to which an entity's attributes and tags lead along the trie.
pub fn follow_entity(
    entity: &Entity,
    trie: &TrieRef<'_>,
    next: &mut BTreeSet<Place>,
) -> Result<(), AllocError>
    ensures asked { OnOk result
        (Adds trie.now.nodes
        (λ b. entity_points entity.now (sees b trie.now)) next.old.keys next.new.keys) }
    ensures below { OnOk result ((q : Place) → IsIn q next.new.keys → IsIn q next.old.keys ⊎
        IsPlaceBelow trie.now q) }
    ensures leads { OnOk result (IsLed trie.now (entity_points entity.now) (EntityLeads entity.now)) }
{
    follow_fields(entity.attrs(), trie, next)?;
    match trie.tags() {
        Some(below) => follow_each(entity.tags(), &below, next),
        None => Ok(()),
    }
}

// From each value.
fn follow_each(
    values: &BTreeMap<Text, Value>,
    trie: &TrieRef<'_>,
    next: &mut BTreeSet<Place>,
) -> Result<(), AllocError>
    requires { view_leads trie.now [] ≡ true }
    ensures asked { OnOk result
        (Adds trie.now.nodes
        (λ b x a. list_any (λ v. points v (sees b trie.now) x a)
        (values_in (fields_of values.now.entries))) next.old.keys next.new.keys) }
    ensures below { OnOk result ((q : Place) → IsIn q next.new.keys → IsIn q next.old.keys ⊎
        IsAtOrBelow trie.now q) }
    ensures leads { OnOk result
        (IsLed trie.now (λ t x a.
        list_any (λ v. points v t x a) (values_in (fields_of values.now.entries)))
        (SomeLeads (values_in (fields_of values.now.entries)))) }
{
    for value in values.values() {
        follow(value, trie, next)?;
    }
    Ok(())
}

// From each field along the trie.
#[cycle(follow)]
pub(crate) fn follow_fields(
    fields: &BTreeMap<Text, Value>,
    trie: &TrieRef<'_>,
    next: &mut BTreeSet<Place>,
) -> Result<(), AllocError>
    ensures asked { OnOk result
        (Adds trie.now.nodes
        (λ b. fields_point (fields_of fields.now.entries)
        (sees b trie.now)) next.old.keys next.new.keys) }
    ensures below { OnOk result ((q : Place) → IsIn q next.new.keys → IsIn q next.old.keys ⊎
        IsPlaceBelow trie.now q) }
    ensures leads { OnOk result
        (IsLed trie.now (fields_point (fields_of fields.now.entries))
        (FieldsLead (fields_of fields.now.entries))) }
{
    for (key, value) in fields.iter() {
        if let Some(below) = trie.field(key) {
            follow(value, &below, next)?;
        }
    }
    Ok(())
}

// From a value: an id is asked for, and the fields of a record are followed; any other value leads nowhere.
#[cycle(follow)]
fn follow(value: &Value, trie: &TrieRef<'_>, next: &mut BTreeSet<Place>) -> Result<(), AllocError>
    requires { view_leads trie.now [] ≡ true }
    ensures asked { OnOk result
        (Adds trie.now.nodes
        (λ b. points value.now (sees b trie.now)) next.old.keys next.new.keys) }
    ensures below { OnOk result ((q : Place) → IsIn q next.new.keys → IsIn q next.old.keys ⊎
        IsAtOrBelow trie.now q) }
    ensures leads { OnOk result (IsLed trie.now (points value.now) (Leads value.now)) }
{
    match value.kind() {
        ValueKind::EntityUID(uid) => ask(next, uid, trie.number()),
        ValueKind::Record(fields) => follow_fields(fields, trie, next),
        _ => Ok(()),
    }
}
