//! Values from which paths cannot go on.

ghost use Rattle.std.specs.Prelude.{IfOk};
ghost use Rattle.std.specs.Option.{option_copied};
ghost use Rattle.reads_spec.specs.Restrict.{values_in};
ghost use Rattle.entity_store.specs.Request.{IsWhole};
ghost use Rattle.policy_values.specs.Value.{rec, fields_of};
ghost use Rattle.entity_loading.specs.Begun.{SomeRootBlocks};
ghost use Rattle.entity_loading.specs.CannotGoOn.{tests_of, Sticks, FieldsBlock, SomeBlocks, EntityBlocks, CannotStep};

use crate::demand::{is_demanded, is_needed_whole};
use access_tries::{EntityRoot, RootAccessTrie, TrieRef};
use entity_store::{Context, Entity, Request};
use policy_expressions::Var;
use policy_values::{Text, Value, ValueKind, try_clone_fields};
use std::alloc::{AllocError, Global};
use std::collections::BTreeMap;

/// A value in the context from which a path of the trie cannot go on; none where there is no such value. The
/// value of any other root is an id, from which each path goes on.
pub fn blocked_in_context(
    alloc: Global,
    request: &Request,
    trie: &RootAccessTrie,
) -> Result<Option<Value>, AllocError>
    requires { IsWhole request.now }
    ensures { IfOk result (CannotStep (SomeRootBlocks trie.now request.now)) }
{
    match trie.trie(&EntityRoot::Var(Var::Context)) {
        Some(below) => match &request.context {
            Some(context) => blocked_below(alloc, context, &below),
            None => Ok(None),
        },
        None => Ok(None),
    }
}

fn blocked_below(
    alloc: Global,
    context: &Context,
    trie: &TrieRef<'_>,
) -> Result<Option<Value>, AllocError>
    ensures { IfOk result (CannotStep (Sticks (rec context.now) (tests_of trie.now))) }
{
    if is_demanded(trie) {
        return Ok(Some(Value::record(try_clone_fields(alloc, context.fields())?)));
    }
    match blocked_in_fields(context.fields(), trie) {
        Some(value) => Ok(Some(value.try_clone(alloc)?)),
        None => Ok(None),
    }
}

/// A value in the attributes or the tags of the entity from which a path of the trie cannot go on; none where
/// there is no such value.
pub fn blocked_in_entity<'a>(entity: &'a Entity, trie: &TrieRef<'_>) -> Option<&'a Value>
    ensures { CannotStep (EntityBlocks entity.now (tests_of trie.now)) (option_copied result) }
{
    if let Some(value) = blocked_in_fields(entity.attrs(), trie) {
        return Some(value);
    }
    match trie.tags() {
        Some(below) => blocked_in_each(entity.tags(), &below),
        None => None,
    }
}

// In some of the values.
fn blocked_in_each<'a>(values: &'a BTreeMap<Text, Value>, trie: &TrieRef<'_>) -> Option<&'a Value>
    ensures { CannotStep (SomeBlocks (values_in (fields_of values.now.entries)) (tests_of trie.now))
        (option_copied result) }
{
    for value in values.values() {
        if let Some(blocked) = blocked_in(value, trie) {
            return Some(blocked);
        }
    }
    None
}

// In some of the fields along the trie.
#[cycle(sticking)]
fn blocked_in_fields<'a>(fields: &'a BTreeMap<Text, Value>, trie: &TrieRef<'_>) -> Option<&'a Value>
    ensures { CannotStep (FieldsBlock (fields_of fields.now.entries) (tests_of trie.now))
        (option_copied result) }
{
    for (key, value) in fields.iter() {
        if let Some(below) = trie.field(key) {
            if let Some(blocked) = blocked_in(value, &below) {
                return Some(blocked);
            }
        }
    }
    None
}

// In a value: from an id each path goes on, and a record's fields are looked through.
#[cycle(sticking)]
fn blocked_in<'a>(value: &'a Value, trie: &TrieRef<'_>) -> Option<&'a Value>
    ensures { CannotStep (Sticks value.now (tests_of trie.now)) (option_copied result) }
{
    match value.kind() {
        ValueKind::EntityUID(_) => None,
        ValueKind::Record(fields) => {
            if is_demanded(trie) {
                return Some(value);
            }
            blocked_in_fields(fields, trie)
        }
        _ => {
            if is_needed_whole(trie) {
                return Some(value);
            }
            None
        }
    }
}
