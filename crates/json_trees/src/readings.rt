//! The values of the policy language that trees spell.

ghost use Rattle.std.specs.Prelude.{◌≡◌, IfOk, option_map};
ghost use Rattle.policy_values.specs.Readings.{decimal_in, range_in, datetime_in, duration_in};
ghost use Rattle.policy_values.specs.Value.{entity, rec, set, decimal, ip, datetime, duration, fields_of};
ghost use Rattle.policy_values.specs.ValueOrder.{set_of};
ghost use Rattle.json_values.specs.Names.{uid_of};
ghost use Rattle.json_values.specs.Values.{text_form, time_form, extension_form, given_fields_of, value_of, values_of, value_of_members, value_form, value_fields_of, value_entries_of};
ghost use Rattle.json_trees.specs.Trees.{named_view, tree_view, trees_view};

use crate::Tree;
use crate::ids::read_uid;
use crate::leaves::as_i64;
use crate::members::member_places;
use json_values::{with_field, with_item};
use policy_ext::{DateTimeValue, Duration};
use policy_values::{Text, Value, read_datetime, read_decimal, read_duration, read_ip};
use std::alloc::{AllocError, Global};
use std::collections::BTreeMap;

fn read_id(alloc: Global, tree: &Tree<'_>) -> Result<Option<Value>, AllocError>
    ensures { IfOk result (λ o. o ≡ option_map entity (uid_of (tree_view tree.now))) }
{
    match read_uid(alloc, tree)? {
        Some(uid) => Ok(Some(Value::entity_uid(uid))),
        None => Ok(None),
    }
}

fn decimal_from(tree: &Tree<'_>) -> Option<Value>
    ensures { result ≡ text_form decimal decimal_in (tree_view tree.now) }
{
    match tree {
        Tree::String(text) => read_decimal(text).map(Value::decimal),
        _ => None,
    }
}

fn ip_from(tree: &Tree<'_>) -> Option<Value>
    ensures { result ≡ text_form ip range_in (tree_view tree.now) }
{
    match tree {
        Tree::String(text) => read_ip(text).map(Value::ip),
        _ => None,
    }
}

fn datetime_from(tree: &Tree<'_>) -> Option<Value>
    ensures { result ≡ time_form datetime datetime_in (tree_view tree.now) }
{
    let time = match tree {
        Tree::Number(_) => as_i64(tree).map(DateTimeValue::from_millis),
        Tree::String(text) => read_datetime(text),
        _ => None,
    };
    time.map(Value::datetime)
}

fn duration_from(tree: &Tree<'_>) -> Option<Value>
    ensures { result ≡ time_form duration duration_in (tree_view tree.now) }
{
    let time = match tree {
        Tree::Number(_) => as_i64(tree).map(Duration::from_millis),
        Tree::String(text) => read_duration(text),
        _ => None,
    };
    time.map(Value::duration)
}

#[tactic(auto, unfolding(json_values::specs::Values::extension_form))]
fn read_extension(tree: &Tree<'_>, key: &str) -> Option<Value>
    ensures { result ≡ extension_form key.now (tree_view tree.now) }
{
    match key {
        "decimal" => decimal_from(tree),
        "ip" => ip_from(tree),
        "datetime" => datetime_from(tree),
        "duration" => duration_from(tree),
        _ => None,
    }
}

/// The value that the tree says, where it says one. A boolean, a whole number of 64 bits and a text stand for
/// themselves. A list is the set of its elements: their order does not count, nor how often one stands
/// there. An id is `{"id":[TYPE,EID]}`, a record `{"record":{..}}`, a value of an extension
/// `{"decimal":TEXT}`, `{"ip":TEXT}`, `{"datetime":TEXT}` or `{"duration":TEXT}`, where the text stands for
/// one; the last two also take their milliseconds.
#[cycle(value)]
pub fn read_value(alloc: Global, tree: &Tree<'_>) -> Result<Option<Value>, AllocError>
    ensures { IfOk result (λ o. o ≡ value_of (tree_view tree.now)) }
{
    match tree {
        Tree::Null => Ok(None),
        Tree::Bool(b) => Ok(Some(Value::bool(*b))),
        Tree::Number(_) => Ok(as_i64(tree).map(Value::long)),
        Tree::String(text) => Ok(Some(Value::string(Text::from_str(alloc, text)?))),
        Tree::Array(items) => read_set(alloc, items.as_slice()),
        Tree::Object(members) => read_members(alloc, members.as_slice()),
    }
}

#[cycle(value)]
fn read_set(alloc: Global, items: &[Tree<'_>]) -> Result<Option<Value>, AllocError>
    ensures { IfOk result
        (λ o. o ≡ option_map (λ vs. set (set_of vs)) (values_of (trees_view items.now))) }
{
    match read_items(alloc, items)? {
        Some(items) => Ok(Some(Value::set(items))),
        None => Ok(None),
    }
}

#[cycle(value)]
fn read_items(alloc: Global, items: &[Tree<'_>]) -> Result<Option<Vec<Value>>, AllocError>
    ensures { IfOk result (λ o. option_map (λ vs. vs.items) o ≡ values_of (trees_view items.now)) }
{
    let mut all = Vec::new(alloc);
    for item in items {
        let Ok(next) = read_value(alloc, item) else {
            drop(all);
            return Err(AllocError);
        };
        let Some(next) = next else {
            drop(all);
            return Ok(None);
        };
        all = with_item(all, next)?;
    }
    Ok(Some(all))
}

#[cycle(value)]
fn read_members<'a>(
    alloc: Global,
    members: &[(&'a str, Tree<'a>)],
) -> Result<Option<Value>, AllocError>
    ensures { IfOk result (λ o. o ≡ value_of_members (named_view members.now)) }
{
    match members {
        [(key, tree)] => read_form(alloc, tree, key),
        _ => read_repeated(alloc, members),
    }
}

// The value of members that all have one name; the last of them counts.
#[cycle(value)]
fn read_repeated<'a>(
    alloc: Global,
    members: &[(&'a str, Tree<'a>)],
) -> Result<Option<Value>, AllocError>
    ensures { IfOk result (λ o. o ≡ value_of_members (named_view members.now)) }
{
    let places = member_places(alloc, members)?;
    let mut rest = places.iter();
    let Some((key, place)) = rest.next() else {
        return Ok(None);
    };
    if rest.next().is_some() {
        return Ok(None);
    }
    read_form(alloc, &members[*place].1, key)
}

#[cycle(value)]
fn read_form(alloc: Global, tree: &Tree<'_>, key: &str) -> Result<Option<Value>, AllocError>
    ensures { IfOk result (λ o. o ≡
        value_form key.now (tree_view tree.now) (value_fields_of (tree_view tree.now))) }
{
    match key {
        "id" => read_id(alloc, tree),
        "record" => read_record(alloc, tree),
        _ => Ok(read_extension(tree, key)),
    }
}

#[cycle(value)]
fn read_record(alloc: Global, tree: &Tree<'_>) -> Result<Option<Value>, AllocError>
    ensures { IfOk result
        (λ o. o ≡ option_map (λ es. rec (fields_of es)) (value_fields_of (tree_view tree.now))) }
{
    match read_object(alloc, tree)? {
        Some(fields) => Ok(Some(Value::record(fields))),
        None => Ok(None),
    }
}

#[cycle(value)]
fn read_object(alloc: Global, tree: &Tree<'_>) -> Result<Option<BTreeMap<Text, Value>>, AllocError>
    ensures { IfOk result
        (λ o. option_map (λ fs. fs.entries) o ≡ value_fields_of (tree_view tree.now)) }
{
    match tree {
        Tree::Object(members) => read_entries(alloc, members.as_slice()),
        _ => Ok(None),
    }
}

#[cycle(value)]
fn read_entries<'a>(
    alloc: Global,
    members: &[(&'a str, Tree<'a>)],
) -> Result<Option<BTreeMap<Text, Value>>, AllocError>
    ensures { IfOk result
        (λ o. option_map (λ fs. fs.entries) o ≡ value_entries_of (named_view members.now)) }
{
    let places = member_places(alloc, members)?;
    let mut fields = BTreeMap::new(alloc);
    for (key, place) in places.iter() {
        let Ok(next) = read_value(alloc, &members[*place].1) else {
            drop(fields);
            return Err(AllocError);
        };
        let Some(next) = next else {
            drop(fields);
            return Ok(None);
        };
        fields = with_field(alloc, fields, key, next)?;
    }
    Ok(Some(fields))
}

/// The values of an object, each under its name, where each says one; an absent object has none.
pub fn read_fields(
    alloc: Global,
    object: Option<&Tree<'_>>,
) -> Result<Option<BTreeMap<Text, Value>>, AllocError>
    ensures { IfOk result (λ o. option_map (λ fs. fs.entries) o ≡
        given_fields_of (option_map (λ t. tree_view t.now) object.entry)) }
{
    match object {
        Some(tree) => read_object(alloc, tree),
        None => Ok(Some(BTreeMap::new(alloc))),
    }
}
