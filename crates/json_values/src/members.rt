//! The members of objects, and lists.

ghost use Rattle.std.specs.Prelude.{◌≡◌, map, option_map, option_and_then, string_bytes};
ghost use Rattle.std.specs.List.{list_any};
ghost use Rattle.std.specs.Str.{bytes_eq};
ghost use Rattle.serde_json.specs.View.{view, items_view, members_view};
ghost use Rattle.serde_json.specs.Find.{as_object};
ghost use Rattle.json_values.specs.Json.{has_only, list_of, only_member, pair_of};

use serde_json::{Map, Value};

fn is_one_of(key: &str, names: &[&str]) -> bool
    ensures { result ≡ list_any (λ name. bytes_eq key.now name) (map (λ s. s.now) names.now) }
{
    for name in names {
        if key == *name {
            return true;
        }
    }
    false
}

/// Whether each member has one of the names.
pub fn has_only(names: &[&str], members: &Map<String, Value>) -> bool
    ensures { result ≡ has_only (map (λ s. s.now) names.now) (members_view members.now.entries) }
{
    for (key, _) in members.iter() {
        if !is_one_of(key.as_str(), names) {
            return false;
        }
    }
    true
}

// The one member of the object, where it has no other.
fn only_member(members: &Map<String, Value>) -> Option<(&String, &Value)>
    ensures { option_map (λ m. (string_bytes m.0.now, view m.1.now)) result ≡
        only_member (members_view members.now.entries) }
{
    let mut rest = members.iter();
    let first = rest.next()?;
    if rest.next().is_some() {
        return None;
    }
    Some(first)
}

/// The one member of the value, where it is an object and has no other.
pub fn lone_member(value: &Value) -> Option<(&String, &Value)>
    ensures { option_map (λ m. (string_bytes m.0.now, view m.1.now)) result ≡
        option_and_then only_member (as_object (view value.now)) }
{
    only_member(value.as_object()?)
}

/// The two items, where there are two.
pub fn pair(items: &Vec<Value>) -> Option<(&Value, &Value)>
    ensures { option_map (λ p. (view p.0.now, view p.1.now)) result ≡ pair_of (items_view items.now.items) }
{
    let mut rest = items.iter();
    let left = rest.next()?;
    let right = rest.next()?;
    if rest.next().is_some() {
        return None;
    }
    Some((left, right))
}

/// The items of a list; an absent one has none.
pub fn list_items(list: Option<&Value>) -> Option<&[Value]>
    ensures { option_map (λ vs. items_view vs.now) result ≡
        list_of (option_map (λ v. view v.now) list.entry) }
{
    match list {
        None => Some(&[]),
        Some(value) => match value.as_array() {
            Some(items) => Some(items.as_slice()),
            None => None,
        },
    }
}
