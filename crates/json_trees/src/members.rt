//! The members of an object, by their names.

ghost use Rattle.std.specs.Prelude.{◌≡◌, ◌<◌, IfOk, length, All, option_map, option_and_then};
ghost use Rattle.std.specs.BTreeMap.{values};
ghost use Rattle.serde_json.specs.Find.{as_object};
ghost use Rattle.json_values.specs.Json.{only_member};
ghost use Rattle.json_trees.specs.Trees.{named_view, tree_view};
ghost use Rattle.json_trees.specs.Places.{is_other, placed_view};

use crate::Tree;
use std::alloc::{AllocError, Global};
use std::collections::BTreeMap;

/// The place of each name's last member, in the order of the names.
pub fn member_places<'t, 'a>(
    alloc: Global,
    members: &'t [(&'a str, Tree<'a>)],
) -> Result<BTreeMap<&'t str, usize>, AllocError>
    ensures said { IfOk result (λ m. placed_view members.now m.entries ≡ named_view members.now) }
    ensures within { IfOk result (λ m. All (λ i. i < length members.now) (values m)) }
{
    let mut places = BTreeMap::new(alloc);
    for (place, member) in members.iter().enumerate() {
        places.insert(member.0, place)?;
    }
    Ok(places)
}

/// The one member of the tree, where it is an object and no member has another name.
pub fn lone_member<'t, 'a>(tree: &'t Tree<'a>) -> Option<(&'t str, &'t Tree<'a>)>
    ensures { option_map (λ m. (m.0.now, tree_view m.1.now)) result ≡
        option_and_then only_member (as_object (tree_view tree.now)) }
{
    match tree {
        Tree::Object(members) => only_member(members),
        _ => None,
    }
}

#[tactic(auto, using(crate::proofs::Named::only_lone))]
fn only_member<'t, 'a>(members: &'t Vec<(&'a str, Tree<'a>)>) -> Option<(&'t str, &'t Tree<'a>)>
    ensures { option_map (λ m. (m.0.now, tree_view m.1.now)) result ≡
        only_member (named_view members.now.items) }
{
    let mut only: Option<(&'t str, &'t Tree<'a>)> = None;
    for member in members {
        if is_other(only, member.0) {
            return None;
        }
        only = Some((member.0, &member.1));
    }
    only
}

// Whether there is a member, and it has another name.
fn is_other(known: Option<(&str, &Tree<'_>)>, name: &str) -> bool
    ensures { result ≡ is_other (option_map (λ m. m.0.now) known.entry) name.now }
{
    match known {
        Some((known, _)) => known != name,
        None => false,
    }
}
