//! What is looked up in a tree, and what is taken out of the members of an object.

ghost use Rattle.std.specs.Prelude.{◌≡◌, false, Some, map, option_map};
ghost use Rattle.std.specs.Option.{option_map_or};
ghost use Rattle.std.specs.List.{list_any};
ghost use Rattle.std.specs.Str.{bytes_eq};
ghost use Rattle.serde_json.specs.Find.{as_array, as_object, get, get_member};
ghost use Rattle.json_values.specs.Json.{has_only, list_of};
ghost use Rattle.json_trees.specs.Trees.{KeepsOthers, named_view, tree_view, trees_view};

use crate::Tree;
use std::alloc::Global;

/// The member of the name; the last, where several have it.
pub fn get<'t, 'a>(tree: &'t Tree<'a>, name: &str) -> Option<&'t Tree<'a>>
    ensures { option_map (λ t. tree_view t.now) result ≡ get name.now (tree_view tree.now) }
{
    tree.get(name)
}

/// The items of the list that the tree is.
pub fn items_of<'t, 'a>(tree: &'t Tree<'a>) -> Option<&'t [Tree<'a>]>
    ensures { option_map (λ ts. trees_view ts.now) result ≡ as_array (tree_view tree.now) }
{
    match tree {
        Tree::Array(items) => Some(items.as_slice()),
        _ => None,
    }
}

/// Whether the tree is an object, each member of which has one of the names.
pub fn has_only(names: &[&str], tree: &Tree<'_>) -> bool
    ensures { result ≡
        option_map_or (has_only (map (λ s. s.now) names.now)) (as_object (tree_view tree.now)) false }
{
    match tree {
        Tree::Object(members) => have_only(names, members),
        _ => false,
    }
}

/// Whether each member has one of the names.
pub fn have_only(names: &[&str], members: &Vec<(&str, Tree<'_>)>) -> bool
    ensures { result ≡ has_only (map (λ s. s.now) names.now) (named_view members.now.items) }
{
    for member in members {
        if !is_one_of(member.0, names) {
            return false;
        }
    }
    true
}

fn is_one_of(key: &str, names: &[&str]) -> bool
    ensures { result ≡ list_any (bytes_eq key.now) (map (λ s. s.now) names.now) }
{
    for name in names {
        if key == *name {
            return true;
        }
    }
    false
}

/// Takes out the member of the name; the last, where several have it.
pub fn take<'a>(members: &mut Vec<(&'a str, Tree<'a>)>, name: &str) -> Option<Tree<'a>>
    ensures taken { option_map tree_view result ≡
        get_member name.now (named_view members.old.items) }
    ensures left { KeepsOthers name.now (named_view members.old.items) (named_view members.new.items) }
{
    let mut index = members.len();
    while index > 0 {
        index -= 1;
        if members[index].0 == name {
            let (_, member) = members.remove(index);
            return Some(member);
        }
    }
    None
}

/// Takes out the items of the member of the name, which has to be a list; there are none where no member
/// has it.
pub fn take_items<'a>(
    alloc: Global,
    members: &mut Vec<(&'a str, Tree<'a>)>,
    name: &str,
) -> Option<Vec<Tree<'a>>>
    ensures taken { option_map (λ ts. trees_view ts.items) result ≡
        list_of (get_member name.now (named_view members.old.items)) }
    ensures left { KeepsOthers name.now (named_view members.old.items) (named_view members.new.items) }
{
    match take(members, name) {
        Some(list) => into_items(list),
        None => Some(Vec::new(alloc)),
    }
}

fn into_items<'a>(tree: Tree<'a>) -> Option<Vec<Tree<'a>>>
    ensures { option_map (λ ts. trees_view ts.items) result ≡ as_array (tree_view tree.entry) }
{
    match tree {
        Tree::Array(items) => Some(items),
        other => {
            drop(other);
            None
        }
    }
}
