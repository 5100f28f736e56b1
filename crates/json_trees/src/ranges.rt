//! Whether the numbers of a tree are in range.

ghost use Rattle.std.specs.Prelude.{◌≡◌};
ghost use Rattle.json.specs.Value.{value_view, items_view, members_view};
ghost use Rattle.json_trees.specs.Trees.{in_range, items_in_range, members_in_range};

use crate::Tree;
use crate::numbers::number_of;

/// Whether all numbers of the tree are in range.
#[cycle(ranges)]
pub(crate) fn is_in_range(tree: &Tree<'_>) -> bool
    ensures { result ≡ in_range (value_view tree.now) }
{
    match tree {
        Tree::Number(text) => number_of(text).is_some(),
        Tree::Array(items) => are_in_range(items),
        Tree::Object(members) => members_are_in_range(members),
        Tree::Null | Tree::Bool(_) | Tree::String(_) => true,
    }
}

#[cycle(ranges)]
fn are_in_range(items: &Vec<Tree<'_>>) -> bool
    ensures { result ≡ items_in_range (items_view items.now.items) }
{
    for item in items {
        if !is_in_range(item) {
            return false;
        }
    }
    true
}

#[cycle(ranges)]
fn members_are_in_range(members: &Vec<(&str, Tree<'_>)>) -> bool
    ensures { result ≡ members_in_range (members_view members.now.items) }
{
    for member in members {
        if !is_in_range(&member.1) {
            return false;
        }
    }
    true
}
