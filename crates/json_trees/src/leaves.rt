//! Texts and numbers of trees.

ghost use Rattle.std.specs.Prelude.{◌≡◌, is_some, option_map, option_and_then};
ghost use Rattle.serde_json.specs.Find as find;
ghost use Rattle.json_trees.specs.Trees.{tree_view};

use crate::Tree;
use crate::lookups::get;
use crate::numbers::number_of;

/// Whether the tree is null; a number that is out of range counts as null.
pub fn is_null(tree: &Tree<'_>) -> bool
    ensures { result ≡ is_some (find.as_null (tree_view tree.now)) }
{
    match tree {
        Tree::Null => true,
        Tree::Number(text) => number_of(text).is_none(),
        _ => false,
    }
}

/// The text that the tree is.
pub fn as_str<'t>(tree: &'t Tree<'_>) -> Option<&'t str>
    ensures { option_map (λ s. s.now) result ≡ find.as_str (tree_view tree.now) }
{
    match tree {
        Tree::String(text) => Some(text),
        _ => None,
    }
}

/// The text that the member of the name is.
pub fn get_str<'t>(tree: &'t Tree<'_>, name: &str) -> Option<&'t str>
    ensures { option_map (λ s. s.now) result ≡
        option_and_then find.as_str (find.get name.now (tree_view tree.now)) }
{
    as_str(get(tree, name)?)
}

/// The whole number of 64 bits that the tree is.
pub fn as_i64(tree: &Tree<'_>) -> Option<i64>
    ensures { result ≡ option_and_then find.as_i64 (find.as_number (tree_view tree.now)) }
{
    match tree {
        Tree::Number(text) => number_of(text)?.as_i64(),
        _ => None,
    }
}
