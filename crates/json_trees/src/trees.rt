//! A text as a tree.

ghost use Rattle.std.specs.Prelude.{◌≡◌, if◌then◌else◌, Some, None, IfOk, option_and_then, option_map};
ghost use Rattle.json.specs.Value.{value_view};
ghost use Rattle.json_values.specs.Json.{json_of};
ghost use Rattle.json_trees.specs.Trees.{data_of, in_range, tree_of, tree_view};

use crate::Tree;
use crate::ranges::is_in_range;
use json::{Error, Reader, Scratch};
use std::alloc::{AllocError, Global};

// How deep arrays and objects may nest.
const MAX_DEPTH: usize = 127;

/// The tree of the value that the bytes spell in UTF-8, where they are one JSON value and blanks around it.
/// Texts without escapes are borrowed from the bytes, the others from the scratch.
pub fn read_tree<'a>(
    alloc: Global,
    bytes: &'a [u8],
    scratch: &'a mut Scratch,
) -> Result<Option<Tree<'a>>, AllocError>
    ensures { IfOk result (λ o. option_map tree_view o ≡ json_of bytes.now) }
{
    let Ok(text) = std::str::from_utf8(bytes) else {
        return Ok(None);
    };
    let tree = tree_of(alloc, text, scratch)?;
    Ok(in_range(tree))
}

// The tree, unless a number of it is out of range.
fn in_range(tree: Option<Tree<'_>>) -> Option<Tree<'_>>
    ensures { option_map tree_view result ≡ option_and_then
        (λ j. if in_range j then Some (data_of j) else None) (option_map value_view tree.entry) }
{
    let tree = tree?;
    if is_in_range(&tree) {
        Some(tree)
    } else {
        drop(tree);
        None
    }
}

fn tree_of<'a>(
    alloc: Global,
    text: &'a str,
    scratch: &'a mut Scratch,
) -> Result<Option<Tree<'a>>, AllocError>
    ensures { IfOk result (λ o. option_map value_view o ≡ tree_of text.now) }
{
    let mut reader = Reader::new(text, scratch)?;
    match Tree::read(alloc, &mut reader, MAX_DEPTH) {
        Ok(tree) => {
            if reader.next().is_none() {
                Ok(Some(tree))
            } else {
                drop(tree);
                Ok(None)
            }
        }
        Err(Error::OutOfMemory) => Err(AllocError),
        Err(_) => Ok(None),
    }
}
