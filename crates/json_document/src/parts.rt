//! The parts of a document, in JSON.

ghost use Rattle.std.specs.Prelude.{◌≡◌, option_map};
ghost use Rattle.serde_json.specs.Data.{object};
ghost use Rattle.json_values.specs.Json.{has_only};
ghost use Rattle.json_trees.specs.Trees.{named_view, tree_view};
ghost use Rattle.json_document.specs.Parts.{part_names, parts_of, parts_view};

use crate::Shape;
use json_trees::{Tree, have_only, take, take_items};
use std::alloc::Global;

/// The parts of a document, in trees of its text.
pub(crate) struct Parts<'a> {
    pub(crate) schema: Tree<'a>,
    pub(crate) policies: Vec<Tree<'a>>,
    pub(crate) entities: Vec<Tree<'a>>,
    pub(crate) request: Option<Tree<'a>>,
    pub(crate) requests: Vec<Tree<'a>>,
    pub(crate) edits: Vec<Tree<'a>>,
}

impl Drop for Parts<'_> {
    fn drop(self) {
        let Parts {
            schema,
            policies,
            entities,
            request,
            requests,
            edits,
        } = self;
        drop(schema);
        drop(policies);
        drop(entities);
        drop(request);
        drop(requests);
        drop(edits);
    }
}

// Whether a document of the shape may have the members.
fn have_part_names(shape: Shape, members: &Vec<(&str, Tree<'_>)>) -> bool
    ensures { result ≡ has_only (part_names shape) (named_view members.now.items) }
{
    match shape {
        Shape::Whole => have_only(&["schema", "policies", "entities", "request"], members),
        Shape::Batch => have_only(&["schema", "policies", "entities", "requests"], members),
        Shape::Live => have_only(&["schema", "edits", "entities", "request"], members),
    }
}

// The parts that the members are, if they are those of a document of the shape.
#[tactic(auto, unfolding(crate::specs::Parts::parts_of))]
fn parts_among<'a>(
    alloc: Global,
    shape: Shape,
    mut members: Vec<(&'a str, Tree<'a>)>,
) -> Option<Parts<'a>>
    ensures { option_map parts_view result ≡ parts_of shape (object (named_view members.entry.items)) }
{
    if !have_part_names(shape, &members) {
        return None;
    }
    let schema = take(&mut members, "schema")?;
    let policies = take_items(alloc, &mut members, "policies")?;
    let entities = take_items(alloc, &mut members, "entities")?;
    let request = take(&mut members, "request");
    let requests = take_items(alloc, &mut members, "requests")?;
    let edits = take_items(alloc, &mut members, "edits")?;
    Some(Parts {
        schema,
        policies,
        entities,
        request,
        requests,
        edits,
    })
}

/// The parts of the document of the shape that the tree is, if it has the form of one.
#[tactic(auto, unfolding(crate::specs::Parts::parts_of))]
pub(crate) fn parts_of<'a>(alloc: Global, shape: Shape, tree: Tree<'a>) -> Option<Parts<'a>>
    ensures { option_map parts_view result ≡ parts_of shape (tree_view tree.entry) }
{
    match tree {
        Tree::Object(members) => parts_among(alloc, shape, members),
        other => {
            drop(other);
            None
        }
    }
}
