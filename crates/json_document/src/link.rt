//! A link of a template in JSON.

ghost use Rattle.std.specs.Prelude.{◌≡◌, IfOk, option_map};
ghost use Rattle.json_trees.specs.Trees.{tree_view};
ghost use Rattle.json_document.specs.Link.{given_id, link_of};

use json_trees::{Tree, get, get_str, has_only, read_uid};
use policy_expressions::SlotValues;
use policy_set::or_drop;
use policy_values::{EntityUID, Text};
use std::alloc::{AllocError, Global};

/// A link of a template, as a document gives it.
#[derive(Debug, Drop)]
pub struct TemplateLink {
    /// Its own id.
    pub id: Text,
    /// The id of the template.
    pub template: Text,
    /// The ids for the template's slots.
    pub values: SlotValues,
}

fn read_given_id(
    alloc: Global,
    tree: Option<&Tree<'_>>,
) -> Result<Option<Option<EntityUID>>, AllocError>
    ensures { IfOk result (λ o. o ≡ given_id (option_map (λ t. tree_view t.now) tree.entry)) }
{
    let Some(tree) = tree else {
        return Ok(Some(None));
    };
    match read_uid(alloc, tree)? {
        Some(uid) => Ok(Some(Some(uid))),
        None => Ok(None),
    }
}

/// The link that the tree says, if it is one.
#[tactic(auto, unfolding(crate::specs::Link::link_of))]
pub(crate) fn read_link(alloc: Global, tree: &Tree<'_>) -> Result<Option<TemplateLink>, AllocError>
    ensures { IfOk result (λ o. o ≡ link_of (tree_view tree.now)) }
{
    if !has_only(&["id", "link", "principal", "resource"], tree) {
        return Ok(None);
    }
    let Some(id) = get_str(tree, "id") else {
        return Ok(None);
    };
    let Some(template) = get_str(tree, "link") else {
        return Ok(None);
    };
    let Some(principal) = read_given_id(alloc, get(tree, "principal"))? else {
        return Ok(None);
    };
    let resource = read_given_id(alloc, get(tree, "resource"));
    let Some(resource) = or_drop!(resource, principal) else {
        drop(principal);
        return Ok(None);
    };
    let values = SlotValues {
        principal,
        resource,
    };
    let id = or_drop!(Text::from_str(alloc, id), values);
    let template = or_drop!(Text::from_str(alloc, template), id, values);
    Ok(Some(TemplateLink {
        id,
        template,
        values,
    }))
}
