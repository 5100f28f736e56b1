//! A request in JSON.

ghost use Rattle.std.specs.Prelude.{◌≡◌, IfOk, false, option_map};
ghost use Rattle.std.specs.Option.{option_map_or};
ghost use Rattle.serde_json.specs.Find.{as_object};
ghost use Rattle.json_values.specs.Json.{has_only};
ghost use Rattle.json_trees.specs.Trees.{tree_view};
ghost use Rattle.json_document.specs.Request.{context_of, entries_of, given_request_of, known_of, request_names, request_of};

use entity_store::{Context, Request};
use json_trees::{Tree, get, has_only, is_null, read_fields, read_uid};
use policy_set::or_drop;
use policy_values::EntityUID;
use std::alloc::{AllocError, Global};

fn read_known(
    alloc: Global,
    tree: Option<&Tree<'_>>,
) -> Result<Option<Option<EntityUID>>, AllocError>
    ensures { IfOk result (λ o. o ≡ known_of (option_map (λ t. tree_view t.now) tree.entry)) }
{
    let Some(tree) = tree else {
        return Ok(Some(None));
    };
    if is_null(tree) {
        return Ok(Some(None));
    }
    match read_uid(alloc, tree)? {
        Some(uid) => Ok(Some(Some(uid))),
        None => Ok(None),
    }
}

fn read_context(
    alloc: Global,
    tree: Option<&Tree<'_>>,
) -> Result<Option<Option<Context>>, AllocError>
    ensures { IfOk result (λ o. o ≡ context_of (option_map (λ t. tree_view t.now) tree.entry)) }
{
    let Some(tree) = tree else {
        return Ok(Some(None));
    };
    if is_null(tree) {
        return Ok(Some(None));
    }
    match read_fields(alloc, Some(tree))? {
        Some(fields) => Ok(Some(Some(Context::new(fields)))),
        None => Ok(None),
    }
}

fn read_entries(alloc: Global, tree: &Tree<'_>) -> Result<Option<Request>, AllocError>
    ensures { IfOk result (λ o. o ≡ entries_of (tree_view tree.now)) }
{
    let Some(principal) = read_known(alloc, get(tree, "principal"))? else {
        return Ok(None);
    };
    let action = read_known(alloc, get(tree, "action"));
    let Some(action) = or_drop!(action, principal) else {
        drop(principal);
        return Ok(None);
    };
    let resource = read_known(alloc, get(tree, "resource"));
    let Some(resource) = or_drop!(resource, principal, action) else {
        drop(principal);
        drop(action);
        return Ok(None);
    };
    let context = read_context(alloc, get(tree, "context"));
    let Some(context) = or_drop!(context, principal, action, resource) else {
        drop(principal);
        drop(action);
        drop(resource);
        return Ok(None);
    };
    Ok(Some(Request {
        principal,
        action,
        resource,
        context,
    }))
}

fn has_names(tree: &Tree<'_>) -> bool
    ensures { result ≡ option_map_or (has_only request_names) (as_object (tree_view tree.now)) false }
{
    has_only(&["principal", "action", "resource", "context"], tree)
}

#[tactic(auto, unfolding(crate::specs::Request::given_request_of))]
fn read_given_request(alloc: Global, tree: &Tree<'_>) -> Result<Option<Request>, AllocError>
    ensures { IfOk result (λ o. o ≡ given_request_of (tree_view tree.now)) }
{
    if has_names(tree) {
        read_entries(alloc, tree)
    } else {
        Ok(None)
    }
}

/// The request that the tree is, if it is one; an absent one has no entry.
pub fn read_request(alloc: Global, tree: Option<&Tree<'_>>) -> Result<Option<Request>, AllocError>
    ensures { IfOk result (λ o. o ≡ request_of (option_map (λ t. tree_view t.now) tree.entry)) }
{
    match tree {
        Some(tree) => read_given_request(alloc, tree),
        None => Ok(Some(Request {
            principal: None,
            action: None,
            resource: None,
            context: None,
        })),
    }
}

/// The request that the tree is, if it is one. The tree is let go of then.
pub(crate) fn given_request_in(alloc: Global, tree: Tree<'_>) -> Result<Option<Request>, AllocError>
    ensures { IfOk result (λ o. o ≡ given_request_of (tree_view tree.entry)) }
{
    let request = read_given_request(alloc, &tree);
    drop(tree);
    request
}

/// The request that the tree is, if it is one; an absent one has no entry.
pub(crate) fn request_in(
    alloc: Global,
    tree: Option<Tree<'_>>,
) -> Result<Option<Request>, AllocError>
    ensures { IfOk result (λ o. o ≡ request_of (option_map tree_view tree.entry)) }
{
    match tree {
        Some(tree) => given_request_in(alloc, tree),
        None => read_request(alloc, None),
    }
}
