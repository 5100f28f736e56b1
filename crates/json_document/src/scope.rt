//! What a scope asks, in JSON.

ghost use Rattle.std.specs.Prelude.{◌≡◌, IfOk, Some, option_and_then, option_map};
ghost use Rattle.serde_json.specs.Find.{as_object};
ghost use Rattle.json_trees.specs.Trees.{tree_view};
ghost use Rattle.json_values.specs.Names.{name_of, uid_of, uids_of};
ghost use Rattle.json_document.specs.Scope.{action_constraint_of, action_form, action_form_of, asked, constraint_of, given_constraint_of, is_in, reference_of, slot_of};

use json_trees::{Tree, as_str, get, has_only, lone_member, read_name, read_uid, read_uids};
use policy_set::{
    ActionConstraint, ActionList, EntityReference, PrincipalOrResourceConstraint, or_drop,
};
use std::alloc::{AllocError, Global};

fn slot_of(text: &str) -> Option<EntityReference>
    ensures { result ≡ slot_of text.now }
{
    if text == "?" {
        Some(EntityReference::Slot)
    } else {
        None
    }
}

fn read_reference(alloc: Global, tree: &Tree<'_>) -> Result<Option<EntityReference>, AllocError>
    ensures { IfOk result (λ o. o ≡ reference_of (tree_view tree.now)) }
{
    if let Some(text) = as_str(tree) {
        return Ok(slot_of(text));
    }
    match read_uid(alloc, tree)? {
        Some(uid) => Ok(Some(EntityReference::EUID(uid))),
        None => Ok(None),
    }
}

fn read_eq(
    alloc: Global,
    tree: &Tree<'_>,
) -> Result<Option<PrincipalOrResourceConstraint>, AllocError>
    ensures { IfOk result
        (λ o. o ≡ option_map PrincipalOrResourceConstraint.Eq (reference_of (tree_view tree.now))) }
{
    match read_reference(alloc, tree)? {
        Some(entity) => Ok(Some(PrincipalOrResourceConstraint::Eq(entity))),
        None => Ok(None),
    }
}

fn read_in(
    alloc: Global,
    tree: &Tree<'_>,
) -> Result<Option<PrincipalOrResourceConstraint>, AllocError>
    ensures { IfOk result
        (λ o. o ≡ option_map PrincipalOrResourceConstraint.In (reference_of (tree_view tree.now))) }
{
    match read_reference(alloc, tree)? {
        Some(entity) => Ok(Some(PrincipalOrResourceConstraint::In(entity))),
        None => Ok(None),
    }
}

fn read_is(
    alloc: Global,
    tree: &Tree<'_>,
) -> Result<Option<PrincipalOrResourceConstraint>, AllocError>
    ensures { IfOk result
        (λ o. o ≡ option_map PrincipalOrResourceConstraint.Is (name_of (tree_view tree.now))) }
{
    match read_name(alloc, tree)? {
        Some(name) => Ok(Some(PrincipalOrResourceConstraint::Is(name))),
        None => Ok(None),
    }
}

fn read_is_in(
    alloc: Global,
    name: &Tree<'_>,
    entity: &Tree<'_>,
) -> Result<Option<PrincipalOrResourceConstraint>, AllocError>
    ensures { IfOk result
        (λ o. o ≡ is_in (name_of (tree_view name.now)) (reference_of (tree_view entity.now))) }
{
    let Some(name) = read_name(alloc, name)? else {
        return Ok(None);
    };
    match or_drop!(read_reference(alloc, entity), name) {
        Some(entity) => Ok(Some(PrincipalOrResourceConstraint::IsIn(name, entity))),
        None => {
            drop(name);
            Ok(None)
        }
    }
}

// What the members `==`, `in` and `is` ask together.
fn read_asked(
    alloc: Global,
    equal: Option<&Tree<'_>>,
    within: Option<&Tree<'_>>,
    of_type: Option<&Tree<'_>>,
) -> Result<Option<PrincipalOrResourceConstraint>, AllocError>
    ensures { IfOk result (λ o. o ≡ asked (option_map (λ t. tree_view t.now) equal.entry)
        (option_map (λ t. tree_view t.now) within.entry) (option_map (λ t. tree_view t.now) of_type.entry)) }
{
    match (equal, within, of_type) {
        (Some(entity), None, None) => read_eq(alloc, entity),
        (None, Some(entity), None) => read_in(alloc, entity),
        (None, None, Some(name)) => read_is(alloc, name),
        (None, Some(entity), Some(name)) => read_is_in(alloc, name, entity),
        _ => Ok(None),
    }
}

#[tactic(auto, unfolding(crate::specs::Scope::given_constraint_of))]
fn read_given_constraint(
    alloc: Global,
    tree: &Tree<'_>,
) -> Result<Option<PrincipalOrResourceConstraint>, AllocError>
    ensures { IfOk result (λ o. o ≡ given_constraint_of (tree_view tree.now)) }
{
    if !has_only(&["==", "in", "is"], tree) {
        return Ok(None);
    }
    read_asked(alloc, get(tree, "=="), get(tree, "in"), get(tree, "is"))
}

/// What a scope asks of the principal or of the resource; an absent part asks nothing.
pub(crate) fn read_constraint(
    alloc: Global,
    tree: Option<&Tree<'_>>,
) -> Result<Option<PrincipalOrResourceConstraint>, AllocError>
    ensures { IfOk result (λ o. o ≡ constraint_of (option_map (λ t. tree_view t.now) tree.entry)) }
{
    let Some(tree) = tree else {
        return Ok(Some(PrincipalOrResourceConstraint::Any));
    };
    read_given_constraint(alloc, tree)
}

fn read_one_action(alloc: Global, tree: &Tree<'_>) -> Result<Option<ActionConstraint>, AllocError>
    ensures { IfOk result (λ o. o ≡ option_map ActionConstraint.Eq (uid_of (tree_view tree.now))) }
{
    match read_uid(alloc, tree)? {
        Some(uid) => Ok(Some(ActionConstraint::Eq(uid))),
        None => Ok(None),
    }
}

fn read_actions(alloc: Global, tree: &Tree<'_>) -> Result<Option<ActionConstraint>, AllocError>
    ensures { IfOk result (λ o. o ≡ option_map ActionConstraint.In (uids_of (Some (tree_view tree.now)))) }
{
    match read_uids(alloc, tree)? {
        Some(uids) => Ok(Some(ActionConstraint::In(ActionList::new(uids)))),
        None => Ok(None),
    }
}

fn read_action_form(
    alloc: Global,
    key: &str,
    tree: &Tree<'_>,
) -> Result<Option<ActionConstraint>, AllocError>
    ensures { IfOk result
        (λ o. o ≡ action_form key.now (uid_of (tree_view tree.now)) (uids_of (Some (tree_view tree.now)))) }
{
    match key {
        "==" => read_one_action(alloc, tree),
        "in" => read_actions(alloc, tree),
        _ => Ok(None),
    }
}

fn read_given_actions(
    alloc: Global,
    tree: &Tree<'_>,
) -> Result<Option<ActionConstraint>, AllocError>
    ensures { IfOk result
        (λ o. o ≡ option_and_then action_form_of (as_object (tree_view tree.now))) }
{
    match lone_member(tree) {
        Some((key, tree)) => read_action_form(alloc, key, tree),
        None => Ok(None),
    }
}

/// What a scope asks of the action; an absent part asks nothing.
pub(crate) fn read_action_constraint(
    alloc: Global,
    tree: Option<&Tree<'_>>,
) -> Result<Option<ActionConstraint>, AllocError>
    ensures { IfOk result (λ o. o ≡ action_constraint_of (option_map (λ t. tree_view t.now) tree.entry)) }
{
    let Some(tree) = tree else {
        return Ok(Some(ActionConstraint::Any));
    };
    read_given_actions(alloc, tree)
}
