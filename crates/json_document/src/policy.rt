//! A policy or a template in JSON.

ghost use Rattle.std.specs.Prelude.{◌≡◌, IfOk, codes, option_and_then, option_map};
ghost use Rattle.json_trees.specs.Trees.{tree_view};
ghost use Rattle.json_document.specs.Body.{body_of};
ghost use Rattle.json_document.specs.Policy.{effect_of, effect_of_text, entry_of, policy_of, policy_of_parts, policy_parts_of, policy_with_body, read_of, read_with};
ghost use Rattle.serde_json.specs.Find.{get};

use crate::body::read_body;
use crate::link::{TemplateLink, read_link};
use crate::scope::{read_action_constraint, read_constraint};
use json_expressions::Bounded;
use json_trees::{Tree, as_str, get, get_str, has_only};
use policy_expressions::Expr;
use policy_set::{
    ActionConstraint, Effect, PrincipalOrResourceConstraint, Template, TemplateError, or_drop,
};
use policy_values::Text;
use std::alloc::{AllocError, Global};

/// What is read where a document has a policy.
#[derive(Debug, Drop)]
pub enum PolicyRead {
    /// A policy, or a template where slots stand in its scope.
    Policy(Template),
    /// A link of a template.
    Link(TemplateLink),
    /// A policy or a template whose condition is nested deeper than 400, which is not built.
    Nested,
}

/// The parts of a policy but for its body, as a document gives them.
#[derive(Debug, Drop)]
pub struct PolicyParts {
    /// Its id.
    pub id: Text,
    /// What it does where its condition is true.
    pub effect: Effect,
    /// What its scope asks of the principal.
    pub principal: PrincipalOrResourceConstraint,
    /// What its scope asks of the action.
    pub action: ActionConstraint,
    /// What its scope asks of the resource.
    pub resource: PrincipalOrResourceConstraint,
}

fn effect_of_text(text: &str) -> Option<Effect>
    ensures { result ≡ effect_of_text text.now }
{
    match text {
        "permit" => Some(Effect::Permit),
        "forbid" => Some(Effect::Forbid),
        _ => None,
    }
}

fn read_effect(tree: &Tree<'_>) -> Option<Effect>
    ensures { result ≡ effect_of (tree_view tree.now) }
{
    effect_of_text(as_str(tree)?)
}

#[tactic(auto, unfolding(crate::specs::Policy::policy_parts_of))]
fn read_policy_parts(alloc: Global, tree: &Tree<'_>) -> Result<Option<PolicyParts>, AllocError>
    ensures { IfOk result (λ o. o ≡ policy_parts_of (tree_view tree.now)) }
{
    let Some(id) = get_str(tree, "id") else {
        return Ok(None);
    };
    let Some(effect) = get(tree, "effect").and_then(read_effect) else {
        return Ok(None);
    };
    let Some(principal) = read_constraint(alloc, get(tree, "principal"))? else {
        return Ok(None);
    };
    let action = read_action_constraint(alloc, get(tree, "action"));
    let Some(action) = or_drop!(action, principal) else {
        drop(principal);
        return Ok(None);
    };
    let resource = read_constraint(alloc, get(tree, "resource"));
    let Some(resource) = or_drop!(resource, principal, action) else {
        drop(principal);
        drop(action);
        return Ok(None);
    };
    let id = or_drop!(Text::from_str(alloc, id), principal, action, resource);
    Ok(Some(PolicyParts {
        id,
        effect,
        principal,
        action,
        resource,
    }))
}

// The policy of these parts and this body.
#[tactic(auto, using(crate::proofs::Depths::built_read, crate::proofs::Depths::nested_read, crate::proofs::Depths::deep_read, crate::proofs::Depths::slot_read))]
fn with_expression(
    alloc: Global,
    parts: PolicyParts,
    body: Expr<()>,
) -> Result<Option<PolicyRead>, AllocError>
    ensures { IfOk result (λ o. o ≡ read_of (policy_of_parts parts body)) }
{
    let PolicyParts {
        id,
        effect,
        principal,
        action,
        resource,
    } = parts;
    let depth = body.depth();
    match Template::new(alloc, id, effect, principal, action, resource, body) {
        Ok(template) => Ok(Some(PolicyRead::Policy(template))),
        Err(TemplateError::Nested) => Ok(Some(PolicyRead::Nested)),
        Err(TemplateError::SlotInCondition) => {
            if depth >= MOST_BODY_DEPTH {
                Ok(Some(PolicyRead::Nested))
            } else {
                Ok(None)
            }
        }
        Err(TemplateError::OutOfMemory) => Err(AllocError),
    }
}

// A condition is one deeper than its body, and may be 400 deep.
const MOST_BODY_DEPTH: u32 = 400;

fn with_body(
    alloc: Global,
    parts: PolicyParts,
    body: Bounded<Expr<()>>,
) -> Result<Option<PolicyRead>, AllocError>
    ensures { IfOk result (λ o. o ≡ read_with parts body) }
{
    match body {
        Bounded::Within(body) => with_expression(alloc, parts, body),
        Bounded::Nested => {
            drop(parts);
            Ok(Some(PolicyRead::Nested))
        }
    }
}

// The body is read last, so that nothing of it has to be let go at a fault in another part.
#[tactic(auto, using(crate::proofs::Depths::whole_read))]
fn read_whole(alloc: Global, tree: &Tree<'_>) -> Result<Option<PolicyRead>, AllocError>
    ensures { IfOk result (λ o. o ≡ option_and_then read_of (policy_with_body
        (policy_parts_of (tree_view tree.now)) (body_of (get (codes "body") (tree_view tree.now))))) }
{
    let Some(parts) = read_policy_parts(alloc, tree)? else {
        return Ok(None);
    };
    let Some(body) = or_drop!(read_body(alloc, get(tree, "body")), parts) else {
        drop(parts);
        return Ok(None);
    };
    with_body(alloc, parts, body)
}

// The policy or the template that the tree says, if it is one.
#[tactic(auto, unfolding(crate::specs::Policy::policy_of))]
fn read_policy(alloc: Global, tree: &Tree<'_>) -> Result<Option<PolicyRead>, AllocError>
    ensures { IfOk result (λ o. o ≡ option_and_then read_of (policy_of (tree_view tree.now))) }
{
    if !has_only(
        &["id", "effect", "principal", "action", "resource", "body"],
        tree,
    ) {
        return Ok(None);
    }
    read_whole(alloc, tree)
}

/// What the tree says where a document has a policy, if it has the form of one: a link, where it has the
/// member `link`, else a policy or a template.
#[tactic(auto, unfolding(crate::specs::Policy::entry_of))]
pub fn read_entry(alloc: Global, tree: &Tree<'_>) -> Result<Option<PolicyRead>, AllocError>
    ensures { IfOk result (λ o. o ≡ entry_of (tree_view tree.now)) }
{
    if get(tree, "link").is_none() {
        return read_policy(alloc, tree);
    }
    match read_link(alloc, tree)? {
        Some(link) => Ok(Some(PolicyRead::Link(link))),
        None => Ok(None),
    }
}
