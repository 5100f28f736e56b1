//! The set of policies of a document.

ghost use Rattle.std.specs.Prelude.{◌≡◌, IfOk, MatchResult, None, Option};
ghost use Rattle.policy_set.specs.declared.policy_set.PolicySetError.{PolicySetError};
ghost use Rattle.json_trees.specs.Trees.{tree_view, trees_view};
ghost use Rattle.policy_set.specs.PolicySet.{PolicySetData, id_fault, IsNotAdded};
ghost use Rattle.json_document.specs.Faults.{ComesTo, Fails};
ghost use Rattle.json_document.specs.Policies.{added, added_link, added_read, added_template, no_policies, policies_of, slot_pairs, unless_fault, with_written};

use crate::{DocumentFault, Place, PolicyRead, TemplateLink, read_entry};
use json_trees::Tree;
use policy_expressions::{SlotId, SlotValues};
use policy_set::{PolicySet, PolicySetError, Template, or_drop};
use policy_values::EntityUID;
use std::alloc::{AllocError, Global};

// The fault for which the policy at the index is not added.
fn fault_at(index: usize, error: PolicySetError) -> DocumentFault
    ensures { (fault : Option PolicySetError) (set : PolicySetData) → IsNotAdded fault error →
        Fails result (unless_fault index fault set) }
{
    match error {
        PolicySetError::DuplicateId(_) => DocumentFault::Place(Place::PolicyDuplicate(index)),
        PolicySetError::UnknownTemplate(_) => DocumentFault::Place(Place::UnknownTemplate(index)),
        PolicySetError::SlotMissing(_) => DocumentFault::Place(Place::SlotMissing(index)),
        PolicySetError::SlotExtra(_) => DocumentFault::Place(Place::SlotExtra(index)),
        PolicySetError::OutOfMemory => DocumentFault::OutOfMemory,
    }
}

// Adds a template, or a static policy where no slot stands in its scope.
fn add_written(policies: &mut PolicySet, template: Template) -> Result<(), PolicySetError>
    ensures { MatchResult result (λ _. (id_fault policies.old template.id ≡ None) ×
        (policies.new ≡ with_written template policies.old))
        (IsNotAdded (id_fault policies.old template.id)) }
{
    if template.has_slot() {
        policies.add_template(template)
    } else {
        policies.add_static(template)
    }
}

fn add_template(
    policies: &mut PolicySet,
    index: usize,
    template: Template,
) -> Result<(), DocumentFault>
    ensures { ComesTo (λ _. policies.new) result (added_template index policies.old template) }
{
    match add_written(policies, template) {
        Ok(()) => Ok(()),
        Err(error) => Err(fault_at(index, error)),
    }
}

/// The ids for slots, each beside its slot.
pub fn slot_pairs(alloc: Global, values: SlotValues) -> Result<Vec<(SlotId, EntityUID)>, AllocError>
    ensures { IfOk result (λ v. v.items ≡ slot_pairs values) }
{
    let SlotValues {
        principal,
        resource,
    } = values;
    let mut pairs = Vec::new(alloc);
    if let Some(principal) = principal {
        or_drop!(pairs.push((SlotId::Principal, principal)), resource);
    }
    if let Some(resource) = resource {
        pairs.push((SlotId::Resource, resource))?;
    }
    Ok(pairs)
}

fn add_link(
    alloc: Global,
    policies: &mut PolicySet,
    index: usize,
    link: TemplateLink,
) -> Result<(), DocumentFault>
    ensures { ComesTo (λ _. policies.new) result (added_link index policies.old link) }
{
    let TemplateLink {
        id,
        template,
        values,
    } = link;
    let pairs = slot_pairs(alloc, values)?;
    match policies.link(&template, id, pairs) {
        Ok(()) => Ok(()),
        Err(error) => Err(fault_at(index, error)),
    }
}

fn add_read(
    alloc: Global,
    policies: &mut PolicySet,
    index: usize,
    read: Option<PolicyRead>,
) -> Result<(), DocumentFault>
    ensures { ComesTo (λ _. policies.new) result (added_read index policies.old read) }
{
    match read {
        Some(PolicyRead::Policy(template)) => add_template(policies, index, template),
        Some(PolicyRead::Link(link)) => add_link(alloc, policies, index, link),
        Some(PolicyRead::Nested) => Err(DocumentFault::Place(Place::PolicyNested(index))),
        None => Err(DocumentFault::Place(Place::Policy(index))),
    }
}

// Adds what the tree says: a policy, a template or a link. The tree is let go of once it is read.
fn add_tree(
    alloc: Global,
    policies: &mut PolicySet,
    index: usize,
    tree: Tree<'_>,
) -> Result<(), DocumentFault>
    ensures { ComesTo (λ _. policies.new) result (added index policies.old (tree_view tree.entry)) }
{
    let read = read_entry(alloc, &tree);
    drop(tree);
    add_read(alloc, policies, index, read?)
}

/// The policies of the items; else the place of the first fault.
pub fn read_policies(alloc: Global, items: Vec<Tree<'_>>) -> Result<PolicySet, DocumentFault>
    ensures { ComesTo (λ s. s) result (policies_of 0 no_policies (trees_view items.entry.items)) }
{
    let mut policies = PolicySet::new(alloc);
    let mut index = 0;
    for item in items {
        add_tree(alloc, &mut policies, index, item)?;
        index += 1;
    }
    Ok(policies)
}
