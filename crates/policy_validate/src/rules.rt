//! What is tested of policies before their conditions are typed.

ghost use Rattle.std.specs.Prelude.{◌≡◌, ◌<◌, not, nat_lt, IfOk};
ghost use Rattle.std.specs.List.{list_all};
ghost use Rattle.policy_set.specs.PolicySet.{written, links};
ghost use Rattle.policy_typecheck.specs.Policies.{is_accepted, is_too_deep};
ghost use Rattle.policy_validate.specs.Rules.{is_none, is_ready, keeps_rules, link_keeps_rules, keep_rules};

use policy_scope::{
    validate_action_ids, validate_entity_types, validate_entity_types_in_slots,
    validate_enum_entity, validate_linked_action_application, validate_template_action_application,
};
use policy_set::{Policy, PolicySet, Template};
use policy_typecheck::{Typechecker, is_too_deep};
use schema_core::ValidatorSchema;
use std::alloc::{AllocError, Global};

/// Whether the policies keep the rules that stand beside the typing of each policy's own condition: nothing
/// is found of the names and of the scope of each template and static policy, nor of what a link gives for
/// slots and of its own scope; each template is typed in its environments, and no static policy is too deep
/// to be typed.
pub fn keep_rules(
    alloc: Global,
    schema: &ValidatorSchema,
    typechecker: &Typechecker<'_, '_>,
    policies: &PolicySet,
) -> Result<bool, AllocError>
    requires { typechecker.now ≡ schema.now }
    ensures { IfOk result (λ b. b ≡ keep_rules schema.now policies.now) }
{
    Ok(written_keep(alloc, schema, typechecker, policies)? && links_keep(alloc, schema, policies)?)
}

fn written_keep(
    alloc: Global,
    schema: &ValidatorSchema,
    typechecker: &Typechecker<'_, '_>,
    policies: &PolicySet,
) -> Result<bool, AllocError>
    requires { typechecker.now ≡ schema.now }
    ensures { IfOk result (λ b. b ≡ list_all (keeps_rules schema.now) (written policies.now)) }
{
    for template in policies.written(alloc)? {
        if !keeps_rules(alloc, schema, typechecker, template)? {
            return Ok(false);
        }
    }
    Ok(true)
}

fn keeps_rules(
    alloc: Global,
    schema: &ValidatorSchema,
    typechecker: &Typechecker<'_, '_>,
    template: &Template,
) -> Result<bool, AllocError>
    requires { typechecker.now ≡ schema.now }
    ensures { IfOk result (λ b. b ≡ keeps_rules schema.now template.now) }
{
    Ok(
        none(validate_entity_types(alloc, schema, template)?)
            && none(validate_enum_entity(alloc, schema, template)?)
            && none(validate_action_ids(alloc, schema, template)?)
            && none(validate_template_action_application(alloc, schema, template)?)
            && is_ready(alloc, typechecker, template)?,
    )
}

fn is_ready(
    alloc: Global,
    typechecker: &Typechecker<'_, '_>,
    template: &Template,
) -> Result<bool, AllocError>
    ensures { IfOk result (λ b. b ≡ is_ready typechecker.now template.now) }
{
    if template.has_slot() {
        is_typed(alloc, typechecker, template)
    } else {
        Ok(!is_too_deep(template.condition()))
    }
}

// Whether a template is accepted in its environments. What is found is reported by whoever validates.
fn is_typed(
    alloc: Global,
    typechecker: &Typechecker<'_, '_>,
    template: &Template,
) -> Result<bool, AllocError>
    ensures { IfOk result (λ b. b ≡ is_accepted typechecker.now template.now) }
{
    let mut errors = Vec::new(alloc);
    let mut warnings = Vec::new(alloc);
    let accepted = typechecker.typecheck_policy(alloc, template, &mut errors, &mut warnings)?;
    drop(errors);
    drop(warnings);
    Ok(accepted)
}

fn links_keep(
    alloc: Global,
    schema: &ValidatorSchema,
    policies: &PolicySet,
) -> Result<bool, AllocError>
    ensures { IfOk result (λ b. b ≡ list_all (link_keeps_rules schema.now) (links policies.now)) }
{
    for link in policies.links(alloc)? {
        if !link_keeps_rules(alloc, schema, link)? {
            return Ok(false);
        }
    }
    Ok(true)
}

fn link_keeps_rules(
    alloc: Global,
    schema: &ValidatorSchema,
    link: &Policy,
) -> Result<bool, AllocError>
    ensures { IfOk result (λ b. b ≡ link_keeps_rules schema.now link.now) }
{
    Ok(
        none(validate_entity_types_in_slots(alloc, schema, link)?)
            && none(validate_linked_action_application(alloc, schema, link)?),
    )
}

fn none<T: Drop>(found: Vec<T>) -> bool
    ensures { result ≡ is_none found.items }
{
    let none = found.is_empty();
    drop(found);
    none
}
