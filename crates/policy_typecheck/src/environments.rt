//! The environments.

ghost use Rattle.std.specs.Prelude.{◌≡◌, ◌++◌, map, IfOk, OnOk};
ghost use Rattle.std.specs.List.{flat_map};
ghost use Rattle.schema_core.specs.Environments.{environment, environments_at};
ghost use Rattle.schema_core.specs.RequestEnvs.{env_data_of};
ghost use Rattle.link_spec.specs.Linked.{linked_envs, linked_envs_at, linked_envs_of, linked_envs_with};
ghost use Rattle.policy_typecheck.specs.SlotEnvs.{slot_envs};

use crate::slots::slot_types;
use policy_set::Template;
use policy_values::EntityType;
use schema_core::{RequestEnv, ValidatorActionId, ValidatorSchema};
use std::alloc::{AllocError, Global};

/// The environments of a template: those of the schema, ascending, each with the types of what may stand for
/// the slots.
pub fn linked_request_envs<'a>(
    alloc: Global,
    schema: &'a ValidatorSchema,
    t: &Template,
) -> Result<Vec<RequestEnv<'a>>, AllocError>
    ensures { IfOk result (λ envs. map env_data_of envs.items ≡ linked_envs schema.now t.now) }
{
    let mut envs = Vec::new(alloc);
    for action in schema.action_ids() {
        add_of_action(&mut envs, schema, t, action)?;
    }
    Ok(envs)
}

// Adds those of an action.
pub(crate) fn add_of_action<'a>(
    envs: &mut Vec<RequestEnv<'a>>,
    schema: &'a ValidatorSchema,
    t: &Template,
    action: &'a ValidatorActionId,
) -> Result<(), AllocError>
    ensures { OnOk result (map env_data_of envs.new.items ≡ map env_data_of envs.old.items ++
        linked_envs_of schema.now t.now action.now) }
{
    for principal in action.applies_to_principals() {
        add_of_principal(envs, schema, t, action, principal)?;
    }
    Ok(())
}

// Adds those with the principal type.
fn add_of_principal<'a>(
    envs: &mut Vec<RequestEnv<'a>>,
    schema: &'a ValidatorSchema,
    t: &Template,
    action: &'a ValidatorActionId,
    principal: &'a EntityType,
) -> Result<(), AllocError>
    ensures { OnOk result (map env_data_of envs.new.items ≡ map env_data_of envs.old.items ++
        flat_map (linked_envs_at schema.now t.now action.now)
        (environments_at action.now principal.now)) }
{
    for resource in action.applies_to_resources() {
        add_linked(envs, schema, t, action, principal, resource)?;
    }
    Ok(())
}

// Adds those with the resource type too.
fn add_linked<'a>(
    envs: &mut Vec<RequestEnv<'a>>,
    schema: &'a ValidatorSchema,
    t: &Template,
    action: &'a ValidatorActionId,
    principal: &'a EntityType,
    resource: &'a EntityType,
) -> Result<(), AllocError>
    ensures { OnOk result (map env_data_of envs.new.items ≡ map env_data_of envs.old.items ++
        linked_envs_at schema.now t.now action.now
        (environment principal.now action.now.name resource.now)) }
{
    let alloc = *envs.allocator();
    let principal_slots = slot_types(alloc, schema, t.principal_constraint(), principal)?;
    let resource_slots = slot_types(alloc, schema, t.resource_constraint(), resource)?;
    for slot in &principal_slots {
        add_with_slot(envs, action, principal, resource, *slot, &resource_slots)?;
    }
    Ok(())
}

// Adds those with the type of what stands for the principal's slot.
fn add_with_slot<'a>(
    envs: &mut Vec<RequestEnv<'a>>,
    action: &'a ValidatorActionId,
    principal: &'a EntityType,
    resource: &'a EntityType,
    principal_slot: Option<&'a EntityType>,
    resource_slots: &Vec<Option<&'a EntityType>>,
) -> Result<(), AllocError>
    ensures { OnOk result (map env_data_of envs.new.items ≡ map env_data_of envs.old.items ++
        slot_envs action.now principal.now resource.now principal_slot.entry resource_slots.now.items) }
{
    for slot in resource_slots {
        envs.push(RequestEnv::DeclaredAction {
            principal,
            action: action.name(),
            resource,
            context: action.context(),
            principal_slot,
            resource_slot: *slot,
        })?;
    }
    Ok(())
}
