//! Environments of requests.

ghost use Rattle.std.specs.Prelude.{◌≡◌, ◌++◌, ◌∷◌, [], map, IfOk, OnOk};
ghost use Rattle.std.specs.Option.{option_copied};
ghost use Rattle.schema_core.specs.Environments.{environments_at};
ghost use Rattle.schema_types.specs.Ty.{entity};
ghost use Rattle.schema_core.specs.EnvData.{principal_in, action_in, resource_in, request_type_in, principal_type_in, action_type_in, resource_type_in, context_type_in, principal_slot_in, resource_slot_in, unlinked, unlinked_of};
ghost use Rattle.schema_core.specs.RequestEnvs.{env_data_of};

use crate::{ValidatorActionId, ValidatorSchema, euid_literal};
use entity_store::RequestType;
use policy_values::{EntityType, EntityUID};
use schema_types::{Attributes, OpenTag, Type};
use std::alloc::{AllocError, Global};

/// An environment of requests: what types a request's principal, action, resource and context have.
#[derive(Clone, Copy, Debug, PartialEq, Eq)]
pub enum RequestEnv<'a> {
    /// The action is declared.
    DeclaredAction {
        /// The type of the principal.
        principal: &'a EntityType,
        /// The action.
        action: &'a EntityUID,
        /// The type of the resource.
        resource: &'a EntityType,
        /// The attributes of the context. It has no others.
        context: &'a Attributes,
        /// The type of what stands for the principal's slot, if there is such a slot.
        principal_slot: Option<&'a EntityType>,
        /// The type of what stands for the resource's slot, if there is such a slot.
        resource_slot: Option<&'a EntityType>,
    },
    /// Nothing is known of the action, and so of the request.
    UndeclaredAction,
}

impl<'a> RequestEnv<'a> {
    /// The types of a request's principal and resource, and its action; none exactly where the action is not
    /// declared.
    pub fn to_request_type(&self) -> Result<Option<RequestType>, AllocError>
        ensures { IfOk result (λ t. t ≡ request_type_in (env_data_of self.now)) }
    {
        match self {
            RequestEnv::DeclaredAction {
                principal,
                action,
                resource,
                ..
            } => Ok(Some(RequestType {
                principal: principal.try_clone()?,
                action: action.try_clone()?,
                resource: resource.try_clone()?,
            })),
            RequestEnv::UndeclaredAction => Ok(None),
        }
    }

    /// The entity type of the principal; none exactly where the action is not declared.
    pub fn principal_entity_type(&self) -> Option<&'a EntityType>
        ensures { option_copied result ≡ principal_in (env_data_of self.now) }
    {
        match self {
            RequestEnv::DeclaredAction { principal, .. } => Some(principal),
            RequestEnv::UndeclaredAction => None,
        }
    }

    /// The type of the principal; that of all entities, where the action is not declared.
    pub fn principal_type(&self, alloc: Global) -> Result<Type, AllocError>
        ensures { IfOk result (λ t. t ≡ principal_type_in (env_data_of self.now)) }
    {
        match self {
            RequestEnv::DeclaredAction { principal, .. } => entities_of(alloc, principal),
            RequestEnv::UndeclaredAction => Ok(Type::any_entity_reference()),
        }
    }

    /// The action; none exactly where it is not declared.
    pub fn action_entity_uid(&self) -> Option<&'a EntityUID>
        ensures { option_copied result ≡ action_in (env_data_of self.now) }
    {
        match self {
            RequestEnv::DeclaredAction { action, .. } => Some(action),
            RequestEnv::UndeclaredAction => None,
        }
    }

    /// The type of the action, none where the schema does not declare its id; that of all entities, where the
    /// action is not declared.
    pub fn action_type(
        &self,
        alloc: Global,
        schema: &ValidatorSchema,
    ) -> Result<Option<Type>, AllocError>
        ensures { IfOk result (λ t. t ≡ action_type_in schema.now (env_data_of self.now)) }
    {
        match self {
            RequestEnv::DeclaredAction { action, .. } => euid_literal(alloc, action, schema),
            RequestEnv::UndeclaredAction => Ok(Some(Type::any_entity_reference())),
        }
    }

    /// The entity type of the resource; none exactly where the action is not declared.
    pub fn resource_entity_type(&self) -> Option<&'a EntityType>
        ensures { option_copied result ≡ resource_in (env_data_of self.now) }
    {
        match self {
            RequestEnv::DeclaredAction { resource, .. } => Some(resource),
            RequestEnv::UndeclaredAction => None,
        }
    }

    /// The type of the resource; that of all entities, where the action is not declared.
    pub fn resource_type(&self, alloc: Global) -> Result<Type, AllocError>
        ensures { IfOk result (λ t. t ≡ resource_type_in (env_data_of self.now)) }
    {
        match self {
            RequestEnv::DeclaredAction { resource, .. } => entities_of(alloc, resource),
            RequestEnv::UndeclaredAction => Ok(Type::any_entity_reference()),
        }
    }

    /// The type of the context: records with its attributes and no others; that of all records, where the
    /// action is not declared.
    pub fn context_type(&self, alloc: Global) -> Result<Type, AllocError>
        ensures { IfOk result (λ t. t ≡ context_type_in (env_data_of self.now)) }
    {
        match self {
            RequestEnv::DeclaredAction { context, .. } => {
                let attrs = context.try_clone()?;
                Ok(Type::record(attrs, OpenTag::ClosedAttributes))
            }
            RequestEnv::UndeclaredAction => Type::any_record(alloc),
        }
    }

    /// The type of what stands for the principal's slot; none where there is no such slot or the action is
    /// not declared.
    pub fn principal_slot(&self) -> Option<&'a EntityType>
        ensures { option_copied result ≡ principal_slot_in (env_data_of self.now) }
    {
        match self {
            RequestEnv::DeclaredAction { principal_slot, .. } => *principal_slot,
            RequestEnv::UndeclaredAction => None,
        }
    }

    /// The type of what stands for the resource's slot; none where there is no such slot or the action is not
    /// declared.
    pub fn resource_slot(&self) -> Option<&'a EntityType>
        ensures { option_copied result ≡ resource_slot_in (env_data_of self.now) }
    {
        match self {
            RequestEnv::DeclaredAction { resource_slot, .. } => *resource_slot,
            RequestEnv::UndeclaredAction => None,
        }
    }
}

// The type of the entities of an entity type.
fn entities_of(alloc: Global, name: &EntityType) -> Result<Type, AllocError>
    ensures { IfOk result (λ t. t ≡ entity (name.now ∷ [])) }
{
    let name = name.try_clone()?;
    Type::named_entity_reference(alloc, name)
}

/// Adds the environments of an action, without slots.
pub fn add_environments<'a>(
    envs: &mut Vec<RequestEnv<'a>>,
    action: &'a ValidatorActionId,
) -> Result<(), AllocError>
    ensures { OnOk result (map env_data_of envs.new.items ≡
        map env_data_of envs.old.items ++ unlinked_of action.now) }
{
    for principal in action.applies_to_principals() {
        add_resources(envs, action, principal)?;
    }
    Ok(())
}

// Adds those with the principal type.
fn add_resources<'a>(
    envs: &mut Vec<RequestEnv<'a>>,
    action: &'a ValidatorActionId,
    principal: &'a EntityType,
) -> Result<(), AllocError>
    ensures { OnOk result (map env_data_of envs.new.items ≡ map env_data_of envs.old.items ++
        map (unlinked action.now) (environments_at action.now principal.now)) }
{
    for resource in action.applies_to_resources() {
        envs.push(RequestEnv::DeclaredAction {
            principal,
            action: action.name(),
            resource,
            context: action.context(),
            principal_slot: None,
            resource_slot: None,
        })?;
    }
    Ok(())
}
