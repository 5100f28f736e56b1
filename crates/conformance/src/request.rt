//! The rules of requests.

ghost use Rattle.std.specs.Prelude.{◌≡◌, None, IfOk};
ghost use Rattle.std.specs.Option.{option_and_then, option_or, option_map};
ghost use Rattle.policy_values.specs.Value.{fields_of, rec};
ghost use Rattle.schema_types.specs.Ty.{record_of};
ghost use Rattle.schema_types.specs.declared.kinds.OpenTag.TheVariants.{ClosedAttributes};
ghost use Rattle.conformance.specs.Ids.{unlisted_in_fields};
ghost use Rattle.conformance.specs.Misfits.{knows, misfit};
ghost use Rattle.conformance.specs.RequestRules.{IsRequestAnswer, first_request_fault, listed_fault, principal_fault, resource_fault, action_fault, principal_type_fault, resource_type_fault, context_fault, context_error};

use crate::ids::{choices_without, unlisted, unlisted_in_fields};
use crate::misfits::{Misfit, record_misfit};
use crate::{
    InvalidContextError, InvalidPrincipalTypeError, InvalidResourceTypeError,
    RequestValidationError, UndeclaredActionError, UndeclaredPrincipalTypeError,
    UndeclaredResourceTypeError,
};
use entity_store::{Context, Request};
use policy_values::{EntityType, EntityUID, Text, try_clone_fields};
use schema_core::{OpenTag, ValidatorActionId, ValidatorSchema};
use std::alloc::{AllocError, Global};
use std::collections::BTreeSet;
use typing_spec::ExtensionSchemas;

/// Whether the request conforms to the schema: its principal's and its resource's types are declared, and
/// list them where they are enumerated; its action is declared and applies to both types; each id in its
/// context is listed, where its type is enumerated, and the context is of the type that the action declares.
/// Entries that are not known are passed over; where the action is not known, nothing is asked of it.
///
/// Errs with the first rule that is broken, in this order. Of what is wrong with the context as a whole, that
/// comes which stands first in the order of keys and elements: where it is a value of an extension whose
/// function is not among the extensions, at a place of an extension's type, then `TypeOfContext` with the
/// function's name; else `InvalidContext`. A request that conforms takes no memory.
pub fn validate_request(
    alloc: Global,
    schema: &ValidatorSchema,
    request: &Request,
    extensions: &ExtensionSchemas<'_>,
) -> Result<(), RequestValidationError>
    ensures { IsRequestAnswer
        (first_request_fault schema.now (knows extensions.now) request.now) result }
{
    if let Some(principal) = &request.principal {
        check_principal(alloc, schema, principal)?;
    }
    if let Some(resource) = &request.resource {
        check_resource(alloc, schema, resource)?;
    }
    match &request.action {
        Some(action) => check_action(alloc, schema, request, action, extensions),
        None => Ok(()),
    }
}

// Whether the id is listed, where its type is enumerated.
fn check_listed(
    alloc: Global,
    schema: &ValidatorSchema,
    uid: &EntityUID,
) -> Result<(), RequestValidationError>
    ensures { IsRequestAnswer (listed_fault schema.now uid.now) result }
{
    match choices_without(schema, uid) {
        Some(choices) => {
            let error = unlisted(alloc, uid, choices)?;
            Err(RequestValidationError::InvalidEnumEntity(error))
        }
        None => Ok(()),
    }
}

// Whether the principal's type is declared, and lists it.
fn check_principal(
    alloc: Global,
    schema: &ValidatorSchema,
    principal: &EntityUID,
) -> Result<(), RequestValidationError>
    ensures { IsRequestAnswer (principal_fault schema.now principal.now) result }
{
    if schema.get_entity_type(&principal.entity_type).is_some() {
        return check_listed(alloc, schema, principal);
    }
    let principal_ty = principal.entity_type.try_clone()?;
    Err(RequestValidationError::UndeclaredPrincipalType(UndeclaredPrincipalTypeError {
        principal_ty,
    }))
}

// Whether the resource's type is declared, and lists it.
fn check_resource(
    alloc: Global,
    schema: &ValidatorSchema,
    resource: &EntityUID,
) -> Result<(), RequestValidationError>
    ensures { IsRequestAnswer (resource_fault schema.now resource.now) result }
{
    if schema.get_entity_type(&resource.entity_type).is_some() {
        return check_listed(alloc, schema, resource);
    }
    let resource_ty = resource.entity_type.try_clone()?;
    Err(RequestValidationError::UndeclaredResourceType(UndeclaredResourceTypeError { resource_ty }))
}

// Whether the action is declared, applies to the principal's type and to the resource's type, and takes the
// context.
fn check_action(
    alloc: Global,
    schema: &ValidatorSchema,
    request: &Request,
    action: &EntityUID,
    extensions: &ExtensionSchemas<'_>,
) -> Result<(), RequestValidationError>
    ensures { IsRequestAnswer
        (action_fault schema.now (knows extensions.now) request.now action.now) result }
{
    let Some(declared) = schema.get_action_id(action) else {
        let action = action.try_clone()?;
        return Err(RequestValidationError::UndeclaredAction(UndeclaredActionError { action }));
    };
    if let Some(principal) = &request.principal {
        check_principal_type(alloc, declared, principal)?;
    }
    if let Some(resource) = &request.resource {
        check_resource_type(alloc, declared, resource)?;
    }
    match &request.context {
        Some(context) => check_context(alloc, schema, declared, context, extensions),
        None => Ok(()),
    }
}

// Whether the action applies to the principal's type.
fn check_principal_type(
    alloc: Global,
    action: &ValidatorActionId,
    principal: &EntityUID,
) -> Result<(), RequestValidationError>
    ensures { IsRequestAnswer (principal_type_fault action.now principal.now) result }
{
    if action
        .applies_to_principals()
        .contains(&principal.entity_type)
    {
        return Ok(());
    }
    let principal_ty = principal.entity_type.try_clone()?;
    let valid_principal_tys = types_of(alloc, action.applies_to_principals())?;
    let action = action.name().try_clone()?;
    Err(RequestValidationError::InvalidPrincipalType(InvalidPrincipalTypeError {
        principal_ty,
        action,
        valid_principal_tys,
    }))
}

// Whether the action applies to the resource's type.
fn check_resource_type(
    alloc: Global,
    action: &ValidatorActionId,
    resource: &EntityUID,
) -> Result<(), RequestValidationError>
    ensures { IsRequestAnswer (resource_type_fault action.now resource.now) result }
{
    if action
        .applies_to_resources()
        .contains(&resource.entity_type)
    {
        return Ok(());
    }
    let resource_ty = resource.entity_type.try_clone()?;
    let valid_resource_tys = types_of(alloc, action.applies_to_resources())?;
    let action = action.name().try_clone()?;
    Err(RequestValidationError::InvalidResourceType(InvalidResourceTypeError {
        resource_ty,
        action,
        valid_resource_tys,
    }))
}

// The types of a set, ascending.
fn types_of(alloc: Global, set: &BTreeSet<EntityType>) -> Result<Vec<EntityType>, AllocError>
    ensures { IfOk result (λ types. types.items ≡ set.now.keys) }
{
    let mut types = Vec::new(alloc);
    for ty in set {
        types.push(ty.try_clone()?)?;
    }
    Ok(types)
}

// Whether the ids in the context are listed, and the context is of the action's.
fn check_context(
    alloc: Global,
    schema: &ValidatorSchema,
    action: &ValidatorActionId,
    context: &Context,
    extensions: &ExtensionSchemas<'_>,
) -> Result<(), RequestValidationError>
    ensures { IsRequestAnswer
        (context_fault schema.now (knows extensions.now) action.now context.now) result }
{
    check_ids(alloc, schema, context)?;
    check_type(alloc, action, context, extensions)
}

fn check_ids(
    alloc: Global,
    schema: &ValidatorSchema,
    context: &Context,
) -> Result<(), RequestValidationError>
    ensures { IsRequestAnswer
        (option_and_then (listed_fault schema.now)
        (unlisted_in_fields schema.now context.now)) result }
{
    match unlisted_in_fields(schema, context.fields()) {
        Some(uid) => check_listed(alloc, schema, uid),
        None => Ok(()),
    }
}

fn check_type(
    alloc: Global,
    action: &ValidatorActionId,
    context: &Context,
    extensions: &ExtensionSchemas<'_>,
) -> Result<(), RequestValidationError>
    ensures { IsRequestAnswer
        (option_map (context_error action.now context.now)
        (misfit (knows extensions.now) (record_of action.now.context ClosedAttributes)
        (rec context.now))) result }
{
    let tag = OpenTag::ClosedAttributes;
    match record_misfit(extensions, action.context(), tag, context.fields()) {
        Some(found) => Err(context_error(alloc, action, context, found)?),
        None => Ok(()),
    }
}

// What is said of a context with which this is wrong.
fn context_error(
    alloc: Global,
    action: &ValidatorActionId,
    context: &Context,
    found: Misfit,
) -> Result<RequestValidationError, AllocError>
    ensures { IfOk result (λ e. e ≡ context_error action.now context.now found) }
{
    match found {
        Misfit::Lacks(function) => Ok(RequestValidationError::TypeOfContext(Text::from_str(
            alloc,
            function.name(),
        )?)),
        Misfit::Other => {
            let context = copy_of(alloc, context)?;
            let action = action.name().try_clone()?;
            Ok(RequestValidationError::InvalidContext(InvalidContextError { context, action }))
        }
    }
}

fn copy_of(alloc: Global, context: &Context) -> Result<Context, AllocError>
    ensures { IfOk result (λ c. c ≡ context.now) }
{
    Ok(Context::new(try_clone_fields(alloc, context.fields())?))
}
