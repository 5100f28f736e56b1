//! How it is written that a request or a store does not conform.

ghost use Rattle.std.specs.Prelude.{◌≡◌, ◌++◌, IfOk, OnOk, None, codes, string_bytes};
ghost use Rattle.policy_values.specs.Value.{rec};
ghost use Rattle.conformance.specs.ValueText.{value_text};
ghost use Rattle.conformance.specs.Written.{id_text, request_message, request_help, valid_types, further_types, request_text, entity_text};

use crate::value_text::write_record;
use crate::{EntityDoesNotConform, InvalidContextError, RequestValidationError};
use finding_messages::{Diagnostic, add_help};
use policy_expressions::Loc;
use policy_values::{EntityType, EntityUID, Text};
use std::alloc::{AllocError, Global};
use std::fmt::Write;

impl Diagnostic for RequestValidationError {
    ghost message_text = { request_message };

    ghost help_text = { request_help };

    ghost place = { λ _. None };

    fn message(&self, alloc: Global) -> Result<Text, AllocError> {
        match self {
            RequestValidationError::UndeclaredAction(e) => {
                let uid = &e.action;
                let text = format!(in alloc;
                    "request's action `{uid}` is not declared in the schema"
                )?;
                Text::from_string(text)
            }
            RequestValidationError::UndeclaredPrincipalType(e) => {
                let ty = &e.principal_ty;
                let text = format!(in alloc;
                    "principal type `{ty}` is not declared in the schema"
                )?;
                Text::from_string(text)
            }
            RequestValidationError::UndeclaredResourceType(e) => {
                let ty = &e.resource_ty;
                let text = format!(in alloc; "resource type `{ty}` is not declared in the schema")?;
                Text::from_string(text)
            }
            RequestValidationError::InvalidPrincipalType(e) => {
                let ty = &e.principal_ty;
                let uid = &e.action;
                let text = format!(in alloc; "principal type `{ty}` is not valid for `{uid}`")?;
                Text::from_string(text)
            }
            RequestValidationError::InvalidResourceType(e) => {
                let ty = &e.resource_ty;
                let uid = &e.action;
                let text = format!(in alloc; "resource type `{ty}` is not valid for `{uid}`")?;
                Text::from_string(text)
            }
            RequestValidationError::InvalidEnumEntity(e) => e.message(alloc),
            RequestValidationError::InvalidContext(e) => context_message(alloc, e),
            RequestValidationError::TypeOfContext(function) => {
                let text = format!(in alloc;
                    "context is not valid: extension function `{function}` does not exist"
                )?;
                Text::from_string(text)
            }
            RequestValidationError::OutOfMemory => Text::from_str(alloc, "out of memory"),
        }
    }

    fn help(&self, alloc: Global) -> Result<Option<Text>, AllocError> {
        match self {
            RequestValidationError::InvalidPrincipalType(e) => {
                let types = valid_types(alloc, "principal", &e.action, &e.valid_principal_tys)?;
                Ok(Some(types))
            }
            RequestValidationError::InvalidResourceType(e) => {
                let types = valid_types(alloc, "resource", &e.action, &e.valid_resource_tys)?;
                Ok(Some(types))
            }
            RequestValidationError::InvalidEnumEntity(e) => e.help(alloc),
            _ => Ok(None),
        }
    }

    fn location(&self) -> Option<Loc> {
        None
    }
}

// The context, which is not valid for the action.
fn context_message(alloc: Global, error: &InvalidContextError) -> Result<Text, AllocError>
    ensures { IfOk result (λ text. text ≡ codes "context `" ++
        (value_text (rec error.now.context) ++
        (codes "` is not valid for `" ++ (id_text error.now.action ++ codes "`")))) }
{
    let mut text = String::from_str(alloc, "context `")?;
    write_record(alloc, &mut text, error.context.fields())?;
    let uid = &error.action;
    write!(text, "` is not valid for `{uid}`")?;
    Text::from_string(text)
}

// The types of principals, or of resources, to which the action applies.
fn valid_types(
    alloc: Global,
    side: &str,
    action: &EntityUID,
    types: &[EntityType],
) -> Result<Text, AllocError>
    ensures { IfOk result (λ text. text ≡ valid_types side.now action.now types.now) }
{
    match types {
        [] => {
            let text = format!(in alloc; "no {side} types are valid for `{action}`")?;
            Text::from_string(text)
        }
        [first, others @ ..] => {
            let mut text = format!(in alloc; "valid {side} types for `{action}`: `{first}`")?;
            add_types(&mut text, others)?;
            Text::from_string(text)
        }
    }
}

// Adds the types behind the first.
fn add_types(text: &mut String, types: &[EntityType]) -> Result<(), AllocError>
    ensures { OnOk result (string_bytes text.new ≡ string_bytes text.old ++ further_types types.now) }
{
    for ty in types {
        write!(text, ", `{ty}`")?;
    }
    Ok(())
}

/// The rule that the request breaks, behind `request: `, with a further line where something may help.
pub fn request_text(alloc: Global, error: &RequestValidationError) -> Result<Text, AllocError>
    ensures { IfOk result (λ text. text ≡ request_text error.now) }
{
    let message = error.message(alloc)?;
    let help = error.help(alloc)?;
    let mut text = format!(in alloc; "request: {message}\n")?;
    add_help(&mut text, &help)?;
    Text::from_string(text)
}

/// The entity and the rule that it breaks, behind `entity: `.
pub fn entity_text(alloc: Global, error: &EntityDoesNotConform) -> Result<Text, AllocError>
    ensures { IfOk result (λ text. text ≡ entity_text error.now) }
{
    let uid = &error.uid;
    let rule = &error.rule;
    let text = format!(in alloc; "entity: {uid}: {rule}\n")?;
    Text::from_string(text)
}
