//! Why a request does not conform to a schema.

use entity_store::Context;
use findings::InvalidEnumEntityError;
use policy_values::{EntityType, EntityUID, Quoted, Text};
use std::alloc::AllocError;
use std::marker::Model;
use thiserror::Error;

/// The principal's type is not declared.
#[derive(Debug, Drop, Error)]
#[error("principal type `{principal_ty}` is not declared in the schema")]
pub struct UndeclaredPrincipalTypeError {
    /// The type of the request's principal.
    pub principal_ty: EntityType,
}

/// The resource's type is not declared.
#[derive(Debug, Drop, Error)]
#[error("resource type `{resource_ty}` is not declared in the schema")]
pub struct UndeclaredResourceTypeError {
    /// The type of the request's resource.
    pub resource_ty: EntityType,
}

/// The action is not declared.
#[derive(Debug, Drop, Error)]
#[error("request's action `{action}` is not declared in the schema")]
pub struct UndeclaredActionError {
    /// The request's action.
    pub action: EntityUID,
}

/// The action does not apply to principals of this type.
#[derive(Debug, Drop, Error)]
#[error("principal type `{principal_ty}` is not valid for `{action}`")]
pub struct InvalidPrincipalTypeError {
    /// The type of the request's principal.
    pub principal_ty: EntityType,
    /// The request's action.
    pub action: EntityUID,
    /// The types of principals to which the action applies, ascending.
    pub valid_principal_tys: Vec<EntityType>,
}

impl Model for InvalidPrincipalTypeError {
    ghost use Rattle.conformance.specs.InvalidTypes.{InvalidPrincipalType, coded_principal_type};

    ghost Value = { InvalidPrincipalType };

    ghost coded = { coded_principal_type };

    ghost view = { λ e. record {
      principal_ty = e.principal_ty;
      action = e.action;
      valid_principal_tys = e.valid_principal_tys.items;
    } };
}

/// The action does not apply to resources of this type.
#[derive(Debug, Drop, Error)]
#[error("resource type `{resource_ty}` is not valid for `{action}`")]
pub struct InvalidResourceTypeError {
    /// The type of the request's resource.
    pub resource_ty: EntityType,
    /// The request's action.
    pub action: EntityUID,
    /// The types of resources to which the action applies, ascending.
    pub valid_resource_tys: Vec<EntityType>,
}

impl Model for InvalidResourceTypeError {
    ghost use Rattle.conformance.specs.InvalidTypes.{InvalidResourceType, coded_resource_type};

    ghost Value = { InvalidResourceType };

    ghost coded = { coded_resource_type };

    ghost view = { λ e. record {
      resource_ty = e.resource_ty;
      action = e.action;
      valid_resource_tys = e.valid_resource_tys.items;
    } };
}

/// The context is not of the type that the action declares.
#[derive(Debug, Drop, Error)]
#[error("context is not valid for `{action}`")]
pub struct InvalidContextError {
    /// The request's context.
    pub context: Context,
    /// The request's action.
    pub action: EntityUID,
}

/// The first rule that a request breaks.
#[derive(Debug, Drop, Error)]
pub enum RequestValidationError {
    /// The action is not declared.
    #[error(transparent)]
    UndeclaredAction(UndeclaredActionError),
    /// The principal's type is not declared.
    #[error(transparent)]
    UndeclaredPrincipalType(UndeclaredPrincipalTypeError),
    /// The resource's type is not declared.
    #[error(transparent)]
    UndeclaredResourceType(UndeclaredResourceTypeError),
    /// The action does not apply to principals of this type.
    #[error(transparent)]
    InvalidPrincipalType(InvalidPrincipalTypeError),
    /// The action does not apply to resources of this type.
    #[error(transparent)]
    InvalidResourceType(InvalidResourceTypeError),
    /// An enumerated type does not list an id: of the principal, the resource, or in the context.
    #[error("entity `{}` is of an enumerated entity type, but `\"{}\"` is not declared as a valid eid", .0.uid, Quoted(.0.uid.eid.as_text()))]
    InvalidEnumEntity(InvalidEnumEntityError),
    /// The context is not of the type that the action declares.
    #[error(transparent)]
    InvalidContext(InvalidContextError),
    /// The context holds a value of an extension whose function, of this name, is not there.
    #[error("context is not valid: extension function `{0}` does not exist")]
    TypeOfContext(Text),
    /// There was no memory to say which rule is broken.
    #[error("out of memory")]
    OutOfMemory,
}

impl From<AllocError> for RequestValidationError {
    ghost use Rattle.std.specs.Prelude.{◌≡◌};
    ghost use Rattle.conformance.specs.declared.request_error.RequestValidationError.TheVariants.{OutOfMemory};

    ghost from_gives = { λ _ e. e ≡ OutOfMemory };

    fn from(_error: AllocError) -> RequestValidationError {
        RequestValidationError::OutOfMemory
    }
}
