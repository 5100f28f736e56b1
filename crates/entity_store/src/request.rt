//! Requests.

ghost use Rattle.std.specs.Prelude.{◌≡◌, ◌↔◌, IfOk, IsTrue};
ghost use Rattle.entity_store.specs.Request.{IsWhole, request_type_of};

use crate::Context;
use policy_values::{EntityType, EntityUID, Key};
use std::alloc::AllocError;

/// A question: may this principal do this action on this resource, in this context? An entry that is none is
/// not known.
#[derive(Debug)]
pub struct Request {
    /// Who asks.
    pub principal: Option<EntityUID>,
    /// What is asked for.
    pub action: Option<EntityUID>,
    /// On what it would act.
    pub resource: Option<EntityUID>,
    /// What else is said.
    pub context: Option<Context>,
}

impl Drop for Request {
    fn drop(self) {
        let Request {
            principal,
            action,
            resource,
            context,
        } = self;
        drop(principal);
        drop(action);
        drop(resource);
        drop(context);
    }
}

/// What a request is about, without its eids: the principal's type, the action and the resource's type.
/// Request types are ordered by their actions, then by their principals and then by their resources.
#[derive(Clone, Debug, Drop, PartialEq, Eq, PartialOrd, Ord, Hash)]
pub struct RequestType {
    /// The action.
    pub action: EntityUID,
    /// The type of the principal.
    pub principal: EntityType,
    /// The type of the resource.
    pub resource: EntityType,
}

impl RequestType {
    /// An equal request type, which shares the characters.
    pub fn try_clone(&self) -> Result<RequestType, AllocError>
        ensures { IfOk result (λ t. t ≡ self.now) }
    {
        Ok(RequestType {
            action: self.action.try_clone()?,
            principal: self.principal.try_clone()?,
            resource: self.resource.try_clone()?,
        })
    }
}

// Their order computes to the one of these clauses.
impl Key for RequestType {
    ghost use Rattle.entity_store.specs.Request.{exact_request_type, copied_request_type};

    ghost exact = { exact_request_type };

    ghost copies = { copied_request_type };
}

impl Request {
    /// Whether all four entries are known.
    pub fn is_whole(&self) -> bool
        ensures { IsTrue result ↔ IsWhole self.now }
    {
        self.principal.is_some()
            && self.action.is_some()
            && self.resource.is_some()
            && self.context.is_some()
    }

    /// The type of the request; none exactly where its principal, its action or its resource is not known.
    pub fn request_type(&self) -> Result<Option<RequestType>, AllocError>
        ensures { IfOk result (λ t. t ≡ request_type_of self.now) }
    {
        match (&self.principal, &self.action, &self.resource) {
            (Some(principal), Some(action), Some(resource)) => Ok(Some(RequestType {
                action: action.try_clone()?,
                principal: principal.entity_type.try_clone()?,
                resource: resource.entity_type.try_clone()?,
            })),
            _ => Ok(None),
        }
    }
}
