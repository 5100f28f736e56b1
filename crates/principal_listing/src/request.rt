//! Requests without their principals.

ghost use Rattle.std.specs.Prelude.{◌≡◌, ◌↔◌, IsTrue, IfOk};
ghost use Rattle.principal_listing.specs.Allowed.{passed_over, IsWholeBut};

use entity_store::{Context, Request};
use policy_values::{EntityUID, try_clone_fields};
use std::alloc::{AllocError, Global};

/// Whether the entries but for the principal are known.
pub(crate) fn is_whole_but(request: &Request) -> bool
    ensures { IsTrue result ↔ IsWholeBut request.now }
{
    request.action.is_some() && request.resource.is_some() && request.context.is_some()
}

/// The request with the principal passed over.
pub(crate) fn without_principal(alloc: Global, request: &Request) -> Result<Request, AllocError>
    ensures { IfOk result (λ q. q ≡ passed_over request.now) }
{
    Ok(Request {
        principal: None,
        action: copy_of_id(&request.action)?,
        resource: copy_of_id(&request.resource)?,
        context: copy_of_context(alloc, &request.context)?,
    })
}

fn copy_of_id(uid: &Option<EntityUID>) -> Result<Option<EntityUID>, AllocError>
    ensures { IfOk result (λ o. o ≡ uid.now) }
{
    match uid {
        Some(uid) => Ok(Some(uid.try_clone()?)),
        None => Ok(None),
    }
}

fn copy_of_context(alloc: Global, context: &Option<Context>) -> Result<Option<Context>, AllocError>
    ensures { IfOk result (λ o. o ≡ context.now) }
{
    match context {
        Some(context) => Ok(Some(Context::new(try_clone_fields(alloc, context.fields())?))),
        None => Ok(None),
    }
}
