//! Where the entries of a manifest do not fit a schema.

ghost use Rattle.std.specs.Prelude.{◌≡◌, IfOk};
ghost use Rattle.manifest_core.specs.Placed.{address_fault, places_fault, entries_fault};
ghost use Rattle.schema_types.specs.Ty.{never};

use crate::error::MismatchedEntityManifestError;
use crate::listing::Entry;
use crate::types::{edge_fault, type_behind};
use access_tries::Edge;
use entity_store::RequestType;
use json_tries::Place;
use schema_core::ValidatorSchema;
use schema_types::Type;
use std::alloc::{AllocError, Global};

/// What is wrong first with entries, in their order.
pub(crate) fn entries_fault(
    alloc: Global,
    schema: &ValidatorSchema,
    entries: &[Entry],
) -> Result<Option<MismatchedEntityManifestError>, AllocError>
    ensures { IfOk result (λ o. o ≡ entries_fault schema.now entries.now) }
{
    for entry in entries {
        if let Some(fault) = places_fault(alloc, schema, entry.request_type(), entry.places())? {
            return Ok(Some(fault));
        }
    }
    Ok(None)
}

// What is wrong first with places of a trie.
fn places_fault(
    alloc: Global,
    schema: &ValidatorSchema,
    request_type: &RequestType,
    places: &[Place],
) -> Result<Option<MismatchedEntityManifestError>, AllocError>
    ensures { IfOk result (λ o. o ≡ places_fault schema.now request_type.now never places.now) }
{
    for place in places {
        if let Some(fault) = place_fault(alloc, schema, request_type, place)? {
            return Ok(Some(fault));
        }
    }
    Ok(None)
}

fn place_fault(
    alloc: Global,
    schema: &ValidatorSchema,
    request_type: &RequestType,
    place: &Place,
) -> Result<Option<MismatchedEntityManifestError>, AllocError>
    ensures { IfOk result (λ o. o ≡ address_fault schema.now request_type.now never place.now.0) }
{
    let t = Type::never();
    let fault = address_fault(alloc, schema, request_type, &t, place.edges());
    drop(t);
    fault
}

// What is wrong first along edges, from a value of the type.
fn address_fault(
    alloc: Global,
    schema: &ValidatorSchema,
    request_type: &RequestType,
    t: &Type,
    edges: &[Edge],
) -> Result<Option<MismatchedEntityManifestError>, AllocError>
    ensures { IfOk result (λ o. o ≡ address_fault schema.now request_type.now t.now edges.now) }
{
    let [first, rest @ ..] = edges else {
        return Ok(None);
    };
    if let Some(fault) = edge_fault(schema, request_type, t, first)? {
        return Ok(Some(fault));
    }
    let Some(behind) = type_behind(alloc, schema, request_type, t, first)? else {
        return Ok(None);
    };
    let fault = address_fault(alloc, schema, request_type, &behind, rest);
    drop(behind);
    fault
}
