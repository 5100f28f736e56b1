//! Documents.

ghost use Rattle.json_trees.specs.Trees.{tree_view};
ghost use Rattle.json_document.specs.Faults.{MayComeTo};
ghost use Rattle.json_document.specs.Parts.{parts_view};
ghost use Rattle.json_document.specs.Reading.{IsRead, IsReadAs, IsReadBehindEdits, IsReadBehindPolicies, IsReadBehindRequest, IsReadBehindSchema, IsReadBehindStore, IsReadFrom};

use crate::edits::read_edits;
use crate::parts::{Parts, parts_of};
use crate::policies::read_policies;
use crate::request::request_in;
use crate::requests::read_requests;
use crate::schema::schema_in;
use crate::{DocumentFault, Edits, Place, Requests, Shape, read_store};
use entity_store::{Entities, Request};
use json_trees::{Scratch, Tree, read_tree};
use policy_set::{PolicySet, or_drop};
use schema_core::ValidatorSchema;
use std::alloc::Global;
use std::mem;

/// A schema, policies or edits to them, entities, and a request or several.
#[derive(Debug)]
pub struct Document {
    /// The schema.
    pub schema: ValidatorSchema,
    /// The policies.
    pub policies: PolicySet,
    /// The edits; none but in a document of edits.
    pub edits: Edits,
    /// The store of the entities.
    pub entities: Entities,
    /// The request; one without entries where none is given.
    pub request: Request,
    /// The requests; none but in a document for many.
    pub requests: Requests,
}

impl Drop for Document {
    fn drop(self) {
        let Document {
            schema,
            policies,
            edits,
            entities,
            request,
            requests,
        } = self;
        drop(schema);
        drop(policies);
        drop(edits);
        drop(entities);
        drop(request);
        drop(requests);
    }
}

fn with_requests(
    alloc: Global,
    parts: &mut Parts<'_>,
    schema: ValidatorSchema,
    policies: PolicySet,
    edits: Edits,
    entities: Entities,
    request: Request,
) -> Result<Document, DocumentFault>
    ensures { MayComeTo result
        (IsReadBehindRequest (parts_view parts.old) schema policies edits entities request) }
{
    let requests = or_drop!(
        read_requests(alloc, mem::replace(&mut parts.requests, Vec::new(alloc))),
        schema,
        policies,
        edits,
        entities,
        request
    );
    Ok(Document {
        schema,
        policies,
        edits,
        entities,
        request,
        requests,
    })
}

fn with_request(
    alloc: Global,
    parts: &mut Parts<'_>,
    schema: ValidatorSchema,
    policies: PolicySet,
    edits: Edits,
    entities: Entities,
) -> Result<Document, DocumentFault>
    ensures { MayComeTo result
        (IsReadBehindStore (parts_view parts.old) schema policies edits entities) }
{
    let request = request_in(alloc, parts.request.take());
    let Some(request) = or_drop!(request, schema, policies, edits, entities) else {
        drop(schema);
        drop(policies);
        drop(edits);
        drop(entities);
        return Err(DocumentFault::Place(Place::Request));
    };
    with_requests(alloc, parts, schema, policies, edits, entities, request)
}

fn with_entities(
    alloc: Global,
    parts: &mut Parts<'_>,
    schema: ValidatorSchema,
    policies: PolicySet,
    edits: Edits,
) -> Result<Document, DocumentFault>
    ensures { MayComeTo result (IsReadBehindEdits (parts_view parts.old) schema policies edits) }
{
    let entities = or_drop!(
        read_store(alloc, mem::replace(&mut parts.entities, Vec::new(alloc))),
        schema,
        policies,
        edits
    );
    with_request(alloc, parts, schema, policies, edits, entities)
}

fn with_edits(
    alloc: Global,
    parts: &mut Parts<'_>,
    schema: ValidatorSchema,
    policies: PolicySet,
) -> Result<Document, DocumentFault>
    ensures { MayComeTo result (IsReadBehindPolicies (parts_view parts.old) schema policies) }
{
    let edits = or_drop!(
        read_edits(alloc, mem::replace(&mut parts.edits, Vec::new(alloc))),
        schema,
        policies
    );
    with_entities(alloc, parts, schema, policies, edits)
}

fn with_policies(
    alloc: Global,
    parts: &mut Parts<'_>,
    schema: ValidatorSchema,
) -> Result<Document, DocumentFault>
    ensures { MayComeTo result (IsReadBehindSchema (parts_view parts.old) schema) }
{
    let policies = or_drop!(
        read_policies(alloc, mem::replace(&mut parts.policies, Vec::new(alloc))),
        schema
    );
    with_edits(alloc, parts, schema, policies)
}

fn read_parts(alloc: Global, parts: &mut Parts<'_>) -> Result<Document, DocumentFault>
    ensures { MayComeTo result (IsReadFrom (parts_view parts.old)) }
{
    let schema = schema_in(alloc, mem::replace(&mut parts.schema, Tree::Null))?;
    with_policies(alloc, parts, schema)
}

// The document of the shape that the tree is; else the place of its first fault.
#[tactic(auto, unfolding(crate::specs::Reading::IsRead))]
fn read_tree_as(alloc: Global, shape: Shape, tree: Tree<'_>) -> Result<Document, DocumentFault>
    ensures { MayComeTo result (IsRead shape (tree_view tree.entry)) }
{
    match parts_of(alloc, shape, tree) {
        Some(mut parts) => {
            let read = read_parts(alloc, &mut parts);
            drop(parts);
            read
        }
        None => Err(DocumentFault::Place(Place::Form)),
    }
}

/// The document of the shape that the bytes are; else the place of its first fault. The bytes are read once,
/// as a tree that borrows them. Policies, edits, entities and requests are read from their trees, each of which
/// is let go of once it is read; the schema alone is made a JSON value.
#[tactic(auto, unfolding(crate::specs::Reading::IsReadAs))]
pub fn read_document_as(
    alloc: Global,
    shape: Shape,
    bytes: &[u8],
) -> Result<Document, DocumentFault>
    ensures { MayComeTo result (IsReadAs shape bytes.now) }
{
    let mut scratch = Scratch::new(alloc);
    match read_tree(alloc, bytes, &mut scratch)? {
        Some(tree) => read_tree_as(alloc, shape, tree),
        None => Err(DocumentFault::Place(Place::Json)),
    }
}

/// The document with one request that the bytes are; else the place of its first fault.
pub fn read_document(alloc: Global, bytes: &[u8]) -> Result<Document, DocumentFault>
    ensures { MayComeTo result (IsReadAs Shape.Whole bytes.now) }
{
    read_document_as(alloc, Shape::Whole, bytes)
}
