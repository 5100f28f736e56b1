//! Where a trie does not fit a schema.

ghost use Rattle.std.specs.Prelude.{◌≡◌, ◌<◌, IfOk, length};
ghost use Rattle.std.specs.Option.{option_and_then};
ghost use Rattle.access_tries.specs.Table.{IsClosed, links_at};
ghost use Rattle.access_tries.specs.Trees.{branches_by, branch_at};
ghost use Rattle.manifest_core.specs.Mismatches.{type_behind, first_fault, first_among, trie_fault, first_mismatch};

use crate::error::MismatchedEntityManifestError;
use crate::types::{edge_fault, type_behind};
use access_tries::{Link, Node, RootAccessTrie, links_of};
use entity_store::RequestType;
use schema_core::ValidatorSchema;
use schema_types::Type;
use std::alloc::{AllocError, Global};
use std::collections::BTreeMap;

/// What is wrong first with the tries of a manifest.
pub(crate) fn first_mismatch(
    alloc: Global,
    schema: &ValidatorSchema,
    per_action: &BTreeMap<RequestType, RootAccessTrie>,
) -> Result<Option<MismatchedEntityManifestError>, AllocError>
    ensures { IfOk result (λ o. o ≡ first_mismatch schema.now per_action.now.entries) }
{
    for (request_type, trie) in per_action.iter() {
        if let Some(mismatch) = trie_fault(alloc, schema, request_type, trie.nodes())? {
            return Ok(Some(mismatch));
        }
    }
    Ok(None)
}

// What is wrong first with a trie; what leads to its roots is no value.
fn trie_fault(
    alloc: Global,
    schema: &ValidatorSchema,
    request_type: &RequestType,
    nodes: &[Node],
) -> Result<Option<MismatchedEntityManifestError>, AllocError>
    requires { IsClosed 0 nodes.now }
    ensures { IfOk result (λ o. o ≡ trie_fault schema.now request_type.now nodes.now) }
{
    let t = Type::never();
    let fault = first_below(alloc, schema, request_type, &t, nodes, 0);
    drop(t);
    fault
}

/// What is wrong first below a node, whose value is of the type.
#[cycle(faults)]
pub(crate) fn first_below(
    alloc: Global,
    schema: &ValidatorSchema,
    request_type: &RequestType,
    t: &Type,
    nodes: &[Node],
    number: usize,
) -> Result<Option<MismatchedEntityManifestError>, AllocError>
    requires { IsClosed 0 nodes.now }
    ensures { IfOk result (λ o. o ≡
        first_among schema.now request_type.now t.now
        (branches_by (branch_at nodes.now) (links_at nodes.now number))) }
{
    for link in links_of(nodes, number) {
        if let Some(fault) = edge_fault(schema, request_type, t, &link.edge)? {
            return Ok(Some(fault));
        }
        if let Some(fault) = first_behind(alloc, schema, request_type, t, nodes, link)? {
            return Ok(Some(fault));
        }
    }
    Ok(None)
}

// What is wrong first behind a link from a value of the type.
#[cycle(faults)]
fn first_behind(
    alloc: Global,
    schema: &ValidatorSchema,
    request_type: &RequestType,
    t: &Type,
    nodes: &[Node],
    link: &Link,
) -> Result<Option<MismatchedEntityManifestError>, AllocError>
    requires closed { IsClosed 0 nodes.now }
    requires within { link.now.number < length nodes.now }
    ensures { IfOk result (λ o. o ≡
        option_and_then (λ u.
        first_fault schema.now request_type.now u (branch_at nodes.now link.now.number))
        (type_behind schema.now request_type.now t.now link.now.edge)) }
{
    match type_behind(alloc, schema, request_type, t, &link.edge)? {
        Some(behind) => {
            let fault = first_below(alloc, schema, request_type, &behind, nodes, link.number);
            drop(behind);
            fault
        }
        None => Ok(None),
    }
}
