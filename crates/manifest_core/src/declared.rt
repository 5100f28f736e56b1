//! What of a trie a schema declares.

ghost use Rattle.std.specs.Prelude.{◌≡◌, ◌<◌, ◌&&◌, ◌++◌, ◌∷◌, [], IfOk, OnOk, length, is_some};
ghost use Rattle.std.specs.BTreeMap.{keys};
ghost use Rattle.access_tries.specs.Edges.{Address};
ghost use Rattle.access_tries.specs.Table.{IsTable, IsClosed, IsTableOrdered, at_path, has_mark};
ghost use Rattle.access_tries.specs.Walks.{Keeps};
ghost use Rattle.manifest_core.specs.Manifest.{IsNextType};
ghost use Rattle.manifest_core.specs.Mismatches.{is_declared_address, KeepsDeclared, AreTyped};

use crate::types::type_behind;
use access_tries::{Link, Node, RootAccessTrie, links_of, mark_of};
use entity_store::RequestType;
use schema_core::ValidatorSchema;
use schema_types::Type;
use std::alloc::{AllocError, Global};
use std::collections::BTreeMap;

/// The tries, each with exactly the paths that the schema declares.
pub(crate) fn declared_tries(
    alloc: Global,
    schema: &ValidatorSchema,
    per_action: &BTreeMap<RequestType, RootAccessTrie>,
) -> Result<BTreeMap<RequestType, RootAccessTrie>, AllocError>
    ensures { IfOk result (λ m. AreTyped schema.now per_action.now.entries m.entries) }
{
    let mut tries = BTreeMap::new(alloc);
    for (request_type, trie) in per_action.iter() {
        let typed = declared_trie(alloc, schema, request_type, trie)?;
        push_trie(&mut tries, request_type.try_clone()?, typed)?;
    }
    Ok(tries)
}

/// Adds a trie behind the others, where its request type is greater than theirs.
pub(crate) fn push_trie(
    tries: &mut BTreeMap<RequestType, RootAccessTrie>,
    request_type: RequestType,
    trie: RootAccessTrie,
) -> Result<(), AllocError>
    requires { IsNextType request_type (keys tries.old) }
    ensures { OnOk result (tries.new.entries ≡ tries.old.entries ++ (request_type, trie) ∷ []) }
{
    drop(tries.insert(request_type, trie)?);
    Ok(())
}

/// The trie with exactly the paths of this one that the schema declares, with their marks.
pub(crate) fn declared_trie(
    alloc: Global,
    schema: &ValidatorSchema,
    request_type: &RequestType,
    trie: &RootAccessTrie,
) -> Result<RootAccessTrie, AllocError>
    ensures { IfOk result (KeepsDeclared schema.now request_type.now trie.now) }
{
    let given = trie.nodes();
    if given.len() == 0 {
        return Ok(RootAccessTrie::new(alloc));
    }
    let nodes = declared_nodes(alloc, schema, request_type, given)?;
    Ok(RootAccessTrie::from_nodes(nodes))
}

// The table with what is declared of another one, which has a first node.
fn declared_nodes(
    alloc: Global,
    schema: &ValidatorSchema,
    request_type: &RequestType,
    given: &[Node],
) -> Result<Vec<Node>, AllocError>
    requires table { IsTable given.now }
    requires first { 0 < length given.now }
    ensures table { IfOk result (λ v. IsTable v.items) }
    ensures typed { IfOk result (λ v. KeepsDeclared schema.now request_type.now given.now v.items) }
{
    let mut nodes = Vec::new(alloc);
    let t = Type::never();
    let made = declared_node(alloc, schema, request_type, &t, &mut nodes, given, 0);
    drop(t);
    made?;
    Ok(nodes)
}

// Appends the node, whose value is of the type, with what is declared below it, and answers its number.
fn declared_node(
    alloc: Global,
    schema: &ValidatorSchema,
    request_type: &RequestType,
    t: &Type,
    nodes: &mut Vec<Node>,
    x: &[Node],
    i: usize,
) -> Result<usize, AllocError>
    requires x_table { IsTable x.now }
    requires i_in { i < length x.now }
    ensures number { IfOk result (λ n. (n ≡ length nodes.old.items) × (n < length nodes.new.items)) }
    ensures kept { OnOk result (Keeps (length nodes.old.items) nodes.old.items nodes.new.items) }
    ensures closed { OnOk result (IsClosed (length nodes.old.items) nodes.new.items) }
    ensures ordered { OnOk result (IsTableOrdered (length nodes.old.items) nodes.new.items) }
    ensures present { IfOk result (λ n. (a : Address) → at_path is_some nodes.new.items n a ≡
        (at_path is_some x.now i a && is_declared_address schema.now request_type.now t.now a)) }
    ensures marked { IfOk result (λ n. (a : Address) → at_path has_mark nodes.new.items n a ≡
        (at_path has_mark x.now i a && is_declared_address schema.now request_type.now t.now a)) }
{
    let at = nodes.len();
    let mark = mark_of(x, i);
    nodes.push(Node::new(Vec::new(alloc), mark))?;
    let mut links = Vec::new(alloc);
    for link in links_of(x, i) {
        let Some(behind) = type_behind(alloc, schema, request_type, t, &link.edge)? else {
            continue;
        };
        let number = declared_node(alloc, schema, request_type, &behind, nodes, x, link.number);
        drop(behind);
        let number = number?;
        let edge = link.edge.try_clone()?;
        links.push(Link { edge, number })?;
    }
    nodes[at] = Node::new(links, mark);
    Ok(at)
}
