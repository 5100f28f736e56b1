//! The least trie that has given paths and demands.

ghost use Rattle.std.specs.Prelude.{◌≡◌, ◌≤◌, ◌<◌, ◌+◌, ◌++◌, ◌&&◌, [], ◌∷◌, Option, map, drop, true, false, length, is_some, option_map, slice_index_or, IfOk, OnOk};
ghost use Rattle.std.specs.List.{list_any};
ghost use Rattle.std.specs.List.Sorted.{IsPermutation};
ghost use Rattle.access_tries.specs.Edges.{Address};
ghost use Rattle.access_tries.specs.Table.{IsClosed, IsTableOrdered, at_path, has_mark};
ghost use Rattle.access_tries.specs.Walks.{HaveSamePrefixes, Keeps, IsOf, addresses_in};
ghost use Rattle.access_tries.specs.Paths.{address_of, demand_of, is_prefix_of, is_same, IsLeast};
ghost use Rattle.access_tries.specs.Tails.{tails, Rise, begins, run};

use crate::edge::{AccessPath, Edge};
use crate::order::{compare, goes_on};
use crate::table::{Link, Node};
use crate::tries::RootAccessTrie;
use std::alloc::{AllocError, Global};
use std::cmp::Ordering;

impl AccessPath {
    /// The trie of this path alone.
    pub fn to_root_access_trie(&self, alloc: Global) -> Result<RootAccessTrie, AllocError>
        ensures { IfOk result (IsLeast (self.now ∷ []) []) }
    {
        let edges = address_of(alloc, self)?;
        trie_of(alloc, &[edges.as_slice()], false)
    }
}

/// The trie with exactly the paths that are read and their prefixes, and, in the ancestors' trie of the first
/// path of each demand, exactly the second one, marked at its end.
pub fn least_trie(
    alloc: Global,
    reads: &[AccessPath],
    demands: &[(AccessPath, AccessPath)],
) -> Result<RootAccessTrie, AllocError>
    ensures { IfOk result (IsLeast reads.now demands.now) }
{
    let read = addresses_of(alloc, reads)?;
    let read = all_of(alloc, &read, false)?;
    if let [] = demands {
        return Ok(read);
    }
    let demanded = demands_of(alloc, demands)?;
    let demanded = all_of(alloc, &demanded, true)?;
    read.union(alloc, &demanded)
}

// The edges of each path from which the next does not go on: the others are prefixes of these.
fn addresses_of(alloc: Global, paths: &[AccessPath]) -> Result<Vec<Vec<Edge>>, AllocError>
    ensures { IfOk result (λ r. HaveSamePrefixes (addresses_in r.items) (map address_of paths.now)) }
{
    let mut addresses = Vec::new(alloc);
    for i in 0..paths.len() {
        if !is_gone_on(paths, i) {
            addresses.push(address_of(alloc, &paths[i])?)?;
        }
    }
    Ok(addresses)
}

// Whether the next path goes on from the one at the place.
fn is_gone_on(paths: &[AccessPath], place: usize) -> bool
    requires { place < length paths.now }
    ensures { result ≡ true → HaveSamePrefixes (map address_of (drop (place + 1) paths.now))
        (map address_of (drop place paths.now)) }
{
    place + 1 < paths.len() && goes_on(&paths[place + 1], &paths[place])
}

// The edges of each demand.
fn demands_of(
    alloc: Global,
    demands: &[(AccessPath, AccessPath)],
) -> Result<Vec<Vec<Edge>>, AllocError>
    ensures { IfOk result (λ r. addresses_in r.items ≡ map demand_of demands.now) }
{
    let mut addresses = Vec::new(alloc);
    for demand in demands {
        let mut edges = address_of(alloc, &demand.0)?;
        add_edges(&mut edges, &demand.1)?;
        addresses.push(edges)?;
    }
    Ok(addresses)
}

fn address_of(alloc: Global, path: &AccessPath) -> Result<Vec<Edge>, AllocError>
    ensures { IfOk result (λ r. r.items ≡ address_of path.now) }
{
    let mut edges = Vec::new(alloc);
    add_edges(&mut edges, path)?;
    Ok(edges)
}

// Adds the edges along a path.
fn add_edges(edges: &mut Vec<Edge>, path: &AccessPath) -> Result<(), AllocError>
    ensures { OnOk result (edges.new.items ≡ edges.old.items ++ address_of path.now) }
{
    edges.push(Edge::Root(path.root().try_clone()?))?;
    for step in path.steps() {
        edges.push(Edge::of_step(step)?)?;
    }
    Ok(())
}

/// The trie of all these addresses and their prefixes, marked at all their ends or nowhere. The addresses are put
/// in order once, so that those with the same prefixes stand side by side, and each node is made once.
pub fn all_of(
    alloc: Global,
    addresses: &[Vec<Edge>],
    mark: bool,
) -> Result<RootAccessTrie, AllocError>
    ensures { IfOk result (IsOf (addresses_in addresses.now) mark) }
{
    let ordered = in_order(alloc, addresses)?;
    trie_of(alloc, &ordered, mark)
}

// The addresses in their order, edge by edge.
fn in_order<'a>(alloc: Global, addresses: &'a [Vec<Edge>]) -> Result<Vec<&'a [Edge]>, AllocError>
    ensures same { IfOk result (λ r. IsPermutation (addresses_in addresses.now) (tails 0 r.items)) }
    ensures rise { IfOk result (λ r. Rise (tails 0 r.items)) }
{
    let mut ordered = Vec::with_capacity(alloc, addresses.len())?;
    for edges in addresses {
        ordered.push(edges.as_slice())?;
    }
    ordered.sort_unstable();
    Ok(ordered)
}

// The trie of addresses in their order.
fn trie_of(alloc: Global, addresses: &[&[Edge]], mark: bool) -> Result<RootAccessTrie, AllocError>
    requires { Rise (tails 0 addresses.now) }
    ensures { IfOk result (IsOf (tails 0 addresses.now) mark) }
{
    if let [] = addresses {
        return Ok(RootAccessTrie::new(alloc));
    }
    let mut nodes = Vec::new(alloc);
    append_node(alloc, &mut nodes, addresses, 0, mark)?;
    Ok(RootAccessTrie::from_nodes(nodes))
}

// Appends the node to which the first edges of these addresses lead, as many as the depth, with all below it,
// and answers its number. Addresses that end there come first, and then those with the same next edge stand
// side by side.
fn append_node(
    alloc: Global,
    nodes: &mut Vec<Node>,
    addresses: &[&[Edge]],
    depth: usize,
    mark: bool,
) -> Result<usize, AllocError>
    requires some { 0 < length addresses.now }
    requires rise { Rise (tails depth addresses.now) }
    ensures number { IfOk result (λ n. (n ≡ length nodes.old.items) × (n < length nodes.new.items)) }
    ensures kept { OnOk result (Keeps (length nodes.old.items) nodes.old.items nodes.new.items) }
    ensures closed { OnOk result (IsClosed (length nodes.old.items) nodes.new.items) }
    ensures ordered { OnOk result (IsTableOrdered (length nodes.old.items) nodes.new.items) }
    ensures present { IfOk result (λ n. (a : Address) → at_path is_some nodes.new.items n a ≡
        list_any (is_prefix_of a) (tails depth addresses.now)) }
    ensures marked { IfOk result (λ n. (a : Address) → at_path has_mark nodes.new.items n a ≡
        (mark && list_any (is_same a) (tails depth addresses.now))) }
{
    let at = nodes.len();
    let marked = marks_first(addresses, depth, mark);
    nodes.push(Node::new(Vec::new(alloc), marked))?;
    let (_, mut rest) = addresses.split_at(run_of(None, addresses, depth));
    let mut links = Vec::with_capacity(alloc, room_for(rest, depth))?;
    while let [first, ..] = rest {
        let (edge, behind) = edge_at(first, depth);
        let (group, others) = rest.split_at(run_of(Some(edge), rest, depth));
        let number = append_node(alloc, nodes, group, behind, mark)?;
        let edge = edge.try_clone()?;
        links.push(Link { edge, number })?;
        rest = others;
    }
    nodes[at] = Node::new(links, marked);
    Ok(at)
}

// The edge of the address at the depth, and the depth behind it.
fn edge_at(address: &[Edge], depth: usize) -> (&Edge, usize)
    requires { depth < length address.now }
    ensures edge { result.0.now ≡ slice_index_or address.now depth result.0.now }
    ensures behind { result.1 ≡ depth + 1 }
{
    (&address[depth], depth + 1)
}

// Whether an address ends at the depth, and ends are marked. Where one does, the first one does.
fn marks_first(addresses: &[&[Edge]], depth: usize, mark: bool) -> bool
    requires some { 0 < length addresses.now }
    requires rise { Rise (tails depth addresses.now) }
    ensures { result ≡ (mark && list_any (is_same []) (tails depth addresses.now)) }
{
    mark && goes_along(None, addresses[0], depth)
}

// For how many links to make room at first: for one where all addresses go along the same edge.
fn room_for(addresses: &[&[Edge]], depth: usize) -> usize
    ensures { result ≤ 1 }
{
    match addresses {
        [] => 0,
        [_] => 1,
        [first, .., last] if goes_along(first.get(depth), last, depth) => 1,
        _ => 0,
    }
}

// How many of the addresses, from the first on, have this edge at the depth, or none.
fn run_of(edge: Option<&Edge>, addresses: &[&[Edge]], depth: usize) -> usize
    ensures { result ≡ run (option_map (λ e. e.now) edge.entry) (tails depth addresses.now) }
{
    let mut count = 0;
    while count < addresses.len() && goes_along(edge, addresses[count], depth) {
        count += 1;
    }
    count
}

// Whether the address has this edge at the depth, or none.
fn goes_along(edge: Option<&Edge>, address: &[Edge], depth: usize) -> bool
    ensures { result ≡ begins (option_map (λ e. e.now) edge.entry) (drop depth address.now) }
{
    if address.len() <= depth {
        return edge.is_none();
    }
    match edge {
        Some(edge) => compare(&address[depth], edge) == Ordering::Equal,
        None => false,
    }
}
