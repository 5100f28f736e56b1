//! A table of nodes, and the union of two.

ghost use Rattle.std.specs.Prelude.{◌≡◌, ◌<◌, ◌≤◌, ◌+◌, ◌||◌, IfOk, OnOk, length, drop, slice_get, is_some};
ghost use Rattle.access_tries.specs.Edges.{Address};
ghost use Rattle.access_tries.specs.Table.{IsTable, IsClosed, IsTableOrdered, Ascend, at_path, has_mark, links_at};
ghost use Rattle.access_tries.specs.Walks.{Keeps, TakesLink, IsBeforeAll};

use crate::edge::Edge;
use crate::order::compare;
use std::alloc::{AllocError, Global};
use std::cmp::Ordering;
use std::marker::Model;

/// An edge, and the number of the node to which it leads.
#[derive(Debug, Drop)]
pub struct Link {
    /// The edge.
    pub edge: Edge,
    /// The number of the node behind it.
    pub number: usize,
}

/// A node: where it leads, by ascending edges, and whether it is marked.
#[derive(Debug)]
pub struct Node {
    links: Vec<Link>,
    mark: bool,
}

impl Drop for Node {
    fn drop(self) {
        let Node { links, mark: _ } = self;
        drop(links);
    }
}

impl Model for Node {
    ghost use Rattle.access_tries.specs.Table.{NodeData, coded_node};

    ghost Value = { NodeData };

    ghost coded = { coded_node };

    ghost view = { λ n. record { links = n.links.items; mark = n.mark } };
}

impl Link {
    /// An equal link.
    pub fn try_clone(&self) -> Result<Link, AllocError>
        ensures { IfOk result (λ l. l ≡ self.now) }
    {
        let edge = self.edge.try_clone()?;
        Ok(Link {
            edge,
            number: self.number,
        })
    }
}

impl Node {
    /// The node with these links, marked or not.
    pub fn new(links: Vec<Link>, mark: bool) -> Node
        ensures { result ≡ record { links = links.items; mark = mark } }
    {
        Node { links, mark }
    }

    /// An equal node.
    pub fn try_clone(&self, alloc: Global) -> Result<Node, AllocError>
        ensures { IfOk result (λ n. n ≡ self.now) }
    {
        let mut links = Vec::with_capacity(alloc, self.links.len())?;
        for link in &self.links {
            links.push(link.try_clone()?)?;
        }
        Ok(Node {
            links,
            mark: self.mark,
        })
    }

    /// Where it leads.
    pub fn links(&self) -> &[Link]
        ensures { result.now ≡ self.now.links }
    {
        self.links.as_slice()
    }

    /// Whether it is marked.
    pub fn is_marked(&self) -> bool
        ensures { result ≡ self.now.mark }
    {
        self.mark
    }
}

/// The links of a node; none where there is no such node.
pub fn links_of(nodes: &[Node], number: usize) -> &[Link]
    ensures { result.now ≡ links_at nodes.now number }
{
    match nodes.get(number) {
        Some(node) => node.links(),
        None => &[],
    }
}

/// Whether a node is there, and is marked.
pub fn mark_of(nodes: &[Node], number: usize) -> bool
    ensures { result ≡ has_mark (slice_get nodes.now number) }
{
    match nodes.get(number) {
        Some(node) => node.is_marked(),
        None => false,
    }
}

// An equal table.
pub(crate) fn copied(alloc: Global, nodes: &[Node]) -> Result<Vec<Node>, AllocError>
    ensures { IfOk result (λ t. t.items ≡ nodes.now) }
{
    let mut copies = Vec::new(alloc);
    for node in nodes {
        copies.push(node.try_clone(alloc)?)?;
    }
    Ok(copies)
}

fn either(a: bool, b: bool) -> bool
    ensures { result ≡ (a || b) }
{
    a || b
}

// The next edge of two lists in their order, what it leads to in each, and where both lists go on.
#[derive(Clone, Copy)]
struct Turn<'a> {
    edge: &'a Edge,
    left: usize,
    right: usize,
    p: usize,
    q: usize,
}

fn turn_of<'a>(xs: &'a [Link], p: usize, nx: usize, ys: &'a [Link], q: usize, ny: usize) -> Turn<'a>
    requires p_in { p ≤ length xs.now }
    requires q_in { q ≤ length ys.now }
    requires some { p + q < length xs.now + length ys.now }
    requires xs_ascend { Ascend (drop p xs.now) }
    requires ys_ascend { Ascend (drop q ys.now) }
    ensures left { TakesLink xs.now p nx result.edge.now result.left result.p }
    ensures right { TakesLink ys.now q ny result.edge.now result.right result.q }
    ensures further { p + q < result.p + result.q }
    ensures before_xs { IsBeforeAll result.edge.now (drop result.p xs.now) }
    ensures before_ys { IsBeforeAll result.edge.now (drop result.q ys.now) }
{
    if p == xs.len() {
        let y = &ys[q];
        return Turn {
            edge: &y.edge,
            left: nx,
            right: y.number,
            p,
            q: q + 1,
        };
    }
    let x = &xs[p];
    if q == ys.len() {
        return Turn {
            edge: &x.edge,
            left: x.number,
            right: ny,
            p: p + 1,
            q,
        };
    }
    let y = &ys[q];
    match compare(&x.edge, &y.edge) {
        Ordering::Less => Turn {
            edge: &x.edge,
            left: x.number,
            right: ny,
            p: p + 1,
            q,
        },
        Ordering::Equal => Turn {
            edge: &x.edge,
            left: x.number,
            right: y.number,
            p: p + 1,
            q: q + 1,
        },
        Ordering::Greater => Turn {
            edge: &y.edge,
            left: nx,
            right: y.number,
            p,
            q: q + 1,
        },
    }
}

// Appends what both nodes hold, as one node with all below it, and answers its number. A number past the end
// stands for no node.
pub(crate) fn unite(
    alloc: Global,
    nodes: &mut Vec<Node>,
    x: &[Node],
    i: usize,
    y: &[Node],
    j: usize,
) -> Result<usize, AllocError>
    requires x_table { IsTable x.now }
    requires y_table { IsTable y.now }
    requires i_in { i ≤ length x.now }
    requires j_in { j ≤ length y.now }
    requires some { i + j < length x.now + length y.now }
    ensures number { IfOk result (λ n. (n ≡ length nodes.old.items) × (n < length nodes.new.items)) }
    ensures kept { OnOk result (Keeps (length nodes.old.items) nodes.old.items nodes.new.items) }
    ensures closed { OnOk result (IsClosed (length nodes.old.items) nodes.new.items) }
    ensures ordered { OnOk result (IsTableOrdered (length nodes.old.items) nodes.new.items) }
    ensures present { IfOk result (λ n. (a : Address) → at_path is_some nodes.new.items n a ≡
        (at_path is_some x.now i a || at_path is_some y.now j a)) }
    ensures marked { IfOk result (λ n. (a : Address) → at_path has_mark nodes.new.items n a ≡
        (at_path has_mark x.now i a || at_path has_mark y.now j a)) }
{
    let at = nodes.len();
    let mark = either(mark_of(x, i), mark_of(y, j));
    nodes.push(Node::new(Vec::new(alloc), mark))?;
    let xs = links_of(x, i);
    let ys = links_of(y, j);
    let mut links = Vec::with_capacity(alloc, xs.len().max(ys.len()))?;
    let mut p = 0;
    let mut q = 0;
    while p < xs.len() || q < ys.len() {
        let turn = turn_of(xs, p, x.len(), ys, q, y.len());
        let number = unite(alloc, nodes, x, turn.left, y, turn.right)?;
        let edge = turn.edge.try_clone()?;
        links.push(Link { edge, number })?;
        p = turn.p;
        q = turn.q;
    }
    nodes[at] = Node::new(links, mark);
    Ok(at)
}
