//! Tries of access paths.

ghost use Rattle.std.specs.Prelude.{◌≡◌, ◌≤◌, [], length, IfOk, OnOk, OnErr, MatchOption};
ghost use Rattle.access_tries.specs.Table.{IsTable, is_marked};
ghost use Rattle.access_tries.specs.Paths.{IsUnion};
ghost use Rattle.access_tries.specs.Views.{IsWith, LeadsNowhere, LeadsTo, whole};
ghost use Rattle.access_tries.specs.declared.edge.Edge.TheVariants.{Root};

use crate::edge::EntityRoot;
use crate::table::{Node, copied, mark_of, unite};
use crate::views::{RootTrieRef, TrieRef};
use std::alloc::{AllocError, Global};
use std::marker::Model;

/// Each root with the trie of what is read from it.
#[derive(Debug)]
pub struct RootAccessTrie {
    // The first node leads to the roots; without nodes there are none.
    nodes: Vec<Node>,
}

impl Drop for RootAccessTrie {
    fn drop(self) {
        let RootAccessTrie { nodes } = self;
        drop(nodes);
    }
}

impl Model for RootAccessTrie {
    ghost use Rattle.access_tries.specs.Table.{Table, coded_table, IsTable};

    ghost Value = { Table };

    ghost coded = { coded_table };

    ghost view = { λ t. t.nodes.items };

    ghost invariant = { λ t. IsTable t.nodes.items };
}

impl RootAccessTrie {
    /// The trie without roots.
    pub fn new(alloc: Global) -> RootAccessTrie
        ensures { result ≡ [] }
    {
        RootAccessTrie {
            nodes: Vec::new(alloc),
        }
    }

    /// An equal trie.
    pub fn try_clone(&self, alloc: Global) -> Result<RootAccessTrie, AllocError>
        ensures { IfOk result (λ t. t ≡ self.now) }
    {
        let nodes = copied(alloc, &self.nodes)?;
        Ok(RootAccessTrie { nodes })
    }

    /// What is read from a root, where something is.
    pub fn trie(&self, root: &EntityRoot) -> Option<TrieRef<'_>>
        ensures { MatchOption result (LeadsNowhere (Root root.now) (whole self.now))
            (LeadsTo (Root root.now) (whole self.now)) }
    {
        TrieRef::new(&self.nodes, 0).ancestors_from(root)
    }

    /// The roots, each with what is read from it, borrowed.
    pub fn as_root_trie_ref(&self) -> RootTrieRef<'_>
        ensures { result ≡ whole self.now }
    {
        TrieRef::new(&self.nodes, 0).ancestors_required()
    }

    /// The table of its nodes: the first one leads to the roots.
    pub fn nodes(&self) -> &[Node]
        ensures nodes { result.now ≡ self.now }
        ensures table { IsTable self.now }
    {
        self.nodes.as_slice()
    }

    /// The trie that a table is.
    pub fn from_nodes(nodes: Vec<Node>) -> RootAccessTrie
        requires { IsTable nodes.items }
        ensures { result ≡ nodes.items }
    {
        RootAccessTrie { nodes }
    }

    /// What either holds.
    pub fn union(&self, alloc: Global, other: &RootAccessTrie) -> Result<RootAccessTrie, AllocError>
        ensures { IfOk result (IsUnion self.now other.now) }
    {
        let nodes = united(alloc, &self.nodes, &other.nodes)?;
        Ok(RootAccessTrie { nodes })
    }

    /// Adds what the other holds; without memory both stay as they are.
    pub fn union_mut(&mut self, alloc: Global, other: &RootAccessTrie) -> Result<(), AllocError>
        ensures ok { OnOk result (IsUnion self.old other.now self.new) }
        ensures err { OnErr result (self.new ≡ self.old) }
    {
        let united = self.union(alloc, other)?;
        *self = united;
        Ok(())
    }
}

/// What is read of a value: its fields and tags with what is read of these, and which ancestors are
/// asked for.
#[derive(Debug)]
pub struct AccessTrie {
    // The first node is the value's own; without nodes nothing more than the value is read.
    nodes: Vec<Node>,
}

impl Drop for AccessTrie {
    fn drop(self) {
        let AccessTrie { nodes } = self;
        drop(nodes);
    }
}

impl Model for AccessTrie {
    ghost use Rattle.access_tries.specs.Table.{Table, coded_table, IsTable};

    ghost Value = { Table };

    ghost coded = { coded_table };

    ghost view = { λ t. t.nodes.items };

    ghost invariant = { λ t. IsTable t.nodes.items };
}

impl AccessTrie {
    /// The trie of a value of which nothing more is read.
    pub fn new(alloc: Global) -> AccessTrie
        ensures { result ≡ [] }
    {
        AccessTrie {
            nodes: Vec::new(alloc),
        }
    }

    /// An equal trie.
    pub fn try_clone(&self, alloc: Global) -> Result<AccessTrie, AllocError>
        ensures { IfOk result (λ t. t ≡ self.now) }
    {
        let nodes = copied(alloc, &self.nodes)?;
        Ok(AccessTrie { nodes })
    }

    /// What either holds.
    pub fn union(&self, alloc: Global, other: &AccessTrie) -> Result<AccessTrie, AllocError>
        ensures { IfOk result (IsUnion self.now other.now) }
    {
        let nodes = united(alloc, &self.nodes, &other.nodes)?;
        Ok(AccessTrie { nodes })
    }

    /// Adds what the other holds; without memory both stay as they are.
    pub fn union_mut(&mut self, alloc: Global, other: &AccessTrie) -> Result<(), AllocError>
        ensures ok { OnOk result (IsUnion self.old other.now self.new) }
        ensures err { OnErr result (self.new ≡ self.old) }
    {
        let united = self.union(alloc, other)?;
        *self = united;
        Ok(())
    }

    /// Adds what a borrowed trie holds; without memory the trie stays as it is.
    pub fn add(&mut self, alloc: Global, trie: &TrieRef<'_>) -> Result<(), AllocError>
        ensures ok { OnOk result (IsWith self.old trie.now self.new) }
        ensures err { OnErr result (self.new ≡ self.old) }
    {
        let with = with_node(alloc, &self.nodes, trie.nodes(), trie.number())?;
        self.nodes = with;
        Ok(())
    }

    /// The trie, borrowed.
    pub fn as_trie_ref(&self) -> TrieRef<'_>
        ensures { result ≡ whole self.now }
    {
        TrieRef::new(&self.nodes, 0)
    }

    /// Whether the value is itself asked for as an ancestor.
    pub fn is_ancestor(&self) -> bool
        ensures { result ≡ is_marked self.now [] }
    {
        mark_of(&self.nodes, 0)
    }
}

// The table of what either table holds.
fn united(alloc: Global, a: &[Node], b: &[Node]) -> Result<Vec<Node>, AllocError>
    requires a_table { IsTable a.now }
    requires b_table { IsTable b.now }
    ensures table { IfOk result (λ t. IsTable t.items) }
    ensures union { IfOk result (λ t. IsUnion a.now b.now t.items) }
{
    let mut nodes = Vec::new(alloc);
    if 0 < a.len() || 0 < b.len() {
        unite(alloc, &mut nodes, a, 0, b, 0)?;
    }
    Ok(nodes)
}

// The table of what a table holds, and what a node of another does. A number past the end stands for no node.
fn with_node(alloc: Global, a: &[Node], b: &[Node], number: usize) -> Result<Vec<Node>, AllocError>
    requires a_table { IsTable a.now }
    requires b_table { IsTable b.now }
    ensures table { IfOk result (λ t. IsTable t.items) }
    ensures with { IfOk result (λ t. IsWith a.now (record { nodes = b.now; number = number }) t.items) }
{
    if number < b.len() {
        united_from(alloc, a, b, number)
    } else {
        united_from(alloc, a, b, b.len())
    }
}

fn united_from(
    alloc: Global,
    a: &[Node],
    b: &[Node],
    number: usize,
) -> Result<Vec<Node>, AllocError>
    requires a_table { IsTable a.now }
    requires b_table { IsTable b.now }
    requires number_in { number ≤ length b.now }
    ensures table { IfOk result (λ t. IsTable t.items) }
    ensures with { IfOk result (λ t. IsWith a.now (record { nodes = b.now; number = number }) t.items) }
{
    let mut nodes = Vec::new(alloc);
    if 0 < a.len() || number < b.len() {
        unite(alloc, &mut nodes, a, 0, b, number)?;
    }
    Ok(nodes)
}
