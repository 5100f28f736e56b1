//! Views of tries: a node with all below it, borrowed from its table.

ghost use Rattle.std.specs.Prelude.{◌≡◌, [], map, MatchOption};
ghost use Rattle.std.specs.Iterator.{YieldsFirstBy, item_count};
ghost use Rattle.std.specs.List.Sorted.{IsStrictlySortedBy};
ghost use Rattle.policy_values.specs.Uid.{text_cmp};
ghost use Rattle.access_tries.specs.Edges.{root_cmp};
ghost use Rattle.access_tries.specs.Table.{Ascend, IsTable};
ghost use Rattle.access_tries.specs.Views.{view_marks, LeadsNowhere, LeadsTo, number_at, children_of, roots_of, AreChildren, AreRoots};
ghost use Rattle.access_tries.specs.EdgeView.{edge_in};
ghost use Rattle.access_tries.specs.declared.edge.Edge.TheVariants.{Field, AnyTag, Root};

use crate::edge::{Edge, EdgeRef, EntityRoot};
use crate::order::compare_to;
use crate::table::{Link, Node, links_of, mark_of};
use policy_values::Text;
use std::marker::Model;

/// What is read of a value, as it stands in a trie.
#[derive(Debug, Drop)]
pub struct TrieRef<'a> {
    nodes: &'a [Node],
    number: usize,
}

impl<'a> Model for TrieRef<'a> {
    ghost use Rattle.access_tries.specs.Table.{IsTable};
    ghost use Rattle.access_tries.specs.Views.{ViewData, coded_view};

    ghost Value = { ViewData };

    ghost coded = { coded_view };

    ghost view = { λ t. record { nodes = t.nodes.now; number = t.number } };

    ghost invariant = { λ t. IsTable t.nodes.now };
}

impl<'a> TrieRef<'a> {
    /// A node of a table, with all below it.
    pub fn new(nodes: &'a [Node], number: usize) -> TrieRef<'a>
        requires { IsTable nodes.now }
        ensures { result ≡ record { nodes = nodes.now; number = number } }
    {
        TrieRef { nodes, number }
    }

    /// The table that it is borrowed from.
    pub fn nodes(&self) -> &'a [Node]
        ensures nodes { result.now ≡ self.now.nodes }
        ensures table { IsTable self.now.nodes }
    {
        self.nodes
    }

    /// Its number in the table.
    pub fn number(&self) -> usize
        ensures { result ≡ self.now.number }
    {
        self.number
    }

    /// Whether the value is itself asked for as an ancestor.
    pub fn is_ancestor(&self) -> bool
        ensures { result ≡ view_marks self.now [] }
    {
        mark_of(self.nodes, self.number)
    }

    /// What is read of a field, where it is read.
    pub fn field(&self, name: &Text) -> Option<TrieRef<'a>>
        ensures { MatchOption result (LeadsNowhere (Field name.now) self.now)
            (LeadsTo (Field name.now) self.now) }
    {
        self.behind(&EdgeRef::Field(name))
    }

    /// What is read of every tag, where tags are read.
    pub fn tags(&self) -> Option<TrieRef<'a>>
        ensures { MatchOption result (LeadsNowhere AnyTag self.now) (LeadsTo AnyTag self.now) }
    {
        self.behind(&EdgeRef::AnyTag)
    }

    /// What names the ancestors that are asked for of this value, where paths from this root name some.
    pub fn ancestors_from(&self, root: &EntityRoot) -> Option<TrieRef<'a>>
        ensures { MatchOption result (LeadsNowhere (Root root.now) self.now)
            (LeadsTo (Root root.now) self.now) }
    {
        self.behind(&EdgeRef::Root(root))
    }

    /// What names the ancestors that are asked for of this value: roots, with what is followed from them.
    pub fn ancestors_required(&self) -> RootTrieRef<'a>
        ensures { result ≡ self.now }
    {
        RootTrieRef {
            node: TrieRef::new(self.nodes, self.number),
        }
    }

    /// The fields that are read, ascending, each with what is read of it.
    #[tactic(auto, using(crate::proofs::Listing::children_lead, crate::proofs::Listing::children_ascend))]
    pub fn children(&self) -> Children<'a>
        ensures children { result ≡ children_of self.now }
        ensures lead { AreChildren self.now result }
        ensures ascending { IsStrictlySortedBy text_cmp (map (λ c. c.0) result) }
    {
        self.fields()
    }

    // The fields, each with what is read of it.
    fn fields(&self) -> Children<'a>
        ensures children { result ≡ children_of self.now }
        ensures table { IsTable self.now.nodes }
    {
        Children {
            nodes: self.nodes,
            links: links_of(self.nodes, self.number),
        }
    }

    // The roots, each with what is read from it.
    fn roots(&self) -> Roots<'a>
        ensures roots { result ≡ roots_of self.now }
        ensures table { IsTable self.now.nodes }
    {
        Roots {
            nodes: self.nodes,
            links: links_of(self.nodes, self.number),
        }
    }

    // The node to which an edge leads.
    fn behind(&self, edge: &EdgeRef<'_>) -> Option<TrieRef<'a>>
        ensures { MatchOption result (LeadsNowhere (edge_in edge.now) self.now)
            (LeadsTo (edge_in edge.now) self.now) }
    {
        match number_at(edge, links_of(self.nodes, self.number)) {
            Some(number) => Some(TrieRef {
                nodes: self.nodes,
                number,
            }),
            None => None,
        }
    }
}

/// Roots with what is read from them, as they stand in a trie.
#[derive(Debug, Drop)]
pub struct RootTrieRef<'a> {
    node: TrieRef<'a>,
}

impl<'a> Model for RootTrieRef<'a> {
    ghost use Rattle.access_tries.specs.Views.{ViewData, coded_view};

    ghost Value = { ViewData };

    ghost coded = { coded_view };

    ghost view = { λ t. t.node };
}

impl<'a> RootTrieRef<'a> {
    /// What is read from a root, where something is.
    pub fn trie(&self, root: &EntityRoot) -> Option<TrieRef<'a>>
        ensures { MatchOption result (LeadsNowhere (Root root.now) self.now)
            (LeadsTo (Root root.now) self.now) }
    {
        self.node.ancestors_from(root)
    }

    /// The roots, ids before entries of the request, each with what is read from it.
    #[tactic(auto, using(crate::proofs::Listing::roots_lead, crate::proofs::Listing::roots_ascend))]
    pub fn roots(&self) -> Roots<'a>
        ensures roots { result ≡ roots_of self.now }
        ensures lead { AreRoots self.now result }
        ensures ascending { IsStrictlySortedBy root_cmp (map (λ c. c.0) result) }
    {
        self.node.roots()
    }
}

/// The fields of a node, each with what is read of it.
#[derive(Debug, Drop)]
pub struct Children<'a> {
    nodes: &'a [Node],
    links: &'a [Link],
}

impl<'a> Model for Children<'a> {
    ghost use Rattle.std.specs.Prelude.{List, ℕ};
    ghost use Rattle.access_tries.specs.Table.{IsTable};
    ghost use Rattle.access_tries.specs.Views.{ViewData, coded_children, children_in};

    ghost Value = { List (List ℕ × ViewData) };

    ghost coded = { coded_children };

    ghost view = { λ c. children_in c.nodes.now c.links.now };

    ghost invariant = { λ c. IsTable c.nodes.now };
}

impl<'a> Iterator for Children<'a> {
    type Item = (&'a Text, TrieRef<'a>);

    ghost next_gives = { YieldsFirstBy (λ item. (item.0.now, item.1)) (λ rest. rest) };

    ghost remaining = { item_count (λ rest. rest) };

    fn next(&mut self) -> Option<(&'a Text, TrieRef<'a>)> {
        while let Some((link, rest)) = self.links.split_first() {
            self.links = rest;
            if let Edge::Field(name) = &link.edge {
                return Some((name, TrieRef::new(self.nodes, link.number)));
            }
        }
        None
    }
}

/// The roots of a trie, each with what is read from it.
#[derive(Debug, Drop)]
pub struct Roots<'a> {
    nodes: &'a [Node],
    links: &'a [Link],
}

impl<'a> Model for Roots<'a> {
    ghost use Rattle.std.specs.Prelude.{List};
    ghost use Rattle.access_tries.specs.Table.{IsTable};
    ghost use Rattle.access_tries.specs.declared.edge.EntityRoot.{EntityRoot};
    ghost use Rattle.access_tries.specs.Views.{ViewData, coded_roots, roots_in};

    ghost Value = { List (EntityRoot × ViewData) };

    ghost coded = { coded_roots };

    ghost view = { λ r. roots_in r.nodes.now r.links.now };

    ghost invariant = { λ r. IsTable r.nodes.now };
}

impl<'a> Iterator for Roots<'a> {
    type Item = (&'a EntityRoot, TrieRef<'a>);

    ghost next_gives = { YieldsFirstBy (λ item. (item.0.now, item.1)) (λ rest. rest) };

    ghost remaining = { item_count (λ rest. rest) };

    fn next(&mut self) -> Option<(&'a EntityRoot, TrieRef<'a>)> {
        while let Some((link, rest)) = self.links.split_first() {
            self.links = rest;
            if let Edge::Root(root) = &link.edge {
                return Some((root, TrieRef::new(self.nodes, link.number)));
            }
        }
        None
    }
}

// The number of the node to which an edge leads, where there is such a link.
fn number_at(edge: &EdgeRef<'_>, links: &[Link]) -> Option<usize>
    requires { Ascend links.now }
    ensures { result ≡ number_at (edge_in edge.now) links.now }
{
    match links.binary_search_by(|link| compare_to(&link.edge, edge)) {
        Ok(i) => Some(links[i].number),
        Err(_) => None,
    }
}
