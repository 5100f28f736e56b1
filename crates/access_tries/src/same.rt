//! When tries are equal.

ghost use Rattle.std.specs.Prelude.{◌≡◌, ◌↔◌, ◌&&◌, IsTrue, slice_get};
ghost use Rattle.std.specs.Bool.{beq};
ghost use Rattle.access_tries.specs.Edges.{edge_eq};
ghost use Rattle.access_tries.specs.Table.{IsTable, has_mark, links_at};
ghost use Rattle.access_tries.specs.Trees.{branch_at, branches_by, branches_of};
ghost use Rattle.access_tries.specs.Same.{same_branch, same_branches, same_roots, same_tries};

use crate::order::compare;
use crate::table::{Link, Node, links_of, mark_of};
use crate::tries::{AccessTrie, RootAccessTrie};
use std::cmp::Ordering;

impl PartialEq for RootAccessTrie {
    ghost use Rattle.std.specs.Cmp.{partial_equiv_from_equiv};
    ghost use Rattle.access_tries.specs.Same.{same_roots};
    ghost use Rattle.access_tries.specs.SameLaws.{same_roots_equiv};

    ghost eq = { same_roots };

    ghost laws = { partial_equiv_from_equiv same_roots_equiv };

    /// Whether both have the same roots, with the same read from each.
    fn eq(&self, other: &RootAccessTrie) -> bool
        ensures same { result ≡ same_roots self.now other.now }
        ensures trees { IsTrue result ↔ (branches_of self.now ≡ branches_of other.now) }
    {
        leads_alike(self.nodes(), 0, other.nodes(), 0)
    }
}

impl Eq for RootAccessTrie {
    ghost use Rattle.access_tries.specs.SameLaws.{same_roots_equiv};

    ghost laws = { same_roots_equiv };
}

impl PartialEq for AccessTrie {
    ghost use Rattle.std.specs.Cmp.{partial_equiv_from_equiv};
    ghost use Rattle.access_tries.specs.Same.{same_tries};
    ghost use Rattle.access_tries.specs.SameLaws.{same_tries_equiv};

    ghost eq = { same_tries };

    ghost laws = { partial_equiv_from_equiv same_tries_equiv };

    /// Whether the same is read of both values.
    fn eq(&self, other: &AccessTrie) -> bool
        ensures same { result ≡ same_tries self.now other.now }
        ensures trees { IsTrue result ↔ (branch_at self.now 0 ≡ branch_at other.now 0) }
    {
        let left = self.as_trie_ref();
        let right = other.as_trie_ref();
        same_nodes(left.nodes(), 0, right.nodes(), 0)
    }
}

impl Eq for AccessTrie {
    ghost use Rattle.access_tries.specs.SameLaws.{same_tries_equiv};

    ghost laws = { same_tries_equiv };
}

// Whether two nodes hold the same.
fn same_nodes(a: &[Node], i: usize, b: &[Node], j: usize) -> bool
    requires a_table { IsTable a.now }
    requires b_table { IsTable b.now }
    ensures { result ≡ same_branch (branch_at a.now i) (branch_at b.now j) }
{
    same_marks(mark_of(a, i), mark_of(b, j)) && leads_alike(a, i, b, j)
}

// Whether two nodes lead to the same.
fn leads_alike(a: &[Node], i: usize, b: &[Node], j: usize) -> bool
    requires a_table { IsTable a.now }
    requires b_table { IsTable b.now }
    ensures { result ≡ same_branches (branches_by (branch_at a.now) (links_at a.now i))
        (branches_by (branch_at b.now) (links_at b.now j)) }
{
    let xs = links_of(a, i);
    let ys = links_of(b, j);
    if xs.len() != ys.len() {
        return false;
    }
    for (k, x) in xs.iter().enumerate() {
        let y = &ys[k];
        if !looks_alike(a, x, b, y) || !leads_alike(a, x.number, b, y.number) {
            return false;
        }
    }
    true
}

// Whether two links have one edge, and the nodes behind them one mark.
fn looks_alike(a: &[Node], x: &Link, b: &[Node], y: &Link) -> bool
    ensures { result ≡ (edge_eq x.now.edge y.now.edge &&
        beq (has_mark (slice_get a.now x.now.number)) (has_mark (slice_get b.now y.now.number))) }
{
    compare(&x.edge, &y.edge) == Ordering::Equal
        && same_marks(mark_of(a, x.number), mark_of(b, y.number))
}

fn same_marks(a: bool, b: bool) -> bool
    ensures { result ≡ beq a b }
{
    a == b
}
