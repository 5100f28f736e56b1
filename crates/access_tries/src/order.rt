//! The orders of edges and of paths.

ghost use Rattle.std.specs.Prelude.{◌≡◌, map};
ghost use Rattle.std.specs.Cmp.Lexicographic.{slice_cmp};
ghost use Rattle.access_tries.specs.EdgeView.{edge_in};
ghost use Rattle.access_tries.specs.Edges.{edge_cmp, root_cmp};
ghost use Rattle.access_tries.specs.Paths.{address_of, edge_of, is_prefix_of, path_cmp};

use crate::edge::{AccessPath, Edge, EdgeRef, EntityRoot, Step};
use std::cmp::Ordering;

/// The order of edges.
pub fn compare(a: &Edge, b: &Edge) -> Ordering
    ensures { result ≡ edge_cmp a.now b.now }
{
    compare_to(a, &b.borrowed())
}

// The order of an edge and of one whose parts are borrowed.
#[tactic(auto, using(crate::specs::EdgeLaws::then_end))]
pub(crate) fn compare_to(edge: &Edge, other: &EdgeRef<'_>) -> Ordering
    ensures { result ≡ edge_cmp edge.now (edge_in other.now) }
{
    match (edge, other) {
        (Edge::Field(a), EdgeRef::Field(b)) => a.cmp(b),
        (Edge::Field(_), _) => Ordering::Less,
        (_, EdgeRef::Field(_)) => Ordering::Greater,
        (Edge::AnyTag, EdgeRef::AnyTag) => Ordering::Equal,
        (Edge::AnyTag, _) => Ordering::Less,
        (_, EdgeRef::AnyTag) => Ordering::Greater,
        (Edge::Root(a), EdgeRef::Root(b)) => compare_roots(a, b),
    }
}

// The order of roots: ids before entries of the request.
fn compare_roots(a: &EntityRoot, b: &EntityRoot) -> Ordering
    ensures { result ≡ root_cmp a.now b.now }
{
    match (a, b) {
        (EntityRoot::Literal(a), EntityRoot::Literal(b)) => a.cmp(b),
        (EntityRoot::Literal(_), EntityRoot::Var(_)) => Ordering::Less,
        (EntityRoot::Var(_), EntityRoot::Literal(_)) => Ordering::Greater,
        (EntityRoot::Var(a), EntityRoot::Var(b)) => a.cmp(b),
    }
}

// The order of steps: fields by their names, and then any tag.
#[tactic(auto, using(crate::specs::EdgeLaws::then_end))]
fn compare_step(a: &Step, b: &Step) -> Ordering
    ensures { result ≡ edge_cmp (edge_of a.now) (edge_of b.now) }
{
    match (a, b) {
        (Step::Field(a), Step::Field(b)) => a.cmp(b),
        (Step::Field(_), Step::AnyTag) => Ordering::Less,
        (Step::AnyTag, Step::Field(_)) => Ordering::Greater,
        (Step::AnyTag, Step::AnyTag) => Ordering::Equal,
    }
}

fn compare_steps(a: &[Step], b: &[Step]) -> Ordering
    ensures { result ≡ slice_cmp edge_cmp (map edge_of a.now) (map edge_of b.now) }
{
    match a {
        [] => match b {
            [] => Ordering::Equal,
            [_, ..] => Ordering::Less,
        },
        [x, xs @ ..] => match b {
            [] => Ordering::Greater,
            [y, ys @ ..] => match compare_step(x, y) {
                Ordering::Equal => compare_steps(xs, ys),
                order => order,
            },
        },
    }
}

// The order of paths, edge by edge.
fn compare_paths(a: &AccessPath, b: &AccessPath) -> Ordering
    ensures { result ≡ path_cmp a.now b.now }
{
    match compare_roots(a.root(), b.root()) {
        Ordering::Equal => compare_steps(a.steps(), b.steps()),
        order => order,
    }
}

/// Whether the path goes on from another, or is that path.
pub(crate) fn goes_on(path: &AccessPath, prefix: &AccessPath) -> bool
    ensures { result ≡ is_prefix_of (address_of prefix.now) (address_of path.now) }
{
    match compare_roots(path.root(), prefix.root()) {
        Ordering::Equal => go_on(path.steps(), prefix.steps()),
        _ => false,
    }
}

fn go_on(steps: &[Step], prefix: &[Step]) -> bool
    ensures { result ≡ is_prefix_of (map edge_of prefix.now) (map edge_of steps.now) }
{
    match prefix {
        [] => true,
        [x, xs @ ..] => match steps {
            [] => false,
            [y, ys @ ..] => match compare_step(y, x) {
                Ordering::Equal => go_on(ys, xs),
                _ => false,
            },
        },
    }
}

impl PartialEq for AccessPath {
    ghost use Rattle.std.specs.Ordering.{is_eq};
    ghost use Rattle.std.specs.Cmp.{partial_equiv_from_equiv};
    ghost use Rattle.std.proofs.lemmas.Cmp.{eq_by_cmp_equiv};
    ghost use Rattle.access_tries.specs.Paths.{path_cmp};
    ghost use Rattle.access_tries.specs.PathLaws.{path_total};

    ghost eq = { λ a b. is_eq (path_cmp a b) };

    ghost laws = { partial_equiv_from_equiv (eq_by_cmp_equiv path_total) };

    fn eq(&self, other: &AccessPath) -> bool {
        self.cmp(other) == Ordering::Equal
    }
}

impl Eq for AccessPath {
    ghost use Rattle.std.proofs.lemmas.Cmp.{eq_by_cmp_equiv};
    ghost use Rattle.access_tries.specs.PathLaws.{path_total};

    ghost laws = { eq_by_cmp_equiv path_total };
}

impl Ord for AccessPath {
    ghost use Rattle.std.proofs.Common.{refl};
    ghost use Rattle.access_tries.specs.Paths.{path_cmp};
    ghost use Rattle.access_tries.specs.PathLaws.{path_total};

    ghost cmp = { path_cmp };

    ghost total = { path_total };

    ghost matches_partial_cmp = { λ a b. refl };

    ghost matches_eq = { λ a b. refl };

    fn cmp(&self, other: &AccessPath) -> Ordering {
        compare_paths(self, other)
    }
}

impl PartialOrd for AccessPath {
    ghost use Rattle.std.specs.Ordering.{as_partial_cmp};
    ghost use Rattle.std.specs.Cmp.{partial_order_from_total};
    ghost use Rattle.access_tries.specs.Paths.{path_cmp};
    ghost use Rattle.access_tries.specs.PathLaws.{path_total};

    ghost partial_cmp = { as_partial_cmp path_cmp };

    ghost laws = { partial_order_from_total path_total };

    fn partial_cmp(&self, other: &AccessPath) -> Option<Ordering> {
        Some(self.cmp(other))
    }
}

impl PartialEq for Edge {
    ghost use Rattle.std.specs.Ordering.{is_eq};
    ghost use Rattle.std.specs.Cmp.{partial_equiv_from_equiv};
    ghost use Rattle.std.proofs.lemmas.Cmp.{eq_by_cmp_equiv};
    ghost use Rattle.access_tries.specs.Edges.{edge_cmp};
    ghost use Rattle.access_tries.specs.EdgeLaws.{edge_total};

    ghost eq = { λ a b. is_eq (edge_cmp a b) };

    ghost laws = { partial_equiv_from_equiv (eq_by_cmp_equiv edge_total) };

    fn eq(&self, other: &Edge) -> bool {
        self.cmp(other) == Ordering::Equal
    }
}

impl Eq for Edge {
    ghost use Rattle.std.proofs.lemmas.Cmp.{eq_by_cmp_equiv};
    ghost use Rattle.access_tries.specs.EdgeLaws.{edge_total};

    ghost laws = { eq_by_cmp_equiv edge_total };
}

impl Ord for Edge {
    ghost use Rattle.std.proofs.Common.{refl};
    ghost use Rattle.access_tries.specs.Edges.{edge_cmp};
    ghost use Rattle.access_tries.specs.EdgeLaws.{edge_total};

    ghost cmp = { edge_cmp };

    ghost total = { edge_total };

    ghost matches_partial_cmp = { λ a b. refl };

    ghost matches_eq = { λ a b. refl };

    fn cmp(&self, other: &Edge) -> Ordering {
        compare(self, other)
    }
}

impl PartialOrd for Edge {
    ghost use Rattle.std.specs.Ordering.{as_partial_cmp};
    ghost use Rattle.std.specs.Cmp.{partial_order_from_total};
    ghost use Rattle.access_tries.specs.Edges.{edge_cmp};
    ghost use Rattle.access_tries.specs.EdgeLaws.{edge_total};

    ghost partial_cmp = { as_partial_cmp edge_cmp };

    ghost laws = { partial_order_from_total edge_total };

    fn partial_cmp(&self, other: &Edge) -> Option<Ordering> {
        Some(self.cmp(other))
    }
}
