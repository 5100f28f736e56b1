//! Where tries go on, and where ancestors are asked for.

ghost use Rattle.std.specs.Prelude.{◌≡◌, ◌⊎◌, ◌↔◌, IsTrue};
ghost use Rattle.entity_loading.specs.CannotGoOn.{tests_of, Demands, GoesOn, MarksSome, is_step};

use access_tries::{Edge, TrieRef, links_of};

// Whether paths go on below the value, or ancestors are asked for there.
pub(crate) fn is_needed_whole(trie: &TrieRef<'_>) -> bool
    ensures { IsTrue result ↔ (GoesOn (tests_of trie.now) ⊎ Demands (tests_of trie.now)) }
{
    if goes_on(trie) {
        return true;
    }
    is_demanded(trie)
}

fn goes_on(trie: &TrieRef<'_>) -> bool
    ensures { IsTrue result ↔ GoesOn (tests_of trie.now) }
{
    for link in links_of(trie.nodes(), trie.number()) {
        if is_step(&link.edge) {
            return true;
        }
    }
    false
}

// Whether ancestors are asked for there.
pub(crate) fn is_demanded(trie: &TrieRef<'_>) -> bool
    ensures { IsTrue result ↔ Demands (tests_of trie.now) }
{
    let nodes = trie.nodes();
    for link in links_of(nodes, trie.number()) {
        if !is_step(&link.edge) {
            if marks_some(&TrieRef::new(nodes, link.number)) {
                return true;
            }
        }
    }
    false
}

// Whether a path leads to a marked node.
#[cycle(marking)]
fn marks_some(trie: &TrieRef<'_>) -> bool
    ensures { IsTrue result ↔ MarksSome (tests_of trie.now) }
{
    if trie.is_ancestor() {
        return true;
    }
    let nodes = trie.nodes();
    for link in links_of(nodes, trie.number()) {
        if is_step(&link.edge) {
            if marks_some(&TrieRef::new(nodes, link.number)) {
                return true;
            }
        }
    }
    false
}

fn is_step(edge: &Edge) -> bool
    ensures { result ≡ is_step edge.now }
{
    match edge {
        Edge::Field(_) | Edge::AnyTag => true,
        Edge::Root(_) => false,
    }
}
