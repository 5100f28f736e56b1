//! Tries of paths: how many nodes they have, which are equal, and their copies; what their roots are called,
//! and basenames.

use crate::lines::{Answers, assert_same, failures};
use access_tries::{AccessPath, AccessTrie, Edge, EntityRoot, RootAccessTrie, Step, all_of};
use policy_expressions::Var;
use policy_values::{EntityType, Name, Text};
use std::alloc::{AllocError, Global};

// The fields that a text names, with dots between them.
fn steps_of(alloc: Global, text: &str) -> Result<Vec<Step>, AllocError> {
    let mut steps = Vec::new(alloc);
    for name in text.split('.') {
        steps.push(Step::Field(Text::from_str(alloc, name)?))?;
    }
    Ok(steps)
}

// Adds the path from the principal along the fields that a text names.
fn add_path(alloc: Global, trie: &mut RootAccessTrie, text: &str) -> Result<(), AllocError> {
    let path = AccessPath::new(EntityRoot::Var(Var::Principal), steps_of(alloc, text)?);
    let alone = path.to_root_access_trie(alloc)?;
    trie.union_mut(alloc, &alone)
}

// The union of the tries of these paths, one by one.
fn trie_of(alloc: Global, paths: &str) -> Result<RootAccessTrie, AllocError> {
    let mut trie = RootAccessTrie::new(alloc);
    for path in paths.split(' ') {
        add_path(alloc, &mut trie, path)?;
    }
    Ok(trie)
}

// What is read of the principal.
fn of_principal(alloc: Global, trie: &RootAccessTrie) -> Result<AccessTrie, AllocError> {
    let mut own = AccessTrie::new(alloc);
    if let Some(found) = trie.trie(&EntityRoot::Var(Var::Principal)) {
        own.add(alloc, &found)?;
    }
    Ok(own)
}

// How many nodes stand behind the first, which leads to the roots; whether the trie equals that of the paths
// behind the comma, and whether what is read of the principal does.
struct Tries;

impl Answers for Tries {
    fn answer(alloc: Global, asked: &str) -> Result<String, AllocError> {
        let (one, other) = asked.split_once(", ").unwrap_or((asked, asked));
        compared(alloc, &trie_of(alloc, one)?, &trie_of(alloc, other)?)
    }
}

fn compared(
    alloc: Global,
    one: &RootAccessTrie,
    other: &RootAccessTrie,
) -> Result<String, AllocError> {
    let nodes = one.nodes().len().saturating_sub(1);
    let equal = one == other;
    let equal_below = of_principal(alloc, one)? == of_principal(alloc, other)?;
    format!(in alloc; "{nodes} {equal} {equal_below}")
}

// The principal, and each field once.
const PATHS: &str = "a.b => 3 true true
a.b a.c, a.c a.b => 4 true true
a.b a.c a.b, a.b a.c => 4 true true
b a a.c, a.c b => 4 true true
a.b, a.c => 3 false false
a.b, a.b.c => 3 false false
a.b a, b.a b => 3 false false";

#[test]
fn united_paths_share_nodes(rt: HostRuntime) -> Result<(), AllocError> {
    let failures = failures::<Tries>(rt.alloc(), PATHS)?;
    assert_same(&rt, failures.as_str(), "");
    Ok(())
}

// The trie of one field of the principal, marked or not.
fn trie_with_mark(alloc: Global, mark: bool) -> Result<RootAccessTrie, AllocError> {
    let mut edges = Vec::new(alloc);
    edges.push(Edge::Root(EntityRoot::Var(Var::Principal)))?;
    edges.push(Edge::Field(Text::from_str(alloc, "a")?))?;
    let mut addresses = Vec::new(alloc);
    addresses.push(edges)?;
    all_of(alloc, &addresses, mark)
}

// Whether the trie with such a mark equals the one without, and whether its copy equals it.
fn copied(alloc: Global, mark: bool) -> Result<String, AllocError> {
    let trie = trie_with_mark(alloc, mark)?;
    let is_plain = trie == trie_of(alloc, "a")?;
    let is_copy = trie.try_clone(alloc)? == trie;
    format!(in alloc; "{is_plain} {is_copy}")
}

#[test]
fn tries_are_equal_by_their_marks(rt: HostRuntime) -> Result<(), AllocError> {
    let plain = copied(rt.alloc(), false)?;
    assert_same(&rt, plain.as_str(), "true true");
    let marked = copied(rt.alloc(), true)?;
    assert_same(&rt, marked.as_str(), "false true");
    Ok(())
}

fn shown_roots(alloc: Global) -> Result<String, AllocError> {
    let mut text = String::new(alloc);
    for var in [Var::Principal, Var::Action, Var::Resource, Var::Context] {
        write!(text, "{} ", EntityRoot::Var(var))?;
    }
    Ok(text)
}

#[test]
fn roots_are_shown(rt: HostRuntime) -> Result<(), AllocError> {
    let roots = shown_roots(rt.alloc())?;
    assert_same(&rt, roots.as_str(), "principal action resource context ");
    Ok(())
}

// The last component of the name of a type.
struct Basenames;

impl Answers for Basenames {
    fn answer(alloc: Global, asked: &str) -> Result<String, AllocError> {
        match Name::parse(alloc, asked)? {
            Some(name) => String::from_str(alloc, EntityType::new(name).basename()),
            None => String::from_str(alloc, "no name"),
        }
    }
}

#[test]
fn basenames_are_last_components(rt: HostRuntime) -> Result<(), AllocError> {
    let table = "User => User\nA::User => User\nA::B::C => C";
    let failures = failures::<Basenames>(rt.alloc(), table)?;
    assert_same(&rt, failures.as_str(), "");
    Ok(())
}
