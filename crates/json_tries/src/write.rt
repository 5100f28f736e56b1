//! Tries, written as JSON.

ghost use Rattle.std.specs.Prelude.{◌≡◌, [], ◌++◌, IfOk, OnOk, map};
ghost use Rattle.serde_json.specs.View.{view, members_view};
ghost use Rattle.access_tries.specs.Table.{IsTable, links_at};
ghost use Rattle.access_tries.specs.Trees.{branches_by, branch_at};
ghost use Rattle.json_tries.specs.TrieJson.{key_data, entry_data, field_part, tag_part, root_part, trie_data, with_tags, node_data, fields_data, tags_data, roots_data, root_trie_data};

use access_tries::{Edge, EntityRoot, Node, RootAccessTrie, links_of, mark_of};
use json_response::write_uid;
use serde_json::{Map, Value, put};
use std::alloc::{AllocError, Global};

/// A trie, as the object whose member `trie` lists its roots, each with the node that is read there. Roots
/// ascend, ids before entries of the request, and so do the fields of a node.
pub fn write_root_trie(alloc: Global, trie: &RootAccessTrie) -> Result<Value, AllocError>
    ensures { IfOk result (λ v. view v ≡ root_trie_data trie.now) }
{
    let parts = write_parts(alloc, trie.nodes(), 0)?;
    parts.into_trie(alloc)
}

// What is written of where a node leads.
#[derive(Drop)]
struct Parts {
    fields: Vec<Value>,
    tags: Vec<Value>,
    roots: Vec<Value>,
}

impl Parts {
    fn new(alloc: Global) -> Parts
        ensures fields { result.fields.items ≡ [] }
        ensures tags { result.tags.items ≡ [] }
        ensures roots { result.roots.items ≡ [] }
    {
        Parts {
            fields: Vec::new(alloc),
            tags: Vec::new(alloc),
            roots: Vec::new(alloc),
        }
    }

    // Adds the node behind an edge.
    fn add(&mut self, alloc: Global, edge: &Edge, node: Value) -> Result<(), AllocError>
        ensures fields { OnOk result (map view self.new.fields.items ≡
            map view self.old.fields.items ++ field_part edge.now (view node)) }
        ensures tags { OnOk result (map view self.new.tags.items ≡
            map view self.old.tags.items ++ tag_part edge.now (view node)) }
        ensures roots { OnOk result (map view self.new.roots.items ≡
            map view self.old.roots.items ++ root_part edge.now (view node)) }
    {
        match edge {
            Edge::Field(name) => {
                let key = Value::try_from_str(alloc, name.as_str())?;
                self.fields.push(write_entry(alloc, key, node)?)?;
            }
            Edge::AnyTag => self.tags.push(node)?,
            Edge::Root(root) => {
                let key = write_key(alloc, root)?;
                self.roots.push(write_entry(alloc, key, node)?)?;
            }
        }
        Ok(())
    }

    fn into_trie(self, alloc: Global) -> Result<Value, AllocError>
        ensures { IfOk result (λ v. view v ≡ trie_data (map view self.roots.items)) }
    {
        write_trie(alloc, self.roots)
    }

    // The node that leads there.
    fn into_node(self, alloc: Global, mark: bool) -> Result<Value, AllocError>
        ensures { IfOk result (λ v. view v ≡ node_data mark (map view self.fields.items)
            (map view self.tags.items) (map view self.roots.items)) }
    {
        let ancestors = write_trie(alloc, self.roots)?;
        let mut members = Map::new(alloc);
        put(&mut members, alloc, "ancestorsTrie", ancestors)?;
        put(&mut members, alloc, "children", Value::Array(self.fields))?;
        put(&mut members, alloc, "isAncestor", Value::from(mark))?;
        put_tags(&mut members, alloc, self.tags)?;
        Ok(Value::Object(members))
    }
}

// Adds the list of tags, where there are some.
fn put_tags(
    members: &mut Map<String, Value>,
    alloc: Global,
    tags: Vec<Value>,
) -> Result<(), AllocError>
    ensures { OnOk result (members_view members.new.entries ≡
        with_tags (map view tags.items) (members_view members.old.entries)) }
{
    if 0 < tags.len() {
        put(members, alloc, "tags", Value::Array(tags))?;
    }
    Ok(())
}

fn write_trie(alloc: Global, roots: Vec<Value>) -> Result<Value, AllocError>
    ensures { IfOk result (λ v. view v ≡ trie_data (map view roots.items)) }
{
    let mut members = Map::new(alloc);
    put(&mut members, alloc, "trie", Value::Array(roots))?;
    Ok(Value::Object(members))
}

fn write_entry(alloc: Global, key: Value, node: Value) -> Result<Value, AllocError>
    ensures { IfOk result (λ v. view v ≡ entry_data (view key) (view node)) }
{
    let mut items = Vec::new(alloc);
    items.push(key)?;
    items.push(node)?;
    Ok(Value::Array(items))
}

fn write_key(alloc: Global, root: &EntityRoot) -> Result<Value, AllocError>
    ensures { IfOk result (λ v. view v ≡ key_data root.now) }
{
    let (name, key) = match root {
        EntityRoot::Literal(uid) => ("literal", write_uid(alloc, uid)?),
        EntityRoot::Var(var) => ("var", Value::try_from_str(alloc, var.text())?),
    };
    let mut members = Map::new(alloc);
    put(&mut members, alloc, name, key)?;
    Ok(Value::Object(members))
}

// Where a node leads.
fn write_parts(alloc: Global, nodes: &[Node], number: usize) -> Result<Parts, AllocError>
    requires { IsTable nodes.now }
    ensures fields { IfOk result (λ p. map view p.fields.items ≡
        fields_data (branches_by (branch_at nodes.now) (links_at nodes.now number))) }
    ensures tags { IfOk result (λ p. map view p.tags.items ≡
        tags_data (branches_by (branch_at nodes.now) (links_at nodes.now number))) }
    ensures roots { IfOk result (λ p. map view p.roots.items ≡
        roots_data (branches_by (branch_at nodes.now) (links_at nodes.now number))) }
{
    let mut parts = Parts::new(alloc);
    for link in links_of(nodes, number) {
        let below = write_parts(alloc, nodes, link.number)?;
        let node = below.into_node(alloc, mark_of(nodes, link.number))?;
        parts.add(alloc, &link.edge, node)?;
    }
    Ok(parts)
}
