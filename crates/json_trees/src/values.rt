//! The values that trees say.

ghost use Rattle.std.specs.Prelude.{◌≡◌, IfOk};
ghost use Rattle.serde_json.specs.View.{view, items_view, members_view};
ghost use Rattle.json_trees.specs.Trees.{named_view, tree_view, trees_view};

use crate::Tree;
use crate::numbers::number_of;
use serde_json::{Map, Value};
use std::alloc::{AllocError, Global};

/// The value that the tree says, with texts of its own. Each part of the tree is let go of once it is a
/// value.
#[cycle(values)]
pub fn value_of(alloc: Global, tree: Tree<'_>) -> Result<Value, AllocError>
    ensures { IfOk result (λ v. view v ≡ tree_view tree.entry) }
{
    match tree {
        Tree::Null => Ok(Value::Null),
        Tree::Bool(b) => Ok(Value::Bool(b)),
        Tree::Number(text) => Ok(number_of(text).map_or(Value::Null, Value::Number)),
        Tree::String(text) => Ok(Value::String(String::from_str(alloc, text)?)),
        Tree::Array(items) => Ok(Value::Array(values_of(alloc, items)?)),
        Tree::Object(members) => Ok(Value::Object(members_of(alloc, members)?)),
    }
}

#[cycle(values)]
fn values_of(alloc: Global, items: Vec<Tree<'_>>) -> Result<Vec<Value>, AllocError>
    ensures { IfOk result (λ vs. items_view vs.items ≡ trees_view items.entry.items) }
{
    let mut values = Vec::with_capacity(alloc, items.len())?;
    for item in items {
        values.push(value_of(alloc, item)?)?;
    }
    Ok(values)
}

#[cycle(values)]
fn members_of(
    alloc: Global,
    members: Vec<(&str, Tree<'_>)>,
) -> Result<Map<String, Value>, AllocError>
    ensures { IfOk result (λ m. members_view m.entries ≡ named_view members.entry.items) }
{
    let mut found = Map::new(alloc);
    for member in members {
        let (name, tree) = member;
        let value = value_of(alloc, tree)?;
        let name = String::from_str(alloc, name)?;
        drop(found.insert(name, value)?);
    }
    Ok(found)
}
