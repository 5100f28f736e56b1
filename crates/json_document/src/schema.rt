//! The schema of a document.

ghost use Rattle.serde_json.specs.View.{view};
ghost use Rattle.json_trees.specs.Trees.{tree_view};
ghost use Rattle.json_schema.specs.Schema.{schema_of};
ghost use Rattle.json_document.specs.Faults.{MayComeTo};
ghost use Rattle.json_document.specs.Reading.{IsSchemaFrom};

use crate::{DocumentFault, Place};
use json_schema::read_declarations;
use json_trees::{Tree, value_of};
use schema_core::{SchemaFault, ValidatorSchema};
use serde_json::Value;
use std::alloc::Global;

/// The schema that the value declares; else the place of its first fault.
pub fn read_schema(alloc: Global, value: &Value) -> Result<ValidatorSchema, DocumentFault>
    ensures { MayComeTo result (IsSchemaFrom (schema_of (view value.now))) }
{
    let Some(declarations) = read_declarations(alloc, value)? else {
        return Err(DocumentFault::Place(Place::Schema));
    };
    match ValidatorSchema::from_declarations(alloc, declarations) {
        Ok(schema) => Ok(schema),
        Err(SchemaFault::OutOfMemory) => Err(DocumentFault::OutOfMemory),
        Err(fault) => Err(DocumentFault::Place(Place::SchemaFault(fault))),
    }
}

/// The schema that the tree declares; else the place of its first fault.
pub(crate) fn schema_in(alloc: Global, tree: Tree<'_>) -> Result<ValidatorSchema, DocumentFault>
    ensures { MayComeTo result (IsSchemaFrom (schema_of (tree_view tree.entry))) }
{
    let declared = value_of(alloc, tree)?;
    let schema = read_schema(alloc, &declared);
    drop(declared);
    schema
}
