//! The texts of rows.

ghost use Rattle.std.specs.Prelude.{◌≡◌, IfOk, map, string_bytes};
ghost use Rattle.serde_json.specs.Data.{array};
ghost use Rattle.serde_json.specs.View.{items_of, view};
ghost use Rattle.json_response.specs.ValueJson.{uid_data};
ghost use Rattle.entity_files.specs.Written.{row_data, row_text};

use entity_store::Entity;
use json_response::{write_fields, write_uid};
use policy_values::EntityUID;
use serde_json::{Map, Value as Json, put};
use std::alloc::{AllocError, Global};
use std::collections::BTreeSet;

fn write_parents(alloc: Global, parents: &BTreeSet<EntityUID>) -> Result<Json, AllocError>
    ensures { IfOk result (λ v. view v ≡ array (items_of (map uid_data parents.now.keys))) }
{
    let mut written = Vec::new(alloc);
    for uid in parents.iter() {
        written.push(write_uid(alloc, uid)?)?;
    }
    Ok(Json::Array(written))
}

fn write_row(alloc: Global, entity: &Entity) -> Result<Json, AllocError>
    ensures { IfOk result (λ v. view v ≡ row_data entity.now) }
{
    let attrs = write_fields(alloc, entity.attrs())?;
    let id = write_uid(alloc, entity.uid())?;
    let parents = write_parents(alloc, entity.ancestors())?;
    let tags = write_fields(alloc, entity.tags())?;
    let mut members = Map::new(alloc);
    put(&mut members, alloc, "attrs", attrs)?;
    put(&mut members, alloc, "id", id)?;
    put(&mut members, alloc, "parents", parents)?;
    put(&mut members, alloc, "tags", tags)?;
    Ok(Json::Object(members))
}

/// The text of the row of an entity with its parents.
pub(crate) fn row_text(alloc: Global, entity: &Entity) -> Result<String, AllocError>
    ensures { IfOk result (λ s. string_bytes s ≡ row_text entity.now) }
{
    write_row(alloc, entity)?.to_string(alloc)
}
