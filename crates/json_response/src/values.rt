//! Values as JSON.

ghost use Rattle.std.specs.Prelude.{◌≡◌, IfOk, Some, map};
ghost use Rattle.std.specs.List.{AllByRecursion};
ghost use Rattle.policy_values.specs.Value.{long, entity, decimal, ip, datetime, duration, fields_of};
ghost use Rattle.serde_json.specs.View.{view};
ghost use Rattle.json_values.specs.Names.{uid_of};
ghost use Rattle.json_values.specs.Values.{value_of, value_fields_of};
ghost use Rattle.json_response.specs.ValueJson.{pair_data, uid_data, alone, value_data, fields_data};
ghost use Rattle.json_response.specs.ReadBack.{IsReadBack, IsWritten};

use policy_ext::{Decimal, IpAddr};
use policy_values::{EntityUID, Text, Value, ValueKind};
use serde_json::{Map, Value as Json, put};
use std::alloc::{AllocError, Global};
use std::collections::BTreeMap;

/// The list of two texts.
pub(crate) fn write_pair(alloc: Global, first: &str, second: &str) -> Result<Json, AllocError>
    ensures { IfOk result (λ v. view v ≡ pair_data first.now second.now) }
{
    let mut texts = Vec::new(alloc);
    texts.push(Json::try_from_str(alloc, first)?)?;
    texts.push(Json::try_from_str(alloc, second)?)?;
    Ok(Json::Array(texts))
}

/// An id: the list of its type and its eid. What is written is read as the id.
#[tactic(auto, using(crate::proofs::ReadBack::uid_back))]
pub fn write_uid(alloc: Global, uid: &EntityUID) -> Result<Json, AllocError>
    ensures written { IfOk result (λ v. view v ≡ uid_data uid.now) }
    ensures read_back { IfOk result (λ v. uid_of (view v) ≡ Some uid.now) }
{
    write_pair(alloc, uid.entity_type.as_str(), uid.eid.as_str())
}

// The object with this member alone.
fn write_alone(alloc: Global, name: &str, value: Json) -> Result<Json, AllocError>
    ensures { IfOk result (λ v. view v ≡ alone name.now (view value)) }
{
    let mut members = Map::new(alloc);
    put(&mut members, alloc, name, value)?;
    Ok(Json::Object(members))
}

#[tactic(auto, using(crate::proofs::ReadBack::long_back))]
fn write_long(n: i64) -> Json
    ensures { IsWritten (long n) (view result) }
{
    Json::from(n)
}

#[tactic(auto, using(crate::proofs::ReadBack::id_back))]
fn write_id(alloc: Global, uid: &EntityUID) -> Result<Json, AllocError>
    ensures { IfOk result (λ v. IsWritten (entity uid.now) (view v)) }
{
    let id = write_uid(alloc, uid)?;
    write_alone(alloc, "id", id)
}

fn write_decimal(alloc: Global, d: &Decimal) -> Result<Json, AllocError>
    ensures { IfOk result (λ v. IsWritten (decimal d.now) (view v)) }
{
    let text = d.text(alloc)?;
    write_alone(alloc, "decimal", Json::from(text))
}

fn write_range(alloc: Global, range: &IpAddr) -> Result<Json, AllocError>
    ensures { IfOk result (λ v. IsWritten (ip range.now) (view v)) }
{
    let text = range.text(alloc)?;
    write_alone(alloc, "ip", Json::from(text))
}

#[tactic(auto, using(crate::proofs::ReadBack::datetime_back))]
fn write_datetime(alloc: Global, millis: i64) -> Result<Json, AllocError>
    ensures { IfOk result (λ v. IsWritten (datetime millis) (view v)) }
{
    write_alone(alloc, "datetime", Json::from(millis))
}

#[tactic(auto, using(crate::proofs::ReadBack::duration_back))]
fn write_duration(alloc: Global, millis: i64) -> Result<Json, AllocError>
    ensures { IfOk result (λ v. IsWritten (duration millis) (view v)) }
{
    write_alone(alloc, "duration", Json::from(millis))
}

/// A value. A boolean, a long and a text stand for themselves, and a set is the array of its elements,
/// ascending. Any other value is the object with one member, which has the name of its kind: `id`; `record`,
/// the object of its fields, so that a record whose one field is named `id` is no id; `decimal` and `ip`,
/// their texts; `datetime` and `duration`, their milliseconds. What is written is read as the value.
#[tactic(auto, unfolding(crate::specs::ReadBack::IsReadBack))]
pub fn write_value(alloc: Global, value: &Value) -> Result<Json, AllocError>
    ensures written { IfOk result (λ v. view v ≡ value_data value.now) }
    ensures read_back { IfOk result (λ v. value_of (view v) ≡ Some value.now) }
{
    write(alloc, value)
}

#[cycle(write)]
#[tactic(auto, using(crate::proofs::ReadBack::truth_back, crate::proofs::ReadBack::string_back, crate::proofs::ReadBack::record_back))]
fn write(alloc: Global, value: &Value) -> Result<Json, AllocError>
    ensures { IfOk result (λ v. IsWritten value.now (view v)) }
{
    match value.kind() {
        ValueKind::Bool(b) => Ok(Json::from(*b)),
        ValueKind::Long(n) => Ok(write_long(*n)),
        ValueKind::String(text) => Json::try_from_str(alloc, text.as_str()),
        ValueKind::EntityUID(uid) => write_id(alloc, uid),
        ValueKind::Set(items) => {
            let items = write_items(alloc, items)?;
            Ok(Json::Array(items))
        }
        ValueKind::Record(fields) => {
            let fields = write_fields(alloc, fields)?;
            write_alone(alloc, "record", fields)
        }
        ValueKind::Decimal(d) => write_decimal(alloc, d),
        ValueKind::IpAddr(range) => write_range(alloc, range),
        ValueKind::DateTime(d) => write_datetime(alloc, d.millis()),
        ValueKind::Duration(d) => write_duration(alloc, d.millis()),
    }
}

#[cycle(write)]
fn write_items(alloc: Global, items: &Vec<Value>) -> Result<Vec<Json>, AllocError>
    ensures written { IfOk result (λ vs. map view vs.items ≡ map value_data items.now.items) }
    ensures read_back { IfOk result (λ vs. AllByRecursion IsReadBack items.now.items) }
{
    let mut written = Vec::new(alloc);
    for item in items {
        written.push(write(alloc, item)?)?;
    }
    Ok(written)
}

/// Fields: the object of their values under their keys. What is written is read as the fields.
#[cycle(write)]
pub fn write_fields(alloc: Global, fields: &BTreeMap<Text, Value>) -> Result<Json, AllocError>
    ensures written { IfOk result (λ v. view v ≡ fields_data (fields_of fields.now.entries)) }
    ensures read_back { IfOk result (λ v. value_fields_of (view v) ≡ Some fields.now.entries) }
{
    let mut members = Map::new(alloc);
    for (key, field) in fields.iter() {
        let value = write(alloc, field)?;
        put(&mut members, alloc, key.as_str(), value)?;
    }
    Ok(Json::Object(members))
}
