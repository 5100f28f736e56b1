//! Values, and attributes, that are merged.

ghost use Rattle.std.specs.Prelude.{◌≡◌, IfOk, OnOk};
ghost use Rattle.std.specs.BTreeMap.{IsOrdered, insert_entry};
ghost use Rattle.std.specs.Option.{option_map, option_copied};
ghost use Rattle.policy_values.specs.Uid.{text_cmp};
ghost use Rattle.policy_values.specs.Value.{fields_of};
ghost use Rattle.reads_spec.specs.Merge.{merge, merge_fields};
ghost use Rattle.entity_loader.specs.Merged.{merged_with};

use policy_values::{Text, Value, ValueKind, try_clone_fields};
use std::alloc::{AllocError, Global};
use std::collections::BTreeMap;

/// What two values say together: of equal values that value, and of records all fields of both, merged where
/// both have one. None exactly where values that are not both records differ at one place.
#[cycle(merging)]
pub fn merge_values(alloc: Global, a: &Value, b: &Value) -> Result<Option<Value>, AllocError>
    ensures { IfOk result (λ v. v ≡ merge a.now b.now) }
{
    match (a.kind(), b.kind()) {
        (ValueKind::Record(fields), ValueKind::Record(others)) => {
            match merge_fields(alloc, fields, others)? {
                Some(merged) => Ok(Some(Value::record(merged))),
                None => Ok(None),
            }
        }
        _ => {
            if a == b {
                Ok(Some(a.try_clone(alloc)?))
            } else {
                Ok(None)
            }
        }
    }
}

// All fields of both, merged where both have one.
#[cycle(merging)]
pub(crate) fn merge_fields(
    alloc: Global,
    fields: &BTreeMap<Text, Value>,
    others: &BTreeMap<Text, Value>,
) -> Result<Option<BTreeMap<Text, Value>>, AllocError>
    ensures { IfOk result (λ m. option_map (λ fs. fields_of fs.entries) m ≡
        merge_fields (fields_of fields.now.entries) (fields_of others.now.entries)) }
{
    let _count = fields.len();
    let mut merged = try_clone_fields(alloc, fields)?;
    for (key, other) in others.iter() {
        match merge_with(alloc, merged.get(key), other)? {
            Some(value) => {
                put(&mut merged, key.try_clone()?, value)?;
            }
            None => return Ok(None),
        }
    }
    Ok(Some(merged))
}

fn put(fields: &mut BTreeMap<Text, Value>, key: Text, value: Value) -> Result<(), AllocError>
    ensures entries { OnOk result (fields.new.entries ≡
        insert_entry text_cmp fields.old.entries key value) }
    ensures ordered { IsOrdered text_cmp fields.new }
{
    fields.insert(key, value)?;
    Ok(())
}

// A value with what is known already, where something is.
#[cycle(merging)]
fn merge_with(
    alloc: Global,
    known: Option<&Value>,
    value: &Value,
) -> Result<Option<Value>, AllocError>
    ensures { IfOk result (λ v. v ≡ merged_with (option_copied known.entry) value.now) }
{
    match known {
        Some(known) => merge_values(alloc, known, value),
        None => Ok(Some(value.try_clone(alloc)?)),
    }
}
