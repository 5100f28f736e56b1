//! Lists that are read item by item.

ghost use Rattle.std.specs.Prelude.{◌≡◌, ◌∷◌, [], ◌++◌, IfOk};
ghost use Rattle.std.specs.BTreeMap.{keys};
ghost use Rattle.policy_values.specs.Maps.{IsNext};

use policy_values::{Text, push_entry};
use std::alloc::{AllocError, Global};
use std::collections::BTreeMap;

/// One more field behind the others.
pub fn with_field<V: Drop>(
    alloc: Global,
    fields: BTreeMap<Text, V>,
    key: &str,
    field: V,
) -> Result<BTreeMap<Text, V>, AllocError>
    requires { IsNext key.now (keys fields) }
    ensures { IfOk result (λ all. all.entries ≡ fields.entries ++ (key.now, field) ∷ []) }
{
    let mut fields = fields;
    let key = Text::from_str(alloc, key)?;
    push_entry(&mut fields, key, field)?;
    Ok(fields)
}

/// One more item behind the others.
pub fn with_item<V: Drop>(items: Vec<V>, item: V) -> Result<Vec<V>, AllocError>
    ensures { IfOk result (λ all. all.items ≡ items.items ++ item ∷ []) }
{
    let mut items = items;
    items.push(item)?;
    Ok(items)
}
