//! What may be nested too deep.

ghost use Rattle.std.specs.Prelude.{◌≡◌, IfOk, option_map};
ghost use Rattle.json_expressions.specs.Nesting.{all_within, fields_within};

use policy_values::{Text, push_entry};
use std::alloc::{AllocError, Global};
use std::collections::BTreeMap;

/// What is read where something may be nested too deep.
#[derive(Debug, Drop)]
pub enum Bounded<T> {
    /// It is nested no deeper than 400.
    Within(T),
    /// It is nested deeper than 400, and is not built.
    Nested,
}

/// All of them, where none is nested deeper.
pub(crate) fn take_all<V: Drop>(
    alloc: Global,
    reads: Vec<Bounded<V>>,
) -> Result<Option<Vec<V>>, AllocError>
    ensures { IfOk result (λ o. option_map (λ v. v.items) o ≡ all_within reads.items) }
{
    let mut all = Vec::new(alloc);
    for read in reads {
        let Bounded::Within(x) = read else {
            return Ok(None);
        };
        all.push(x)?;
    }
    Ok(Some(all))
}

/// All fields, where none is nested deeper.
pub(crate) fn take_fields<V: Drop>(
    alloc: Global,
    reads: BTreeMap<Text, Bounded<V>>,
) -> Result<Option<BTreeMap<Text, V>>, AllocError>
    ensures { IfOk result (λ o. option_map (λ m. m.entries) o ≡ fields_within reads.entries) }
{
    let mut all = BTreeMap::new(alloc);
    for (name, read) in reads {
        let Bounded::Within(x) = read else {
            return Ok(None);
        };
        push_entry(&mut all, name, x)?;
    }
    Ok(Some(all))
}
