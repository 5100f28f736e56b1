//! Maps under texts.

ghost use Rattle.std.specs.Prelude.{◌≡◌, OnOk, OnErr, ◌++◌, [], ◌∷◌};
ghost use Rattle.std.specs.BTreeMap.{keys};
ghost use Rattle.policy_values.specs.Maps.{IsNext};

use crate::Text;
use std::alloc::AllocError;
use std::collections::BTreeMap;

/// Adds an entry behind the others, where its key is greater than theirs. Errs where memory runs out, and
/// leaves the map as it was then.
pub fn push_entry<V: Drop>(
    map: &mut BTreeMap<Text, V>,
    key: Text,
    value: V,
) -> Result<(), AllocError>
    requires { IsNext key (keys map.old) }
    ensures added { OnOk result (map.new.entries ≡ map.old.entries ++ (key, value) ∷ []) }
    ensures unchanged { OnErr result (map.new.entries ≡ map.old.entries) }
{
    map.insert(key, value)?;
    Ok(())
}
