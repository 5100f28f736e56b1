//! Lists of values as ascending lists without repeats.

ghost use Rattle.std.specs.Prelude.{◌≡◌};
ghost use Rattle.policy_values.specs.Ascending.{ascending_of};
ghost use Rattle.policy_values.specs.ValueOrder.{val_cmp};

use crate::value::Value;

/// The values of a list, ascending, each once.
pub(crate) fn ascending_values(values: Vec<Value>) -> Vec<Value>
    ensures { result.items ≡ ascending_of val_cmp values.items }
{
    let mut values = values;
    values.sort_unstable();
    values.dedup();
    values
}
