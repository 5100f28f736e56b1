//! Lists of one item and of two.

ghost use Rattle.std.specs.Prelude.{◌≡◌};
ghost use Rattle.json_expressions.specs.Lists.{only_of, two_of};

/// The one item, where there is no other.
pub(crate) fn only<V: Drop>(items: Vec<V>) -> Option<V>
    ensures { result ≡ only_of items.items }
{
    let mut items = items;
    if items.len() != 1 {
        return None;
    }
    items.pop()
}

/// The two items, where there are two.
pub(crate) fn two<V: Drop>(items: Vec<V>) -> Option<(V, V)>
    ensures { result ≡ two_of items.items }
{
    let mut items = items;
    if items.len() != 2 {
        return None;
    }
    let second = items.pop()?;
    let first = items.pop()?;
    Some((first, second))
}
