//! Lists that are not empty, and what remains of results where none failed.

ghost use Rattle.std.specs.Prelude.{◌≡◌, IfOk, IfErr, Ok, map};
ghost use Rattle.findings.specs.NonEmpty.{items_of, errors_in};

use std::alloc::{AllocError, Global};

/// A list with one item or more.
#[derive(Debug, Drop, PartialEq, Eq, Hash)]
pub struct NonEmpty<T> {
    /// The first item.
    pub head: T,
    /// The others.
    pub tail: Vec<T>,
}

/// All values, where each result has one; else all errors, in their order.
pub fn partition_nonempty<T: Drop, E: Drop>(
    alloc: Global,
    results: Vec<Result<T, E>>,
) -> Result<Result<Vec<T>, NonEmpty<E>>, AllocError>
    ensures values { IfOk result (λ r. IfOk r (λ values. map Ok values.items ≡ results.items)) }
    ensures errors { IfOk result (λ r. IfErr r (λ errors. items_of errors ≡ errors_in results.items)) }
{
    let mut values = Vec::new(alloc);
    let mut errors = Vec::new(alloc);
    for result in results {
        match result {
            Ok(value) => values.push(value)?,
            Err(error) => errors.push(error)?,
        }
    }
    if errors.is_empty() {
        return Ok(Ok(values));
    }
    let head = errors.remove(0);
    Ok(Err(NonEmpty { head, tail: errors }))
}
