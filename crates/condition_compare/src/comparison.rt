//! What an edit of conditions changes.

ghost use Rattle.std.specs.Prelude.{◌≡◌, true, IfOk};
ghost use Rattle.condition_compare.specs.Decisions.{AllowsAtMost};

use crate::condition::Condition;
use crate::outliner::Outliner;
use std::alloc::{AllocError, Global};

/// What was found of the decisions before and after an edit. Where both hold they are the same; where one does
/// not hold, it was not found to.
#[derive(Clone, Copy)]
pub struct Comparison {
    /// The decision is Allow after only where it is before: the edit gives nothing.
    pub at_most: bool,
    /// It is Allow before only where it is after: the edit takes nothing.
    pub at_least: bool,
}

/// What an edit changes that leaves the second conditions in place of the first ones, of policies that the two
/// sets do not share. The budget is of parts of propositions that are looked at, and falls.
pub fn compare_conditions(
    alloc: Global,
    before: &Vec<Condition>,
    after: &Vec<Condition>,
    steps: &mut u64,
) -> Result<Comparison, AllocError>
    ensures at_most { IfOk result (λ c. c.at_most ≡ true → AllowsAtMost before.now.items after.now.items) }
    ensures at_least { IfOk result (λ c. c.at_least ≡ true → AllowsAtMost after.now.items before.now.items) }
{
    let mut outliner = Outliner::new(alloc);
    let old = outliner.decision(before)?;
    let new = outliner.decision(after)?;
    let at_most = outliner.follows(new, old)?;
    let at_least = outliner.follows(old, new)?;
    Ok(Comparison {
        at_most: outliner.always_holds(alloc, at_most, steps)?,
        at_least: outliner.always_holds(alloc, at_least, steps)?,
    })
}
