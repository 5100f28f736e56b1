//! What is reported of the condition of a policy in all its environments.

ghost use Rattle.std.specs.Prelude.{◌≡◌, OnErr, OnOk, if◌then◌else◌};
ghost use Rattle.policy_typecheck.specs.Added.{added, all_added, same_error, same_warning};
ghost use Rattle.policy_typecheck.specs.Checks.{errors_in, has_passed, is_false};
ghost use Rattle.policy_typecheck.specs.Policies.{impossible};
ghost use Rattle.policy_typecheck.specs.Reported.{reported_by};

use crate::PolicyCheck;
use crate::added::{add_errors, add_warning, missing};
use findings::{ImpossiblePolicy, ValidationError, ValidationWarning};
use indexmap::IndexSet;
use policy_values::Text;
use std::alloc::{AllocError, Global};

/// What the checks so far come to.
#[derive(Clone, Copy)]
pub(crate) struct Summary {
    /// Whether each of them passes.
    pub(crate) accepted: bool,
    /// Whether each of them finds the condition false.
    pub(crate) impossible: bool,
}

/// Reports of one check more, and adds its errors, each once.
pub(crate) fn say_check(
    summary: &mut Summary,
    found: &mut IndexSet<ValidationError>,
    check: PolicyCheck,
) -> Result<(), AllocError>
    ensures { OnOk result ((summary.new, found.new.keys) ≡ reported_by check (summary.old, found.old.keys)) }
{
    summary.accepted = has_passed(&check) && summary.accepted;
    summary.impossible = is_false(&check) && summary.impossible;
    add_errors_of(found, check)
}

fn has_passed(check: &PolicyCheck) -> bool
    ensures { result ≡ has_passed check.now }
{
    match check {
        PolicyCheck::Fail(_) => false,
        PolicyCheck::Success(_) | PolicyCheck::Irrelevant(_) => true,
    }
}

fn is_false(check: &PolicyCheck) -> bool
    ensures { result ≡ is_false check.now }
{
    match check {
        PolicyCheck::Irrelevant(_) => true,
        PolicyCheck::Success(_) | PolicyCheck::Fail(_) => false,
    }
}

fn add_errors_of(
    found: &mut IndexSet<ValidationError>,
    check: PolicyCheck,
) -> Result<(), AllocError>
    ensures { OnOk result (found.new.keys ≡ all_added same_error found.old.keys (errors_in check)) }
{
    match check {
        PolicyCheck::Success(condition) | PolicyCheck::Irrelevant(condition) => {
            drop(condition);
            Ok(())
        }
        PolicyCheck::Fail(more) => add_errors(found, more),
    }
}

/// Adds what is found of a policy behind what the lists hold. There is room first, so that on an error both
/// are as they were.
pub(crate) fn add_found(
    alloc: Global,
    id: &Text,
    false_in_each: bool,
    found: IndexSet<ValidationError>,
    errors: &mut Vec<ValidationError>,
    warnings: &mut Vec<ValidationWarning>,
) -> Result<(), AllocError>
    ensures errors { OnOk result (errors.new.items ≡ all_added same_error errors.old.items found.keys) }
    ensures warnings { OnOk result (warnings.new.items ≡
        (if false_in_each then added same_warning warnings.old.items (impossible id.now) else
        warnings.old.items)) }
    ensures unchanged { OnErr result ((errors.new.items ≡ errors.old.items) ×
        (warnings.new.items ≡ warnings.old.items)) }
{
    let mut more = missing(alloc, errors.as_slice(), found)?;
    errors.reserve(more.len())?;
    warn_where(false_in_each, warnings, id)?;
    // There is room for all, so that this does not fail.
    errors.append(&mut more)?;
    Ok(())
}

// Warns that the policy's condition is false on each request, where it is.
fn warn_where(
    false_in_each: bool,
    warnings: &mut Vec<ValidationWarning>,
    id: &Text,
) -> Result<(), AllocError>
    ensures warned { OnOk result (warnings.new.items ≡
        (if false_in_each then added same_warning warnings.old.items (impossible id.now) else
        warnings.old.items)) }
    ensures unchanged { OnErr result (warnings.new.items ≡ warnings.old.items) }
{
    if false_in_each {
        warn_impossible(warnings, id)
    } else {
        Ok(())
    }
}

fn warn_impossible(warnings: &mut Vec<ValidationWarning>, id: &Text) -> Result<(), AllocError>
    ensures warned { OnOk result (warnings.new.items ≡
        added same_warning warnings.old.items (impossible id.now)) }
    ensures unchanged { OnErr result (warnings.new.items ≡ warnings.old.items) }
{
    let warning = ValidationWarning::ImpossiblePolicy(ImpossiblePolicy {
        source_loc: None,
        policy_id: id.try_clone()?,
    });
    add_warning(warnings, warning)
}
