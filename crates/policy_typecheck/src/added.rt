//! Lists that grow by what they do not hold.

ghost use Rattle.std.specs.Prelude.{◌≡◌, ◌++◌, IfOk, OnOk, OnErr, map};
ghost use Rattle.std.specs.HashSet.{IsUnique};
ghost use Rattle.policy_typecheck.specs.Added.{added, all_added, holds, same_error, same_warning};
ghost use Rattle.policy_typecheck.specs.Missing.{lends, GivesSame, equal_errors, unmarked};

use finding_laws::laws::{error_equality_is_exact, warning_equality_is_exact};
use findings::{ValidationError, ValidationWarning};
use indexmap::IndexSet;
use std::alloc::{AllocError, Global};

/// Adds a warning, unless an equal one is there.
pub(crate) fn add_warning(
    warnings: &mut Vec<ValidationWarning>,
    warning: ValidationWarning,
) -> Result<(), AllocError>
    ensures added { OnOk result (warnings.new.items ≡ added same_warning warnings.old.items warning) }
    ensures unchanged { OnErr result (warnings.new.items ≡ warnings.old.items) }
{
    warning_equality_is_exact();
    if warnings.contains(&warning) {
        drop(warning);
        return Ok(());
    }
    warnings.push(warning)?;
    Ok(())
}

/// Adds errors to those that are found, each once.
pub(crate) fn add_errors(
    found: &mut IndexSet<ValidationError>,
    more: Vec<ValidationError>,
) -> Result<(), AllocError>
    ensures { OnOk result (found.new.keys ≡ all_added same_error found.old.keys more.items) }
{
    for error in more {
        add_error(found, error)?;
    }
    Ok(())
}

fn add_error(
    found: &mut IndexSet<ValidationError>,
    error: ValidationError,
) -> Result<(), AllocError>
    ensures { OnOk result (found.new.keys ≡ added same_error found.old.keys error) }
{
    error_equality_is_exact();
    found.insert(error)?;
    Ok(())
}

/// What is found and has no equal among the errors.
pub(crate) fn missing(
    alloc: Global,
    errors: &[ValidationError],
    found: IndexSet<ValidationError>,
) -> Result<Vec<ValidationError>, AllocError>
    ensures { IfOk result (λ more. errors.now ++ more.items ≡
        all_added same_error errors.now found.keys) }
{
    error_equality_is_exact();
    let known = known_among(alloc, errors, &found)?;
    let more = unmarked(alloc, found, known)?;
    Ok(more)
}

// Of each that is found, whether an equal one is among the errors.
fn known_among<'a>(
    alloc: Global,
    errors: &'a [ValidationError],
    found: &'a IndexSet<ValidationError>,
) -> Result<Vec<bool>, AllocError>
    ensures known { IfOk result (λ known. known.items ≡
        map (holds equal_errors errors.now) found.now.keys) }
    ensures unique { OnOk result (IsUnique equal_errors found.now) }
{
    let held = set_of(alloc, errors)?;
    let mut known = Vec::new(alloc);
    for error in found.iter() {
        known.push(is_held(&held, error))?;
    }
    Ok(known)
}

fn set_of<'a>(
    alloc: Global,
    errors: &'a [ValidationError],
) -> Result<IndexSet<&'a ValidationError>, AllocError>
    ensures { IfOk result (λ held. GivesSame equal_errors held.keys errors.now) }
{
    let mut held = IndexSet::new(alloc);
    for error in errors {
        held.insert(error)?;
    }
    Ok(held)
}

fn is_held<'a>(held: &IndexSet<&'a ValidationError>, error: &'a ValidationError) -> bool
    ensures { result ≡ lends equal_errors held.now.keys error.now }
{
    held.contains(&error)
}

// What is found and not marked.
fn unmarked(
    alloc: Global,
    found: IndexSet<ValidationError>,
    known: Vec<bool>,
) -> Result<Vec<ValidationError>, AllocError>
    ensures { IfOk result (λ more. more.items ≡ unmarked found.keys known.items) }
{
    let mut marks = known.into_iter();
    let mut more = Vec::new(alloc);
    for error in found {
        if marks.next() == Some(true) {
            drop(error);
        } else {
            more.push(error)?;
        }
    }
    Ok(more)
}
