//! The extension of points in time and of durations.

ghost use Rattle.std.specs.Prelude.{◌≡◌, [], ◌∷◌, ◌++◌, IfOk, OnOk, IsTrue, codes, take, drop};
ghost use Rattle.typing_spec.specs.Signatures.{datetime_type, duration_type, long_type};
ghost use Rattle.typing_spec.specs.Types.{unchecked};
ghost use Rattle.typing_spec.specs.Words.{is_word};
ghost use Rattle.typing_spec.specs.Table.{times, all_typed, datetime_extension};

use crate::parts::{binary, constructor, extension_type, unary, word};
use crate::{ArgumentCheck, ExtensionFunctionType, ExtensionSchema};
use policy_values::Name;
use schema_types::Type;
use std::alloc::{AllocError, Global};
use std::collections::BTreeSet;

/// Points in time and durations: how they are made, added and taken apart. Both are compared by `<` and `<=`.
pub fn extension_schema(alloc: Global) -> Result<ExtensionSchema, AllocError>
    ensures { IfOk result (λ e. e ≡ datetime_extension) }
{
    let name = word(alloc, "datetime")?;
    let functions = functions(alloc)?;
    let compared = compared(alloc)?;
    Ok(ExtensionSchema::new(name, functions, compared))
}

// The types that are compared by `<` and `<=`.
fn compared(alloc: Global) -> Result<BTreeSet<Name>, AllocError>
    ensures { IfOk result (λ s. s.keys ≡ codes "datetime" ∷ codes "duration" ∷ []) }
{
    let mut names = BTreeSet::new(alloc);
    names.insert(word(alloc, "datetime")?)?;
    names.insert(word(alloc, "duration")?)?;
    Ok(names)
}

fn functions(alloc: Global) -> Result<Vec<ExtensionFunctionType>, AllocError>
    ensures { IfOk result (λ fs. fs.items ≡ all_typed times) }
{
    let mut functions = constructors(alloc)?;
    functions.push(offset(alloc)?)?;
    functions.push(duration_since(alloc)?)?;
    functions.push(to_date(alloc)?)?;
    functions.push(to_time(alloc)?)?;
    add_units(alloc, &mut functions)?;
    Ok(functions)
}

fn datetime(alloc: Global) -> Result<Type, AllocError>
    ensures { IfOk result (λ t. t ≡ datetime_type) }
{
    extension_type(alloc, "datetime")
}

fn duration(alloc: Global) -> Result<Type, AllocError>
    ensures { IfOk result (λ t. t ≡ duration_type) }
{
    extension_type(alloc, "duration")
}

// The two functions of texts.
fn constructors(alloc: Global) -> Result<Vec<ExtensionFunctionType>, AllocError>
    ensures { IfOk result (λ fs. fs.items ≡ all_typed (take 2 times)) }
{
    let datetime = datetime(alloc)?;
    let duration = duration(alloc)?;
    let mut functions = Vec::new(alloc);
    functions.push(constructor(alloc, "datetime", datetime, ArgumentCheck::Datetime)?)?;
    functions.push(constructor(alloc, "duration", duration, ArgumentCheck::Duration)?)?;
    Ok(functions)
}

// A point in time, later by a duration.
fn offset(alloc: Global) -> Result<ExtensionFunctionType, AllocError>
    ensures { IfOk result
        (λ f. f ≡ unchecked (codes "offset") (datetime_type ∷ duration_type ∷ []) datetime_type) }
{
    let left = datetime(alloc)?;
    let right = duration(alloc)?;
    let return_type = datetime(alloc)?;
    binary(alloc, "offset", left, right, return_type)
}

// The time from one point to another.
fn duration_since(alloc: Global) -> Result<ExtensionFunctionType, AllocError>
    ensures { IfOk result
        (λ f. f ≡ unchecked (codes "durationSince") (datetime_type ∷ datetime_type ∷ []) duration_type) }
{
    let left = datetime(alloc)?;
    let right = datetime(alloc)?;
    let return_type = duration(alloc)?;
    binary(alloc, "durationSince", left, right, return_type)
}

// The start of the day.
fn to_date(alloc: Global) -> Result<ExtensionFunctionType, AllocError>
    ensures { IfOk result (λ f. f ≡ unchecked (codes "toDate") (datetime_type ∷ []) datetime_type) }
{
    let argument = datetime(alloc)?;
    let return_type = datetime(alloc)?;
    unary(alloc, "toDate", argument, return_type)
}

// The time since the start of the day.
fn to_time(alloc: Global) -> Result<ExtensionFunctionType, AllocError>
    ensures { IfOk result (λ f. f ≡ unchecked (codes "toTime") (datetime_type ∷ []) duration_type) }
{
    let argument = datetime(alloc)?;
    let return_type = duration(alloc)?;
    unary(alloc, "toTime", argument, return_type)
}

// Adds how many milliseconds, seconds, minutes, hours and days a duration has.
fn add_units(alloc: Global, functions: &mut Vec<ExtensionFunctionType>) -> Result<(), AllocError>
    ensures { OnOk result (functions.new.items ≡ functions.old.items ++ all_typed (drop 6 times)) }
{
    add_unit(alloc, functions, "toMilliseconds")?;
    add_unit(alloc, functions, "toSeconds")?;
    add_unit(alloc, functions, "toMinutes")?;
    add_unit(alloc, functions, "toHours")?;
    add_unit(alloc, functions, "toDays")?;
    Ok(())
}

// Adds how many of a unit a duration has.
fn add_unit(
    alloc: Global,
    functions: &mut Vec<ExtensionFunctionType>,
    name: &str,
) -> Result<(), AllocError>
    requires { IsTrue (is_word name.now) }
    ensures { OnOk result (functions.new.items ≡
        functions.old.items ++ unchecked name.now (duration_type ∷ []) long_type ∷ []) }
{
    let argument = duration(alloc)?;
    let unit = unary(alloc, name, argument, Type::primitive_long())?;
    functions.push(unit)?;
    Ok(())
}
