//! The extension of decimals.

ghost use Rattle.std.specs.Prelude.{◌≡◌, [], ◌∷◌, ◌++◌, IfOk, OnOk, IsTrue};
ghost use Rattle.typing_spec.specs.Signatures.{decimal_type, bool_type};
ghost use Rattle.typing_spec.specs.Types.{unchecked};
ghost use Rattle.typing_spec.specs.Words.{is_word};
ghost use Rattle.typing_spec.specs.Table.{decimals, all_typed, decimal_extension};

use crate::parts::{binary, constructor, extension_type, word};
use crate::{ArgumentCheck, ExtensionFunctionType, ExtensionSchema};
use schema_types::Type;
use std::alloc::{AllocError, Global};
use std::collections::BTreeSet;

/// Decimals: how they are made and compared.
pub fn extension_schema(alloc: Global) -> Result<ExtensionSchema, AllocError>
    ensures { IfOk result (λ e. e ≡ decimal_extension) }
{
    let name = word(alloc, "decimal")?;
    let functions = functions(alloc)?;
    Ok(ExtensionSchema::new(name, functions, BTreeSet::new(alloc)))
}

fn functions(alloc: Global) -> Result<Vec<ExtensionFunctionType>, AllocError>
    ensures { IfOk result (λ fs. fs.items ≡ all_typed decimals) }
{
    let return_type = decimal(alloc)?;
    let mut functions = Vec::new(alloc);
    functions.push(constructor(alloc, "decimal", return_type, ArgumentCheck::Decimal)?)?;
    add_comparison(alloc, &mut functions, "lessThan")?;
    add_comparison(alloc, &mut functions, "lessThanOrEqual")?;
    add_comparison(alloc, &mut functions, "greaterThan")?;
    add_comparison(alloc, &mut functions, "greaterThanOrEqual")?;
    Ok(functions)
}

fn decimal(alloc: Global) -> Result<Type, AllocError>
    ensures { IfOk result (λ t. t ≡ decimal_type) }
{
    extension_type(alloc, "decimal")
}

// Adds a comparison of two decimals.
fn add_comparison(
    alloc: Global,
    functions: &mut Vec<ExtensionFunctionType>,
    name: &str,
) -> Result<(), AllocError>
    requires { IsTrue (is_word name.now) }
    ensures { OnOk result (functions.new.items ≡
        functions.old.items ++ unchecked name.now (decimal_type ∷ decimal_type ∷ []) bool_type ∷ []) }
{
    let left = decimal(alloc)?;
    let right = decimal(alloc)?;
    let comparison = binary(alloc, name, left, right, Type::primitive_boolean())?;
    functions.push(comparison)?;
    Ok(())
}
