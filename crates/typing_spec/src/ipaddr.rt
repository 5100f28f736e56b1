//! The extension of ranges of IP addresses.

ghost use Rattle.std.specs.Prelude.{◌≡◌, [], ◌∷◌, ◌++◌, IfOk, OnOk, IsTrue, codes};
ghost use Rattle.typing_spec.specs.Signatures.{ip_type, bool_type};
ghost use Rattle.typing_spec.specs.Types.{unchecked};
ghost use Rattle.typing_spec.specs.Words.{is_word};
ghost use Rattle.typing_spec.specs.Table.{ranges, all_typed, ip_extension};

use crate::parts::{binary, constructor, extension_type, unary, word};
use crate::{ArgumentCheck, ExtensionFunctionType, ExtensionSchema};
use schema_types::Type;
use std::alloc::{AllocError, Global};
use std::collections::BTreeSet;

/// Ranges of IP addresses: how they are made and tested.
pub fn extension_schema(alloc: Global) -> Result<ExtensionSchema, AllocError>
    ensures { IfOk result (λ e. e ≡ ip_extension) }
{
    let name = word(alloc, "ipaddr")?;
    let functions = functions(alloc)?;
    Ok(ExtensionSchema::new(name, functions, BTreeSet::new(alloc)))
}

fn functions(alloc: Global) -> Result<Vec<ExtensionFunctionType>, AllocError>
    ensures { IfOk result (λ fs. fs.items ≡ all_typed ranges) }
{
    let return_type = range(alloc)?;
    let mut functions = Vec::new(alloc);
    functions.push(constructor(alloc, "ip", return_type, ArgumentCheck::Ip)?)?;
    add_test(alloc, &mut functions, "isIpv4")?;
    add_test(alloc, &mut functions, "isIpv6")?;
    add_test(alloc, &mut functions, "isLoopback")?;
    add_test(alloc, &mut functions, "isMulticast")?;
    functions.push(in_range(alloc)?)?;
    Ok(functions)
}

fn range(alloc: Global) -> Result<Type, AllocError>
    ensures { IfOk result (λ t. t ≡ ip_type) }
{
    extension_type(alloc, "ipaddr")
}

// Adds a test of a range.
fn add_test(
    alloc: Global,
    functions: &mut Vec<ExtensionFunctionType>,
    name: &str,
) -> Result<(), AllocError>
    requires { IsTrue (is_word name.now) }
    ensures { OnOk result (functions.new.items ≡
        functions.old.items ++ unchecked name.now (ip_type ∷ []) bool_type ∷ []) }
{
    let argument = range(alloc)?;
    let test = unary(alloc, name, argument, Type::primitive_boolean())?;
    functions.push(test)?;
    Ok(())
}

// Whether a range lies inside another.
fn in_range(alloc: Global) -> Result<ExtensionFunctionType, AllocError>
    ensures { IfOk result (λ f. f ≡ unchecked (codes "isInRange") (ip_type ∷ ip_type ∷ []) bool_type) }
{
    let left = range(alloc)?;
    let right = range(alloc)?;
    binary(alloc, "isInRange", left, right, Type::primitive_boolean())
}
