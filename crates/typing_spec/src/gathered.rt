// What is gathered from several extensions.
ghost use Rattle.std.specs.Prelude.{◌≡◌, ◌++◌, IfOk, OnOk, MatchResult};
ghost use Rattle.std.specs.BTreeSet.{IsOrdered};
ghost use Rattle.policy_values.specs.Uid.{text_cmp};
ghost use Rattle.schema_types.specs.Names.{union};
ghost use Rattle.std.specs.Ordering.{is_eq};
ghost use Rattle.typing_spec.specs.Table.{is_function, functions_in, overloading_in, names_of, AreOnce};
ghost use Rattle.typing_spec.specs.ByName.{AreByName, pointed};
ghost use Rattle.typing_spec.specs.Refused.{IsInitializationRefused};

use crate::{
    ExtensionFunctionType, ExtensionInitializationError, ExtensionSchema, FuncMultiplyDefinedError,
};
use policy_values::Name;
use std::alloc::{AllocError, Global};
use std::cmp::Ordering;
use std::collections::{BTreeMap, BTreeSet};

// The functions of the extensions, in their order.
pub(crate) fn functions_of<'a>(
    alloc: Global,
    extension_schemas: &'a [ExtensionSchema],
) -> Result<Vec<&'a ExtensionFunctionType>, AllocError>
    ensures { IfOk result (λ fs. pointed fs.items ≡ functions_in extension_schemas.now) }
{
    let mut functions = Vec::new(alloc);
    for schema in extension_schemas {
        add_functions(&mut functions, schema)?;
    }
    Ok(functions)
}

// Adds the functions of an extension behind the others.
fn add_functions<'a>(
    functions: &mut Vec<&'a ExtensionFunctionType>,
    schema: &'a ExtensionSchema,
) -> Result<(), AllocError>
    ensures { OnOk result
        (pointed functions.new.items ≡ pointed functions.old.items ++ schema.now.function_types) }
{
    let added = schema.function_types();
    for function in added {
        functions.push(function)?;
    }
    Ok(())
}

// Whether one of the extensions has a function of this name.
pub(crate) fn have_function(extension_schemas: &[ExtensionSchema], name: &str) -> bool
    ensures { result ≡ is_function (functions_in extension_schemas.now) name.now }
{
    for schema in extension_schemas {
        if has_function(schema, name) {
            return true;
        }
    }
    false
}

fn has_function(schema: &ExtensionSchema, name: &str) -> bool
    ensures { result ≡ is_function schema.now.function_types name.now }
{
    schema
        .function_types()
        .iter()
        .any(|function| is_named(function, name))
}

fn is_named(function: &ExtensionFunctionType, name: &str) -> bool
    ensures { result ≡ is_eq (text_cmp name.now function.now.name) }
{
    name.cmp(function.name().as_str()) == Ordering::Equal
}

// The functions under their names.
pub(crate) fn by_name<'a>(
    alloc: Global,
    functions: &[&'a ExtensionFunctionType],
) -> Result<BTreeMap<Name, &'a ExtensionFunctionType>, ExtensionInitializationError>
    ensures found { IfOk result (AreByName (pointed functions.now)) }
    ensures repeated { MatchResult result (λ _. AreOnce (names_of (pointed functions.now)))
        (IsInitializationRefused (names_of (pointed functions.now))) }
{
    let mut by_name = BTreeMap::new(alloc);
    for function in functions {
        let name = function.name();
        if by_name.insert(name.try_clone()?, *function)?.is_some() {
            let name = name.try_clone()?;
            return Err(ExtensionInitializationError::FuncMultiplyDefined(FuncMultiplyDefinedError {
                name,
            }));
        }
    }
    Ok(by_name)
}

// The types of the extensions that are compared by `<` and `<=`.
pub(crate) fn overloading_of(
    alloc: Global,
    extension_schemas: &[ExtensionSchema],
) -> Result<BTreeSet<Name>, AllocError>
    ensures value { IfOk result (λ names. names.keys ≡ overloading_in extension_schemas.now) }
    ensures ordered { IfOk result (IsOrdered text_cmp) }
{
    let mut names = BTreeSet::new(alloc);
    for schema in extension_schemas {
        add_names(&mut names, schema.types_with_operator_overloading())?;
    }
    Ok(names)
}

// Adds names to a set.
fn add_names(names: &mut BTreeSet<Name>, added: &BTreeSet<Name>) -> Result<(), AllocError>
    requires { IsOrdered text_cmp names.old }
    ensures value { OnOk result (names.new.keys ≡ union names.old.keys added.now.keys) }
    ensures ordered { OnOk result (IsOrdered text_cmp names.new) }
{
    for name in added.iter() {
        names.insert(name.try_clone()?)?;
    }
    Ok(())
}
