// What extensions are made of.
ghost use Rattle.std.specs.Prelude.{◌≡◌, [], ◌∷◌, IfOk, IsTrue, Some};
ghost use Rattle.policy_values.specs.Name.{IsName};
ghost use Rattle.schema_types.specs.Ty.{extension};
ghost use Rattle.typing_spec.specs.Signatures.{string_type};
ghost use Rattle.typing_spec.specs.Types.{unchecked};
ghost use Rattle.typing_spec.specs.Words.{is_word};

use crate::{ArgumentCheck, ExtensionFunctionType};
use policy_values::Name;
use schema_types::Type;
use std::alloc::{AllocError, Global};

// The name that a word is.
#[tactic(auto, using(crate::proofs::Words::word_is_name))]
pub(crate) fn word(alloc: Global, text: &str) -> Result<Name, AllocError>
    requires { IsTrue (is_word text.now) }
    ensures { IfOk result (λ n. n ≡ text.now) }
{
    let name = Name::parse(alloc, text)?;
    Ok(name.unwrap())
}

// The type of the values of an extension.
pub(crate) fn extension_type(alloc: Global, name: &str) -> Result<Type, AllocError>
    requires { IsTrue (is_word name.now) }
    ensures { IfOk result (λ t. t ≡ extension name.now) }
{
    Ok(Type::extension(word(alloc, name)?))
}

// The function that makes values of a type of texts.
pub(crate) fn constructor(
    alloc: Global,
    name: &str,
    return_type: Type,
    check: ArgumentCheck,
) -> Result<ExtensionFunctionType, AllocError>
    requires { IsTrue (is_word name.now) }
    ensures { IfOk result (λ f. f ≡ record {
      name = name.now;
      signature = record { arguments = string_type ∷ []; result = return_type };
      check = Some check;
    }) }
{
    let name = word(alloc, name)?;
    let argument_types = vec![in alloc; Type::primitive_string()]?;
    Ok(ExtensionFunctionType::new(name, argument_types, return_type, Some(check)))
}

// A function of one argument.
pub(crate) fn unary(
    alloc: Global,
    name: &str,
    argument: Type,
    return_type: Type,
) -> Result<ExtensionFunctionType, AllocError>
    requires { IsTrue (is_word name.now) }
    ensures { IfOk result (λ f. f ≡ unchecked name.now (argument ∷ []) return_type) }
{
    let name = word(alloc, name)?;
    let argument_types = vec![in alloc; argument]?;
    Ok(ExtensionFunctionType::new(name, argument_types, return_type, None))
}

// A function of two arguments.
pub(crate) fn binary(
    alloc: Global,
    name: &str,
    left: Type,
    right: Type,
    return_type: Type,
) -> Result<ExtensionFunctionType, AllocError>
    requires { IsTrue (is_word name.now) }
    ensures { IfOk result (λ f. f ≡ unchecked name.now (left ∷ right ∷ []) return_type) }
{
    let name = word(alloc, name)?;
    let argument_types = vec![in alloc; left, right]?;
    Ok(ExtensionFunctionType::new(name, argument_types, return_type, None))
}
