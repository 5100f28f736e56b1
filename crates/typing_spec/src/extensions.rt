//! Extensions that are used together.

use crate::gathered::{by_name, functions_of, have_function, overloading_of};
use crate::{ExtensionFunctionType, ExtensionSchema};
use policy_values::Name;
use std::alloc::{AllocError, AllocFailed, Global};
use std::collections::{BTreeMap, BTreeSet};
use std::marker::Model;
use thiserror::Error;

/// Why extensions cannot be used together.
#[derive(Debug, Drop, Error)]
pub enum ExtensionInitializationError {
    /// A function of an extension has the name of an earlier function.
    #[error("{0}")]
    FuncMultiplyDefined(FuncMultiplyDefinedError),
    /// Memory ran out.
    #[error("out of memory")]
    OutOfMemory,
}

/// Several functions have one name.
#[derive(Debug, Drop, Error)]
#[error("extension function `{name}` is defined multiple times")]
pub struct FuncMultiplyDefinedError {
    /// The name.
    pub name: Name,
}

impl From<AllocError> for ExtensionInitializationError {
    ghost use Rattle.std.specs.Prelude.{◌≡◌};
    ghost use Rattle.typing_spec.specs.declared.extensions.ExtensionInitializationError.TheVariants.{OutOfMemory};

    ghost from_gives = { λ _ e. e ≡ OutOfMemory };

    fn from(_error: AllocError) -> ExtensionInitializationError {
        ExtensionInitializationError::OutOfMemory
    }
}

impl<T: Drop> From<AllocFailed<T>> for ExtensionInitializationError {
    ghost use Rattle.std.specs.Prelude.{◌≡◌};
    ghost use Rattle.typing_spec.specs.declared.extensions.ExtensionInitializationError.TheVariants.{OutOfMemory};

    ghost from_gives = { λ _ e. e ≡ OutOfMemory };

    fn from(_error: AllocFailed<T>) -> ExtensionInitializationError {
        ExtensionInitializationError::OutOfMemory
    }
}

/// Extensions that are used together, no two of whose functions have one name.
#[derive(Debug, Drop)]
pub struct ExtensionSchemas<'a> {
    extension_schemas: &'a [ExtensionSchema],
    function_types: BTreeMap<Name, &'a ExtensionFunctionType>,
    types_with_operator_overloading: BTreeSet<Name>,
}

impl<'a> Model for ExtensionSchemas<'a> {
    ghost use Rattle.typing_spec.specs.Types.{Extensions, coded_extensions};

    ghost Value = { Extensions };

    ghost coded = { coded_extensions };

    ghost use Rattle.std.specs.BTreeSet as sorted;
    ghost use Rattle.policy_values.specs.Uid.{text_cmp};
    ghost use Rattle.typing_spec.specs.Table.{functions_in};
    ghost use Rattle.typing_spec.specs.ByName.{AreByName};

    ghost view = { λ s. record {
      function_types = functions_in s.extension_schemas.now;
      overloading = s.types_with_operator_overloading.keys;
    } };

    ghost invariant = { λ s. AreByName (functions_in s.extension_schemas.now) s.function_types ×
        sorted.IsOrdered text_cmp s.types_with_operator_overloading };
}

impl<'a> ExtensionSchemas<'a> {
    ghost use Rattle.std.specs.Prelude.{◌≡◌, ◌↔◌, ℕ, [], ◌∷◌, List, IfOk, IsTrue, Contains, codes, MatchResult};
    ghost use Rattle.std.specs.Option.{option_copied, option_map};
    ghost use Rattle.std.specs.List.Sorted.{IsStrictlySortedBy};
    ghost use Rattle.policy_values.specs.Uid.{text_cmp};
    ghost use Rattle.policy_expressions.specs.Functions.{function_of};
    ghost use Rattle.typing_spec.specs.Table.{all_extensions, functions_in, overloading_in, function_at, is_function, typed, names_of, AreOnce};
    ghost use Rattle.typing_spec.specs.Refused.{IsInitializationRefused};

    /// These extensions. Errs with `FuncMultiplyDefined` exactly where a function has the name of an earlier
    /// one, and names the first that has.
    pub fn specific_extension_schemas(
        alloc: Global,
        extension_schemas: &'a [ExtensionSchema],
    ) -> Result<ExtensionSchemas<'a>, ExtensionInitializationError>
        ensures functions { IfOk result (λ s. s.function_types ≡ functions_in extension_schemas.now) }
        ensures overloading { IfOk result (λ s. s.overloading ≡ overloading_in extension_schemas.now) }
        ensures repeated { MatchResult result (λ _. AreOnce (names_of (functions_in extension_schemas.now)))
            (IsInitializationRefused (names_of (functions_in extension_schemas.now))) }
    {
        let functions = functions_of(alloc, extension_schemas)?;
        let function_types = by_name(alloc, &functions)?;
        let types_with_operator_overloading = overloading_of(alloc, extension_schemas)?;
        Ok(ExtensionSchemas {
            extension_schemas,
            function_types,
            types_with_operator_overloading,
        })
    }

    /// All extensions, as `all_objects` gives them.
    pub fn all_available(
        alloc: Global,
        objects: &'a [ExtensionSchema],
    ) -> Result<ExtensionSchemas<'a>, AllocError>
        requires { objects.now ≡ all_extensions }
        ensures functions { IfOk result (λ s. s.function_types ≡ functions_in all_extensions) }
        ensures signatures { IfOk result (λ s. (name : List ℕ) →
            function_at s.function_types name ≡ option_map (typed name) (function_of name)) }
        ensures overloading { IfOk result (λ s. s.overloading ≡ codes "datetime" ∷ codes "duration" ∷ []) }
    {
        match ExtensionSchemas::specific_extension_schemas(alloc, objects) {
            Ok(extensions) => Ok(extensions),
            Err(ExtensionInitializationError::OutOfMemory) => Err(AllocError),
            Err(ExtensionInitializationError::FuncMultiplyDefined(_)) => unreachable!(),
        }
    }

    /// The function of a name; none exactly where no extension has one.
    pub fn func_type(&self, name: &Name) -> Option<&'a ExtensionFunctionType>
        ensures { option_copied result ≡ function_at self.now.function_types name.now }
    {
        self.function_types.get(name).copied()
    }

    /// Whether an extension has a function of this name. It takes no memory.
    pub fn has_function(&self, name: &str) -> bool
        ensures { result ≡ is_function self.now.function_types name.now }
    {
        have_function(self.extension_schemas, name)
    }

    /// Whether the type of a name is compared by `<` and `<=`.
    pub fn has_type_with_operator_overloading(&self, name: &Name) -> bool
        ensures { IsTrue result ↔ Contains self.now.overloading name.now }
    {
        self.types_with_operator_overloading.contains(name)
    }

    /// The types that are compared by `<` and `<=`, ascending.
    pub fn types_with_operator_overloading(&self) -> &BTreeSet<Name>
        ensures value { result.now.keys ≡ self.now.overloading }
        ensures ascending { IsStrictlySortedBy text_cmp self.now.overloading }
    {
        &self.types_with_operator_overloading
    }
}
