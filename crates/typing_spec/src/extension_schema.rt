//! The functions and types of an extension.

use crate::ExtensionFunctionType;
use policy_values::Name;
use std::collections::BTreeSet;
use std::fmt;
use std::marker::Model;

/// An extension: its functions, and which of its types are compared by `<` and `<=`.
#[derive(Drop)]
pub struct ExtensionSchema {
    name: Name,
    function_types: Vec<ExtensionFunctionType>,
    types_with_operator_overloading: BTreeSet<Name>,
}

impl Model for ExtensionSchema {
    ghost use Rattle.typing_spec.specs.Types.{Extension, coded_extension};

    ghost Value = { Extension };

    ghost coded = { coded_extension };

    ghost use Rattle.std.specs.BTreeSet.{IsOrdered};
    ghost use Rattle.policy_values.specs.Uid.{text_cmp};

    ghost view = { λ e. record {
      name = e.name;
      function_types = e.function_types.items;
      overloading = e.types_with_operator_overloading.keys;
    } };

    ghost invariant = { λ e. IsOrdered text_cmp e.types_with_operator_overloading };
}

impl ExtensionSchema {
    ghost use Rattle.std.specs.Prelude.{◌≡◌};
    ghost use Rattle.std.specs.List.Sorted.{IsStrictlySortedBy};
    ghost use Rattle.policy_values.specs.Uid.{text_cmp};

    /// The extension of a name, with these functions and these types that are compared by `<` and `<=`.
    pub fn new(
        name: Name,
        function_types: Vec<ExtensionFunctionType>,
        types_with_operator_overloading: BTreeSet<Name>,
    ) -> ExtensionSchema
        ensures { result ≡ record {
          name = name;
          function_types = function_types.items;
          overloading = types_with_operator_overloading.keys;
        } }
    {
        let _count = types_with_operator_overloading.len();
        ExtensionSchema {
            name,
            function_types,
            types_with_operator_overloading,
        }
    }

    /// The name of the extension.
    pub fn name(&self) -> &Name
        ensures { result.now ≡ self.now.name }
    {
        &self.name
    }

    /// The functions of the extension, in the order in which they were given.
    pub fn function_types(&self) -> &[ExtensionFunctionType]
        ensures { result.now ≡ self.now.function_types }
    {
        self.function_types.as_slice()
    }

    /// The types of the extension that are compared by `<` and `<=`, ascending.
    pub fn types_with_operator_overloading(&self) -> &BTreeSet<Name>
        ensures value { result.now.keys ≡ self.now.overloading }
        ensures ascending { IsStrictlySortedBy text_cmp self.now.overloading }
    {
        &self.types_with_operator_overloading
    }
}

impl fmt::Debug for ExtensionSchema {
    ghost use Rattle.std.specs.Prelude.{Some};
    ghost use Rattle.typing_spec.specs.Types.{schema_text};

    ghost debug_output = { λ e. Some (schema_text e) };

    fn fmt<W: fmt::Write>(&self, f: &mut fmt::Formatter<W>) -> fmt::Result {
        let name = self.name();
        write!(f, "<extension schema {name}>")
    }
}
