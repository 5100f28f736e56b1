//! What an extension function takes and gives.

use crate::ArgumentCheck;
use crate::arguments::{check_text, only_text};
use policy_expressions::Expr;
use policy_values::{Name, Text};
use schema_types::Type;
use std::alloc::{AllocError, Global};
use std::fmt;
use std::marker::Model;

/// What an extension function takes and gives.
#[derive(Drop)]
pub struct ExtensionFunctionType {
    name: Name,
    argument_types: Vec<Type>,
    return_type: Type,
    argument_check: Option<ArgumentCheck>,
}

impl Model for ExtensionFunctionType {
    ghost use Rattle.typing_spec.specs.Types.{FunctionType, coded_function_type};

    ghost Value = { FunctionType };

    ghost coded = { coded_function_type };

    ghost view = { λ f. record {
      name = f.name;
      signature = record { arguments = f.argument_types.items; result = f.return_type };
      check = f.argument_check;
    } };
}

impl ExtensionFunctionType {
    ghost use Rattle.std.specs.Prelude.{◌≡◌, IfOk, is_some};
    ghost use Rattle.std.specs.Result.{result_err};
    ghost use Rattle.policy_expressions.specs.Tree.{trees_of};
    ghost use Rattle.typing_spec.specs.Arguments.{refusal};

    /// The function of a name that takes arguments of these types and gives a value of that type. Where there
    /// is an argument check, a string literal that is its only argument has to pass it.
    pub fn new(
        name: Name,
        argument_types: Vec<Type>,
        return_type: Type,
        argument_check: Option<ArgumentCheck>,
    ) -> ExtensionFunctionType
        ensures { result ≡ record {
          name = name;
          signature = record { arguments = argument_types.items; result = return_type };
          check = argument_check;
        } }
    {
        ExtensionFunctionType {
            name,
            argument_types,
            return_type,
            argument_check,
        }
    }

    /// The name of the function.
    pub fn name(&self) -> &Name
        ensures { result.now ≡ self.now.name }
    {
        &self.name
    }

    /// The types of the arguments, in their order.
    pub fn argument_types(&self) -> &[Type]
        ensures { result.now ≡ self.now.signature.arguments }
    {
        self.argument_types.as_slice()
    }

    /// The type of the result.
    pub fn return_type(&self) -> &Type
        ensures { result.now ≡ self.now.signature.result }
    {
        &self.return_type
    }

    /// Whether a literal argument is checked.
    pub fn has_argument_check(&self) -> bool
        ensures { result ≡ is_some self.now.check }
    {
        self.argument_check.is_some()
    }

    /// Checks the arguments of a call. Errs with what there is to say exactly where there is an argument
    /// check, the arguments are one string literal, and its text does not pass the check.
    pub fn check_arguments<T>(
        &self,
        alloc: Global,
        arguments: &[Expr<T>],
    ) -> Result<Result<(), Text>, AllocError>
        ensures { IfOk result
            (λ checked. result_err checked ≡ refusal self.now.check (trees_of arguments.now)) }
    {
        match self.argument_check {
            Some(check) => check_text(alloc, check, only_text(arguments)),
            None => Ok(Ok(())),
        }
    }
}

impl fmt::Debug for ExtensionFunctionType {
    ghost use Rattle.std.specs.Prelude.{Some};
    ghost use Rattle.typing_spec.specs.Types.{function_type_text};

    ghost debug_output = { λ f. Some (function_type_text f) };

    fn fmt<W: fmt::Write>(&self, f: &mut fmt::Formatter<W>) -> fmt::Result {
        let name = self.name();
        write!(f, "<extension function type {name}>")
    }
}
