//! Where conditions are typed.

ghost use Rattle.std.specs.Prelude.{◌≡◌};
ghost use Rattle.std.specs.Option.{option_map};
ghost use Rattle.policy_expressions.specs.Functions.{function_of};
ghost use Rattle.typecheck_walk.specs.Known.{KnowsFunctions};

use policy_values::Name;
use schema_core::{RequestEnv, ValidatorSchema};
use std::alloc::Global;
use std::marker::Model;
use typecheck_rules::{CalledFunction, called_function};
use typing_spec::ExtensionSchemas;

/// Extensions in which every extension function is found.
#[derive(Debug, Drop)]
pub struct Extensions<'a, 'x> {
    schemas: &'a ExtensionSchemas<'x>,
}

impl<'a, 'x> Model for Extensions<'a, 'x> {
    ghost use Rattle.typing_spec.specs.Types.{Extensions, coded_extensions};

    ghost Value = { Extensions };

    ghost coded = { coded_extensions };

    ghost view = { λ e. e.schemas.now };

    ghost use Rattle.typecheck_walk.specs.Known.{KnowsFunctions};

    ghost invariant = { λ e. KnowsFunctions e.schemas.now };
}

impl<'a, 'x> Extensions<'a, 'x> {
    /// Those of the extensions.
    pub fn new(schemas: &'a ExtensionSchemas<'x>) -> Extensions<'a, 'x>
        requires { KnowsFunctions schemas.now }
        ensures { result ≡ schemas.now }
    {
        Extensions { schemas }
    }

    /// The function of a name.
    pub fn called(&self, name: &Name) -> Option<CalledFunction<'x>>
        ensures { option_map (λ c. c.function) result ≡ function_of name.now }
    {
        called_function(self.schemas, name)
    }
}

/// The schema, the environment and the extensions under which an expression is typed.
#[derive(Drop)]
pub struct Setting<'a, 's, 'e, 'x> {
    /// Where memory is taken from.
    pub alloc: Global,
    /// The schema.
    pub schema: &'s ValidatorSchema,
    /// The environment.
    pub env: &'a RequestEnv<'a>,
    /// The extensions.
    pub extensions: &'e Extensions<'s, 'x>,
}
