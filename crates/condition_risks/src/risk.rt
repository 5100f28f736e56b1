//! What can end the evaluation of a condition with an error.

ghost use Rattle.std.specs.Prelude.{◌≡◌};
ghost use Rattle.policy_expressions.specs.Tree.{mark_of};
ghost use Rattle.condition_risks.specs.Listed.{risk_of, expression_of};

use policy_expressions::{Expr, Loc};
use schema_types::Type;

/// What can end the evaluation of a typed condition with an error.
#[derive(Clone, Copy)]
pub enum Risk<'a> {
    /// The entity that the expression evaluates to may not be in the store.
    Missing(&'a Expr<Option<Type>>),
    /// The sum, difference, product or negation may not fit 64 bits.
    IntegerOverflow(&'a Expr<Option<Type>>),
    /// The datetime or duration may not fit 64 bits.
    ExtensionOverflow(&'a Expr<Option<Type>>),
}

impl<'a> Risk<'a> {
    /// The expression that it speaks of.
    pub fn expression(self) -> &'a Expr<Option<Type>>
        ensures { result.now ≡ expression_of (risk_of self.entry) }
    {
        match self {
            Risk::Missing(e) | Risk::IntegerOverflow(e) | Risk::ExtensionOverflow(e) => e,
        }
    }

    /// The place of that expression in the source, where it is known.
    pub fn place(self) -> Option<Loc>
        ensures { result ≡ (mark_of (expression_of (risk_of self.entry))).loc }
    {
        self.expression().source_loc()
    }
}
