//! What evaluation gives.

use crate::{EntityUID, Value};
use std::fmt;

/// Why an expression has no value.
#[derive(Debug, Drop, PartialEq, Eq)]
pub enum EvalError {
    /// An attribute or a tag was asked of an entity that the store does not hold.
    MissingEntity(EntityUID),
    /// The entity or the record has no such attribute.
    MissingAttribute,
    /// The entity has no such tag.
    MissingTag,
    /// An operand is not of the kind that its operator asks for.
    TypeFault,
    /// A number does not fit 64 bits.
    IntegerOverflow,
    /// A datetime or a duration does not fit 64 bits.
    ExtensionOverflow,
    /// The text of an extension value stands for none.
    ExtensionText,
    /// There is no extension function of the name.
    UnknownFunction,
    /// The extension function takes another number of arguments.
    Arity,
}

impl fmt::Display for EvalError {
    ghost use Rattle.std.specs.Prelude.{Some};
    ghost use Rattle.policy_core.specs.Show.{error_text};

    ghost output = { λ e. Some (error_text e) };

    fn fmt<W: fmt::Write>(&self, f: &mut fmt::Formatter<W>) -> fmt::Result {
        match self {
            EvalError::MissingEntity(uid) => write!(f, "entity `{uid}` does not exist"),
            EvalError::MissingAttribute => f.write_str("attribute does not exist"),
            EvalError::MissingTag => f.write_str("tag does not exist"),
            EvalError::TypeFault => f.write_str("operand of a wrong type"),
            EvalError::IntegerOverflow => f.write_str("integer overflow"),
            EvalError::ExtensionOverflow => f.write_str("datetime or duration overflow"),
            EvalError::ExtensionText => f.write_str("text of no extension value"),
            EvalError::UnknownFunction => f.write_str("unknown extension function"),
            EvalError::Arity => f.write_str("wrong number of arguments"),
        }
    }
}

/// What an expression evaluates to: its value, or its first error.
#[derive(Debug, Drop, PartialEq, Eq)]
pub enum Outcome {
    /// The value.
    Value(Value),
    /// The first error.
    Error(EvalError),
}
