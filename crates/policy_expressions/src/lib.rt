//! Expressions: trees, their builders, copies, shapes and slots.
#![tactic(auto)]

mod expr;
mod fill;
mod functions;
mod kinds;
pub mod laws;
mod note;
mod pattern;
mod shape;
mod slots;

pub use expr::{BuildError, Expr, ExprKind};
pub use functions::{BinaryFunction, ExtensionFunction, UnaryFunction, extension_function};
pub use kinds::{BinaryOp, Literal, Loc, PatternElem, SlotId, SlotValues, UnaryOp, Var};
pub use note::Note;
pub use pattern::Pattern;
