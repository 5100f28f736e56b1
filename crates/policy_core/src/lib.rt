//! Evaluation of expressions.
#![tactic(auto)]

mod calls;
mod eval;
pub mod laws;
mod like;
mod operators;
mod outcome;
mod pieces;

pub use entity_store::{Context, Entities, EntitiesError, Entity, Request, RequestType};
pub use eval::evaluate;
pub use outcome::{EvalError, Outcome};
pub use policy_expressions::{
    BinaryFunction, BinaryOp, BuildError, Expr, ExprKind, ExtensionFunction, Literal, Loc, Note,
    Pattern, PatternElem, SlotId, SlotValues, UnaryFunction, UnaryOp, Var, extension_function,
};
pub use policy_ext::{DateTimeValue, Decimal, Duration, IpAddr};
pub use policy_values::{
    Eid, EntityType, EntityUID, Name, Quoted, Text, Value, ValueKind, push_entry, read_datetime,
    read_decimal, read_duration, read_ip, try_clone_fields,
};
