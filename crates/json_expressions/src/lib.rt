//! Expressions in JSON.
#![tactic(auto)]

mod exprs;
mod forms;
mod lists;
mod nesting;
mod parts;
mod reads;

pub use exprs::read_expr;
pub use forms::Junction;
pub use nesting::Bounded;
pub use reads::{binary, joined, unary};
