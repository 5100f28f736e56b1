//! The walk through a condition in an environment, which gives its type or says what it found, and the
//! operators of which an operand may not be reached: `&&`, `||` and `if`.
#![tactic(auto)]

mod and;
mod conditional;
mod conditions;
mod errors;
mod known;
mod or;
mod policy_check;
mod setting;
mod sides;
mod walks;

pub use and::and_sides;
pub use conditional::if_parts;
pub use conditions::{check_condition, check_walk, is_too_deep, only_too_deep};
pub use or::or_sides;
pub use policy_check::PolicyCheck;
pub use setting::{Extensions, Setting};
