//! The operators of the typechecker whose operands are all reached: what each comes to, by what its
//! operands come to.
#![tactic(auto)]

/// What an operation gives; where it fails, what is held is dropped by calls, and the error goes
/// up. A value that is dropped on its own is taken apart by cases in the proof.
#[macro_export]
macro_rules! or_drop {
    ($fallible:expr, $($held:ident),*) => {
        match $fallible {
            Ok(value) => value,
            Err(error) => {
                $(drop($held);)*
                return Err(error.into());
            }
        }
    };
}

mod attr;
mod binary;
mod call;
mod has;
mod is;
mod known;
mod leaf;
mod like;
mod parts;
mod record;
mod reported;
mod set;
mod unary;

pub use attr::{Access, attr_reported};
pub use binary::{Operator, binary_reported};
pub use call::{call_reported, undefined_reported};
pub use has::has_reported;
pub use is::is_reported;
pub use known::knows_attribute;
pub use leaf::{literal_reported, slot_reported, variable_reported};
pub use like::like_reported;
pub use record::record_reported;
pub use reported::{
    Failure, Part, Reported, Typing, ended_typed, expect, failed, into_tree, parted, rest_of,
    skipped, typed, unreached,
};
pub use set::set_reported;
pub use unary::unary_reported;
