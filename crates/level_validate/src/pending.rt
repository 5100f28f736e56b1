//! Fields that are asked for.

use policy_values::Text;

/// The fields that are asked for of the record that a target gives, the outermost first.
#[derive(Drop)]
pub(crate) enum Pending<'a> {
    /// No more of them.
    End,
    /// One of them, and then those of its value.
    Field(&'a Text, &'a Pending<'a>),
}
