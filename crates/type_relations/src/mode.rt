//! The two modes of subtyping.

/// How far subtyping goes.
#[derive(Clone, Copy, Debug, PartialEq, Eq)]
pub enum SubtypeMode {
    /// Types of one shape alone, as results are joined.
    Strict,
    /// Also unions of entity types, wider records and open ones, as operands are checked.
    Permissive,
}
