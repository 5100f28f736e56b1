//! How strictly policies are validated.

/// How strictly policies are validated.
#[derive(Clone, Copy, Debug, Default, PartialEq, Eq)]
pub enum ValidationMode {
    /// What a policy compares or collects has one type, and every type that it names is declared.
    #[default]
    Strict,
}
