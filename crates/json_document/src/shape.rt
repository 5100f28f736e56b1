//! What a document asks about.

/// What a document asks about, which decides on the members that it may have.
#[derive(Clone, Copy, Debug, PartialEq, Eq)]
pub enum Shape {
    /// One request, `request`.
    Whole,
    /// A list of requests, `requests`.
    Batch,
    /// A list of edits to a set of policies, `edits`, in place of policies.
    Live,
}
