//! Which principals of a store may do something, a page at a time.
#![tactic(auto)]

mod candidates;
mod checks;
mod error;
pub mod laws;
mod listing;
mod page;
mod request;
mod scopes;

pub use error::ListError;
pub use listing::list_principals;
pub use page::Page;
