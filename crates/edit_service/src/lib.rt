//! What edits of policies change, and which forbids may end with an error, as a service: a document, and lines for each
//! environment of its schema, or for each forbid.
#![tactic(auto)]

mod acceptance;
mod change;
mod changes;
mod document;
mod fault;
mod forbids;
mod reply;
mod runner;
mod source;
mod status;
mod text;
mod words;

pub use change::Change;
pub use document::{EditDocument, read_edit_document};
pub use fault::EditFault;
pub use reply::Reply;
pub use runner::run;
pub use status::Status;
pub use words::{Command, command_of};
