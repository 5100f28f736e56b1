//! The directory as a service: entities from a document into a file, decisions on requests that come as
//! lines, and whether all rows conform.
#![tactic(auto)]

mod answers;
mod attempt;
mod decisions;
mod document;
mod files;
mod lines;
mod reply;
mod requests;
mod row_decisions;
mod row_fault;
mod runner;
mod status;
mod words;

pub use answers::answer_line;
pub use byte_streams::{Ended, Line, Lines};
pub use document::read_bytes;
pub use entity_manifest::{EntityManifest, EntityManifestError, Steps, compute_entity_manifest};
pub use lines::{LineDecider, answer_lines};
pub use reply::Reply;
pub use row_decisions::{Directory, decide_on};
pub use row_fault::{RowAnswer, RowFault};
pub use runner::run;
pub use status::Status;
pub use words::{Command, command_of};
