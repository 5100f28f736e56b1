//! The top call: from the words of a command and a document's bytes to a status and a text.
#![tactic(auto)]

mod answer;
mod batch;
mod command;
mod laws;
mod listing;
mod live;
mod reply;
mod review;
mod runner;
mod status;

pub use byte_streams::{
    MemorySink, MemorySource, NoSink, ReadAnswer, Sink, SliceSource, Source, StdSink, StdSource,
    WriteAnswer,
};
pub use command::{Command, PageLimit, command_of};
pub use conformance::{EntityDoesNotConform, RequestValidationError, conforms, validate_request};
pub use json_document::{
    Document, DocumentFault, Edit, Edits, Place, Requests, Scratch, Shape, Tree, read_document,
    read_document_as, read_schema, read_tree, read_value,
};
pub use json_expressions::{Bounded, read_expr};
pub use json_response::write_value;
pub use json_values::parse_json;
pub use manifest_computation::{compute_entity_manifest, slice_for_request};
pub use policy_scope::{ValidationResult, findings_text};
pub use policy_set::{Decision, Response, decide};
pub use policy_validate::{ValidationMode, Validator};
pub use runner::run;
pub use status::Status;
