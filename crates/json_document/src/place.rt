//! Where a document has its first fault.

use schema_core::SchemaFault;
use std::alloc::{AllocError, AllocFailed};
use std::fmt;

/// Where the first fault of a document is. The places have the order of the variants, but for the policies,
/// which are read one after the other.
#[derive(Debug, Drop)]
pub enum Place {
    /// The bytes are no JSON value.
    Json,
    /// The whole has not the form of a document.
    Form,
    /// The schema has not the form of one.
    Schema,
    /// The schema breaks a rule.
    SchemaFault(SchemaFault),
    /// The policy at this index has not the form of one.
    Policy(usize),
    /// The condition of the policy at this index is nested deeper than 400.
    PolicyNested(usize),
    /// The id of the policy at this index stands earlier.
    PolicyDuplicate(usize),
    /// The policy at this index links a template that does not stand earlier.
    UnknownTemplate(usize),
    /// The link at this index has no entity for a slot of its template.
    SlotMissing(usize),
    /// The link at this index has an entity for a slot that its template has not.
    SlotExtra(usize),
    /// The edit at this index has not the form of one.
    Edit(usize),
    /// The condition of what the edit at this index adds is nested deeper than 400.
    EditNested(usize),
    /// The entity at this index has not the form of one.
    Entity(usize),
    /// The id of the entity at this index stands earlier.
    EntityDuplicate(usize),
    /// The entity at this index is its own ancestor.
    EntityCycle(usize),
    /// The request has not the form of one.
    Request,
    /// The request at this index has not the form of one.
    RequestAt(usize),
}

impl fmt::Display for Place {
    ghost use Rattle.std.specs.Prelude.{Some};
    ghost use Rattle.json_document.specs.PlaceText.{place_text};

    ghost output = { λ p. Some (place_text p) };

    fn fmt<W: fmt::Write>(&self, f: &mut fmt::Formatter<W>) -> fmt::Result {
        match self {
            Place::Json => f.write_str("document: json"),
            Place::Form => f.write_str("document: form"),
            Place::Schema => f.write_str("document: schema"),
            Place::SchemaFault(fault) => {
                let text = fault.text();
                write!(f, "document: schema: {text}")
            }
            Place::Policy(i) => write!(f, "document: policies[{i}]"),
            Place::PolicyNested(i) => write!(f, "document: policies[{i}]: nested deeper than 400"),
            Place::PolicyDuplicate(i) => write!(f, "document: policies[{i}]: duplicate id"),
            Place::UnknownTemplate(i) => write!(f, "document: policies[{i}]: unknown template"),
            Place::SlotMissing(i) => write!(f, "document: policies[{i}]: slot missing"),
            Place::SlotExtra(i) => write!(f, "document: policies[{i}]: slot extra"),
            Place::Edit(i) => write!(f, "document: edits[{i}]"),
            Place::EditNested(i) => write!(f, "document: edits[{i}]: nested deeper than 400"),
            Place::Entity(i) => write!(f, "document: entities[{i}]"),
            Place::EntityDuplicate(i) => write!(f, "document: entities[{i}]: duplicate"),
            Place::EntityCycle(i) => write!(f, "document: entities[{i}]: cycle"),
            Place::Request => f.write_str("document: request"),
            Place::RequestAt(i) => write!(f, "document: requests[{i}]"),
        }
    }
}

/// Why no document is read.
#[derive(Debug, Drop)]
pub enum DocumentFault {
    /// The document has its first fault here.
    Place(Place),
    /// There is no memory.
    OutOfMemory,
}

impl From<AllocError> for DocumentFault {
    ghost use Rattle.std.specs.Prelude.{◌≡◌};
    ghost use Rattle.json_document.specs.declared.place.DocumentFault.TheVariants.{OutOfMemory};

    ghost from_gives = { λ _ e. e ≡ OutOfMemory };

    fn from(_error: AllocError) -> DocumentFault {
        DocumentFault::OutOfMemory
    }
}

impl<T: Drop> From<AllocFailed<T>> for DocumentFault {
    ghost use Rattle.std.specs.Prelude.{◌≡◌};
    ghost use Rattle.json_document.specs.declared.place.DocumentFault.TheVariants.{OutOfMemory};

    ghost from_gives = { λ _ e. e ≡ OutOfMemory };

    fn from(_error: AllocFailed<T>) -> DocumentFault {
        DocumentFault::OutOfMemory
    }
}
