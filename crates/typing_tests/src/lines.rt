//! Tables of lines, `ASKED => EXPECTED`, the one assertion of these tests, and what rows are made of.

use json_document::{Document, read_document};
use policy_expressions::{BuildError, Expr};
use policy_values::{Eid, EntityType, EntityUID, Name, Text};
use schema_core::Type;
use std::alloc::{AllocError, Global};
use std::process::Abort;

/// A typed expression.
pub(crate) type Part = Expr<Option<Type>>;

/// What is answered to the left side of a line.
pub(crate) trait Answers {
    /// The answer.
    fn answer(alloc: Global, asked: &str) -> Result<String, AllocError>;
}

// Adds what is asked, and the answer, where another is expected.
fn add_failure<A: Answers>(
    alloc: Global,
    asked: &str,
    expected: &str,
    failures: &mut String,
) -> Result<(), AllocError> {
    let answer = A::answer(alloc, asked)?;
    if answer.as_str() == expected {
        Ok(())
    } else {
        write!(failures, "{asked} => {answer}\n")
    }
}

/// The lines of a table to which something else is answered, each with that answer.
pub(crate) fn failures<A: Answers>(alloc: Global, table: &str) -> Result<String, AllocError> {
    let mut failures = String::new(alloc);
    for line in table.lines() {
        let (asked, expected) = line.split_once(" => ").unwrap_or((line, "nothing"));
        add_failure::<A>(alloc, asked, expected, &mut failures)?;
    }
    Ok(failures)
}

/// Asserts that a text is the expected one.
pub(crate) fn assert_same(rt: &impl Abort, text: &str, expected: &str) {
    assert_eq!(rt; text, expected);
}

/// The document that a text says; a text that says none counts as out of memory, and so do names and parts
/// below.
pub(crate) fn document_of(alloc: Global, text: &str) -> Result<Document, AllocError> {
    read_document(alloc, text.as_bytes()).ok().ok_or(AllocError)
}

/// The entity type of a name.
pub(crate) fn entity_type(alloc: Global, name: &str) -> Result<EntityType, AllocError> {
    match Name::parse(alloc, name)? {
        Some(name) => Ok(EntityType::new(name)),
        None => Err(AllocError),
    }
}

/// The id of a type and a name.
pub(crate) fn uid(alloc: Global, name: &str, eid: &str) -> Result<EntityUID, AllocError> {
    let entity_type = entity_type(alloc, name)?;
    let eid = Eid::new(Text::from_str(alloc, eid)?);
    Ok(EntityUID { entity_type, eid })
}

/// The expression that was built.
pub(crate) fn built(part: Result<Part, BuildError>) -> Result<Part, AllocError> {
    part.ok().ok_or(AllocError)
}
