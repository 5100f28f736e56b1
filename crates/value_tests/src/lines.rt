//! Tables of lines, `ASKED => EXPECTED`, and the one assertion of these tests.

use policy_values::{Eid, EntityType, EntityUID, Name, Text};
use std::alloc::{AllocError, Global};
use std::process::Abort;

/// What is answered to the left side of a line.
pub(crate) trait Answers {
    /// The answer.
    fn answer(alloc: Global, asked: &str) -> Result<String, AllocError>;
}

/// Adds what is asked, and the answer, where another is expected.
pub(crate) fn add_failure<A: Answers>(
    alloc: Global,
    asked: &str,
    expected: &str,
    failures: &mut String,
) -> Result<(), AllocError> {
    let answer = A::answer(alloc, asked)?;
    if answer.as_str() == expected {
        Ok(())
    } else {
        write!(failures, "{asked} => {answer}\n")
    }
}

/// The lines of a table to which something else is answered, each with that answer.
pub(crate) fn failures<A: Answers>(alloc: Global, table: &str) -> Result<String, AllocError> {
    let mut failures = String::new(alloc);
    for line in table.lines() {
        let (asked, expected) = line.split_once(" => ").unwrap_or((line, "nothing"));
        add_failure::<A>(alloc, asked, expected, &mut failures)?;
    }
    Ok(failures)
}

/// Asserts that a text is the expected one.
pub(crate) fn assert_same(rt: &impl Abort, text: &str, expected: &str) {
    assert_eq!(rt; text, expected);
}

/// The id of a type and a name; a type that is none counts as out of memory.
pub(crate) fn uid(alloc: Global, entity_type: &str, eid: &str) -> Result<EntityUID, AllocError> {
    match Name::parse(alloc, entity_type)? {
        Some(name) => Ok(EntityUID {
            entity_type: EntityType::new(name),
            eid: Eid::new(Text::from_str(alloc, eid)?),
        }),
        None => Err(AllocError),
    }
}
