//! How names and ids print.

ghost use Rattle.std.specs.Prelude.{◌≡◌, ◌++◌, Some, codes};
ghost use Rattle.policy_values.specs.Show.{escaped_char, escaped, uid_text};

use crate::{EntityType, EntityUID, Name, Text};
use std::fmt;

impl fmt::Display for Name {
    ghost output = { λ n. Some n };

    fn fmt<W: fmt::Write>(&self, f: &mut fmt::Formatter<W>) -> fmt::Result {
        self.as_str().fmt(f)
    }
}

impl fmt::Display for EntityType {
    ghost output = { λ t. Some t };

    fn fmt<W: fmt::Write>(&self, f: &mut fmt::Formatter<W>) -> fmt::Result {
        self.as_str().fmt(f)
    }
}

// A character as it stands between quotes.
#[derive(Clone, Copy)]
struct Escaped(char);

impl fmt::Display for Escaped {
    ghost output = { λ e. Some (escaped_char e.0) };

    fn fmt<W: fmt::Write>(&self, f: &mut fmt::Formatter<W>) -> fmt::Result {
        match self.0 {
            '\\' => f.write_str("\\\\"),
            '"' => f.write_str("\\\""),
            '\n' => f.write_str("\\n"),
            '\r' => f.write_str("\\r"),
            '\t' => f.write_str("\\t"),
            '\0' => f.write_str("\\0"),
            c => f.write_char(c),
        }
    }
}

/// A text as it stands between quotes.
#[derive(Clone, Copy, Debug)]
pub struct Quoted<'a>(pub &'a Text);

impl fmt::Display for Quoted<'_> {
    ghost output = { λ q. Some (escaped q.0.now) };

    fn fmt<W: fmt::Write>(&self, f: &mut fmt::Formatter<W>) -> fmt::Result {
        let text = self.0.as_str();
        for c in text.chars() {
            let one = Escaped(c);
            write!(f, "{one}")?;
        }
        Ok(())
    }
}

impl fmt::Display for EntityUID {
    ghost output = { λ u. Some (uid_text u.entity_type u.eid) };

    fn fmt<W: fmt::Write>(&self, f: &mut fmt::Formatter<W>) -> fmt::Result {
        let eid = Quoted(self.eid.as_text());
        let entity_type = &self.entity_type;
        write!(f, "{entity_type}::\"{eid}\"")
    }
}
