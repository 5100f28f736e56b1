//! Names of types and functions.

ghost use Rattle.std.specs.Prelude.{◌≡◌, ◌↔◌, IfOk, IfSome, IsSome, IsTrue};
ghost use Rattle.policy_values.specs.Name.{IsName};

use crate::Text;
use crate::parse::is_name;
use std::alloc::{AllocError, Global};
use std::marker::Model;

/// One or more components joined by `::`, as in `Photos::Album`. A component is a letter or `_` and then
/// letters, digits and `_`, all ASCII, and is not `__cedar`.
#[derive(Debug, PartialEq, Eq, PartialOrd, Ord, Hash)]
pub struct Name {
    text: Text,
}

impl Drop for Name {
    fn drop(self) {
        let Name { text } = self;
        drop(text);
    }
}

impl Model for Name {
    ghost use Rattle.std.specs.Prelude.{List, ℕ};
    ghost use Rattle.policy_values.specs.Name.{IsName};

    ghost Value = { List ℕ };

    ghost view = { λ n. n.text };

    ghost invariant = { λ n. IsName n.text };

    ghost inverse = { λ t. record { text = t } };
}

impl Name {
    /// Whether the text spells a name.
    pub fn is_name(text: &str) -> bool
        ensures { IsTrue result ↔ IsName text.now }
    {
        is_name(text.as_bytes())
    }

    /// The name that the text spells; none exactly where it spells none.
    pub fn parse(alloc: Global, text: &str) -> Result<Option<Name>, AllocError>
        ensures found { IfOk result (λ o. IsSome o ↔ IsName text.now) }
        ensures value { IfOk result (λ o. IfSome o (λ n. n ≡ text.now)) }
    {
        if !Name::is_name(text) {
            return Ok(None);
        }
        let text = Text::from_str(alloc, text)?;
        Ok(Some(Name { text }))
    }

    /// How the name is spelled.
    pub fn as_str(&self) -> &str
        ensures value { result.now ≡ self.now }
        ensures name { IsName self.now }
    {
        self.text.as_str()
    }

    /// An equal name, which shares the characters.
    pub fn try_clone(&self) -> Result<Name, AllocError>
        ensures { IfOk result (λ n. n ≡ self.now) }
    {
        let text = self.text.try_clone()?;
        Ok(Name { text })
    }
}

impl Clone for Name {
    ghost is_clone = { λ s t. t ≡ s };

    fn clone(&self) -> Result<Name, AllocError> {
        self.try_clone()
    }
}
