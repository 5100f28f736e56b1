//! The patterns of `like`.

ghost use Rattle.std.specs.Prelude.{◌≡◌, IfOk};

use crate::PatternElem;
use std::alloc::{AllocError, Global};
use std::marker::Model;

/// A pattern that texts are compared with: characters and wildcards, one after another.
#[derive(Debug, Drop)]
pub struct Pattern {
    elements: Vec<PatternElem>,
}

impl Model for Pattern {
    ghost use Rattle.std.specs.Prelude.{List};
    ghost use Rattle.policy_expressions.specs.declared.kinds.PatternElem.{PatternElem};

    ghost Value = { List PatternElem };

    ghost view = { λ p. p.elements.items };
}

impl Pattern {
    /// The pattern of these elements.
    pub fn new(elements: Vec<PatternElem>) -> Pattern
        ensures { result ≡ elements.items }
    {
        Pattern { elements }
    }

    /// Its elements.
    pub fn elements(&self) -> &[PatternElem]
        ensures { result.now ≡ self.now }
    {
        self.elements.as_slice()
    }

    /// An equal pattern.
    pub fn try_clone(&self, alloc: Global) -> Result<Pattern, AllocError>
        ensures { IfOk result (λ p. p ≡ self.now) }
    {
        let mut elements = Vec::new(alloc);
        for element in self.elements() {
            elements.push(*element)?;
        }
        Ok(Pattern { elements })
    }
}
