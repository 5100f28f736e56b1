//! The parts of expressions that hold no expression.

ghost use Rattle.std.specs.Prelude.{◌≡◌, IfOk};
ghost use Rattle.std.specs.Option.{option_copied};
ghost use Rattle.policy_expressions.specs.Slots.{value_of};
ghost use Rattle.policy_expressions.specs.Show.{variable_text};

use policy_values::{EntityUID, Text};
use std::alloc::AllocError;
use std::fmt;

/// Where an expression stands in its source: from the byte `start` up to the byte before `end`.
#[derive(Clone, Copy, Debug, PartialEq, Eq, PartialOrd, Ord, Hash)]
pub struct Loc {
    /// The first byte.
    pub start: usize,
    /// The byte behind the last.
    pub end: usize,
}

/// A literal.
#[derive(Clone, Debug, Drop, PartialEq, Eq, PartialOrd, Ord, Hash)]
pub enum Literal {
    /// `true` or `false`.
    Bool(bool),
    /// A whole number of 64 bits.
    Long(i64),
    /// A text.
    String(Text),
    /// The id of an entity.
    EntityUID(EntityUID),
}

/// A variable: one of the four entries of the request.
#[derive(Clone, Copy, Debug, PartialEq, Eq, PartialOrd, Ord, Hash)]
pub enum Var {
    /// Who asks.
    Principal,
    /// What is to be done.
    Action,
    /// With what it is to be done.
    Resource,
    /// What else the request says.
    Context,
}

impl Var {
    /// How it is written.
    pub fn text(self) -> &'static str
        ensures { result.now ≡ variable_text self }
    {
        match self {
            Var::Principal => "principal",
            Var::Action => "action",
            Var::Resource => "resource",
            Var::Context => "context",
        }
    }
}

impl fmt::Display for Var {
    ghost use Rattle.std.specs.Prelude.{Some};

    ghost output = { λ v. Some (variable_text v) };

    fn fmt<W: fmt::Write>(&self, f: &mut fmt::Formatter<W>) -> fmt::Result {
        f.write_str(self.text())
    }
}

/// A slot: the place of an id that a link of a template gives.
#[derive(Clone, Copy, Debug, PartialEq, Eq, PartialOrd, Ord, Hash)]
pub enum SlotId {
    /// `?principal`.
    Principal,
    /// `?resource`.
    Resource,
}

/// The ids that stand in the places of slots.
#[derive(Debug, Drop)]
pub struct SlotValues {
    /// The id for `?principal`.
    pub principal: Option<EntityUID>,
    /// The id for `?resource`.
    pub resource: Option<EntityUID>,
}

/// An element of a pattern.
#[derive(Clone, Copy, Debug, PartialEq, Eq, PartialOrd, Ord, Hash)]
pub enum PatternElem {
    /// This character alone.
    Char(char),
    /// Any run of characters, also the empty one.
    Wildcard,
}

/// An operator of one operand.
#[derive(Clone, Copy, Debug, PartialEq, Eq)]
pub enum UnaryOp {
    /// `!` of a boolean.
    Not,
    /// `-` of a long.
    Neg,
    /// `isEmpty` of a set.
    IsEmpty,
}

/// An operator of two operands, both of which are evaluated.
#[derive(Clone, Copy, Debug, PartialEq, Eq)]
pub enum BinaryOp {
    /// `==` of any two values.
    Eq,
    /// `<` of two longs, two datetimes or two durations.
    Less,
    /// `<=` of two longs, two datetimes or two durations.
    LessEq,
    /// `+` of two longs.
    Add,
    /// `-` of two longs.
    Sub,
    /// `*` of two longs.
    Mul,
    /// `in` of an id and an id or a set of ids.
    In,
    /// `contains` of a set and any value.
    Contains,
    /// `containsAll` of two sets.
    ContainsAll,
    /// `containsAny` of two sets.
    ContainsAny,
    /// `getTag` of an id and a string.
    GetTag,
    /// `hasTag` of an id and a string.
    HasTag,
}

impl SlotValues {
    /// The id for a slot, where there is one.
    pub fn value(&self, slot: SlotId) -> Option<&EntityUID>
        ensures { option_copied result ≡ value_of self.now slot }
    {
        match slot {
            SlotId::Principal => self.principal.as_ref(),
            SlotId::Resource => self.resource.as_ref(),
        }
    }
}

impl Literal {
    /// An equal literal.
    pub fn try_clone(&self) -> Result<Literal, AllocError>
        ensures { IfOk result (λ l. l ≡ self.now) }
    {
        match self {
            Literal::Bool(b) => Ok(Literal::Bool(*b)),
            Literal::Long(n) => Ok(Literal::Long(*n)),
            Literal::String(text) => Ok(Literal::String(text.try_clone()?)),
            Literal::EntityUID(uid) => Ok(Literal::EntityUID(uid.try_clone()?)),
        }
    }
}
