//! The parts of types that hold no type.

ghost use Rattle.std.specs.Prelude.{◌≡◌};
ghost use Rattle.schema_types.specs.Ty.{is_open};

/// The types of booleans, longs and strings.
#[derive(Clone, Copy, Debug, PartialEq, Eq, PartialOrd, Ord, Hash)]
pub enum Primitive {
    /// Booleans.
    Bool,
    /// Whole numbers of 64 bits.
    Long,
    /// Texts.
    String,
}

/// Whether a record may have attributes beside those that its type lists.
#[derive(Clone, Copy, Debug, Default, PartialEq, Eq, PartialOrd, Ord, Hash)]
pub enum OpenTag {
    /// It may have others.
    OpenAttributes,
    /// It has no others.
    #[default]
    ClosedAttributes,
}

impl OpenTag {
    /// Whether there may be attributes that are not listed.
    pub fn is_open(self) -> bool
        ensures { result ≡ is_open self }
    {
        match self {
            OpenTag::OpenAttributes => true,
            OpenTag::ClosedAttributes => false,
        }
    }
}

/// Why two types have no least upper bound.
#[derive(Clone, Copy, Debug, PartialEq, Eq, Hash)]
pub enum LubHelp {
    /// An attribute is required in one record and optional in the other.
    AttributeQualifier,
    /// The records have other attributes.
    RecordWidth,
    /// The entity types differ.
    EntityType,
    /// One is a type of entities, the other of records.
    EntityRecord,
    /// The types differ.
    None,
}
