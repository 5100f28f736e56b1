//! Entity types of a schema.

use crate::ValidatorEntityTypeKind;
use crate::sets::{firsts_of, set_of};
use policy_values::{Eid, EntityType, Text};
use schema_types::{AttributeType, Attributes, Type};
use std::alloc::{AllocError, Global};
use std::collections::{BTreeMap, BTreeSet};
use std::marker::Model;

/// An entity type, with its descendants: the types whose entities may have entities of it as ancestors.
#[derive(Debug, Drop)]
pub struct ValidatorEntityType {
    pub(crate) name: EntityType,
    pub(crate) descendants: BTreeSet<EntityType>,
    pub(crate) kind: ValidatorEntityTypeKind,
    // the attributes of an enumerated type
    pub(crate) no_attributes: Attributes,
}

impl Model for ValidatorEntityType {
    ghost use Rattle.schema_core.specs.Schema.{TypeData, coded_type};

    ghost Value = { TypeData };

    ghost coded = { coded_type };

    ghost use Rattle.std.specs.Prelude.{◌≡◌};
    ghost use Rattle.std.specs.BTreeSet.{IsOrdered};
    ghost use Rattle.policy_values.specs.Uid.{text_cmp};
    ghost use Rattle.schema_types.specs.Ty.{no_attrs};
    ghost use Rattle.schema_core.specs.KindView.{kind_of};

    ghost view = { λ t. record { name = t.name; descendants = t.descendants.keys; kind = kind_of t.kind } };

    ghost invariant = { λ t. IsOrdered text_cmp t.descendants × (t.no_attributes ≡ no_attrs) };
}

impl ValidatorEntityType {
    ghost use Rattle.std.specs.Prelude.{◌≡◌, ◌↔◌, ℕ, List, IfOk, IsTrue, Contains};
    ghost use Rattle.std.specs.Option.{option_copied};
    ghost use Rattle.std.specs.BTreeSet.{IsOrdered};
    ghost use Rattle.std.specs.List.Sorted.{IsStrictlySortedBy};
    ghost use Rattle.policy_values.specs.Uid.{text_cmp};
    ghost use Rattle.schema_types.specs.Attrs.{attr_at};
    ghost use Rattle.schema_core.specs.Kinds.{standard, enumerated, firsts, attributes_in, tags_in};
    ghost use Rattle.schema_core.specs.KindView.{kind_of};

    /// The type with these descendants, whose entities have these attributes and tags. A type that is listed
    /// more than once is one descendant.
    pub fn new_standard(
        alloc: Global,
        name: EntityType,
        descendants: Vec<EntityType>,
        attributes: Attributes,
        tags: Option<Type>,
    ) -> Result<ValidatorEntityType, AllocError>
        ensures name { IfOk result (λ t. t.name ≡ name) }
        ensures descendants { IfOk result
            (λ t. (q : List ℕ) → Contains t.descendants q ↔ Contains descendants.items q) }
        ensures ascending { IfOk result (λ t. IsStrictlySortedBy text_cmp t.descendants) }
        ensures kind { IfOk result (λ t. t.kind ≡ standard attributes tags) }
    {
        let kind = ValidatorEntityTypeKind::Standard { attributes, tags };
        ValidatorEntityType::of_kind(alloc, name, descendants, kind)
    }

    /// The enumerated type with these descendants, whose entities are those with these ids. An id that is
    /// listed more than once is kept at its first place.
    pub fn new_enum(
        alloc: Global,
        name: EntityType,
        descendants: Vec<EntityType>,
        choices: Vec<Eid>,
    ) -> Result<ValidatorEntityType, AllocError>
        ensures name { IfOk result (λ t. t.name ≡ name) }
        ensures descendants { IfOk result
            (λ t. (q : List ℕ) → Contains t.descendants q ↔ Contains descendants.items q) }
        ensures ascending { IfOk result (λ t. IsStrictlySortedBy text_cmp t.descendants) }
        ensures kind { IfOk result (λ t. t.kind ≡ enumerated (firsts choices.items)) }
    {
        let kind = ValidatorEntityTypeKind::Enum(firsts_of(alloc, choices)?);
        ValidatorEntityType::of_kind(alloc, name, descendants, kind)
    }

    fn of_kind(
        alloc: Global,
        name: EntityType,
        descendants: Vec<EntityType>,
        kind: ValidatorEntityTypeKind,
    ) -> Result<ValidatorEntityType, AllocError>
        ensures name { IfOk result (λ t. t.name ≡ name) }
        ensures descendants { IfOk result
            (λ t. (q : List ℕ) → Contains t.descendants q ↔ Contains descendants.items q) }
        ensures ascending { IfOk result (λ t. IsStrictlySortedBy text_cmp t.descendants) }
        ensures kind { IfOk result (λ t. t.kind ≡ kind_of kind) }
    {
        let descendants = set_of(alloc, descendants)?;
        ValidatorEntityType::with_set(alloc, name, descendants, kind)
    }

    // The type with an ascending set of descendants.
    pub(crate) fn with_set(
        alloc: Global,
        name: EntityType,
        descendants: BTreeSet<EntityType>,
        kind: ValidatorEntityTypeKind,
    ) -> Result<ValidatorEntityType, AllocError>
        requires { IsOrdered text_cmp descendants }
        ensures { IfOk result
            (λ t. t ≡ record { name = name; descendants = descendants.keys; kind = kind_of kind }) }
    {
        let no_attributes = Attributes::with_attributes(alloc, BTreeMap::new(alloc))?;
        Ok(ValidatorEntityType {
            name,
            descendants,
            kind,
            no_attributes,
        })
    }

    /// The name of the type.
    pub fn name(&self) -> &EntityType
        ensures { result.now ≡ self.now.name }
    {
        &self.name
    }

    /// What the type is.
    pub fn kind(&self) -> &ValidatorEntityTypeKind
        ensures { kind_of result.now ≡ self.now.kind }
    {
        &self.kind
    }

    /// The types whose entities may have entities of this type as ancestors, ascending.
    pub fn descendants(&self) -> &BTreeSet<EntityType>
        ensures value { result.now.keys ≡ self.now.descendants }
        ensures ascending { IsStrictlySortedBy text_cmp self.now.descendants }
    {
        &self.descendants
    }

    /// Whether entities of the other type may have entities of this type as ancestors.
    pub fn has_descendant(&self, name: &EntityType) -> bool
        ensures { IsTrue result ↔ Contains self.now.descendants name.now }
    {
        self.descendants.contains(name)
    }

    /// The attributes of the type's entities; those of an enumerated type have none.
    pub fn attributes(&self) -> &Attributes
        ensures { result.now ≡ attributes_in self.now.kind }
    {
        match &self.kind {
            ValidatorEntityTypeKind::Standard { attributes, .. } => attributes,
            ValidatorEntityTypeKind::Enum(_) => &self.no_attributes,
        }
    }

    /// The attribute under a key; none exactly where the type's entities have none there.
    pub fn attr(&self, key: &Text) -> Option<&AttributeType>
        ensures { option_copied result ≡ attr_at (attributes_in self.now.kind) key.now }
    {
        self.attributes().get_attr(key)
    }

    /// The type of the tags of the type's entities; none exactly where they have no tags.
    pub fn tag_type(&self) -> Option<&Type>
        ensures { option_copied result ≡ tags_in self.now.kind }
    {
        match &self.kind {
            ValidatorEntityTypeKind::Standard { tags, .. } => tags.as_ref(),
            ValidatorEntityTypeKind::Enum(_) => None,
        }
    }
}
