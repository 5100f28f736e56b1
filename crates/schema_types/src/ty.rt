//! Types and how they are made.

ghost use Rattle.std.specs.Prelude.{◌≡◌, ◌∷◌, [], IfOk, if◌then◌else◌, option_copied, true, false};
ghost use Rattle.schema_types.specs.declared.kinds.Primitive.TheVariants.{Bool, Long, String};
ghost use Rattle.schema_types.specs.declared.kinds.OpenTag.TheVariants.{OpenAttributes};
ghost use Rattle.schema_types.specs.Ty.{Ty, never, true_type, false_type, primitive, any_set, set_of, record_of, any_entity, entity, action, extension, Attrs, no_attrs, attr, keys_in};
ghost use Rattle.schema_types.specs.TyView.{ty_of, kind_of, attrs_of};
ghost use Rattle.schema_types.specs.Attrs.{attr_at};
ghost use Rattle.std.specs.List.Sorted.{IsStrictlySortedBy};
ghost use Rattle.policy_values.specs.Uid.{text_cmp};

use crate::{EntityLUB, OpenTag, Primitive};
use policy_values::{EntityType, Name, Text};
use std::alloc::{AllocError, Global};
use std::collections::{BTreeMap, btree_map};
use std::marker::Model;
use std::rc::Rc;

/// A type.
#[derive(Debug)]
#[cycle(ty)]
pub struct Type {
    kind: TypeKind,
}

impl Drop for Type {
    #[cycle(ty_drops)]
    fn drop(self) {
        let Type { kind } = self;
        drop(kind);
    }
}

/// What a type is.
#[derive(Debug, Drop)]
#[cycle(ty)]
pub enum TypeKind {
    /// The type of no value.
    Never,
    /// The type of `true` alone.
    True,
    /// The type of `false` alone.
    False,
    /// Booleans, longs or strings.
    Primitive {
        /// Which of them.
        primitive_type: Primitive,
    },
    /// Sets.
    Set {
        /// The type of their elements; sets of anything, where there is none.
        element_type: Option<Box<Type>>,
    },
    /// Entities or records.
    EntityOrRecord(EntityRecordKind),
    /// The values of an extension.
    ExtensionType {
        /// How the type is called.
        name: Name,
    },
}

/// A type of entities or of records.
#[derive(Debug, Drop)]
#[cycle(ty)]
pub enum EntityRecordKind {
    /// Records.
    Record {
        /// Their attributes.
        attrs: Attributes,
        /// Whether they may have others.
        open_attributes: OpenTag,
    },
    /// All entities.
    AnyEntity,
    /// The entities of one of some types.
    Entity(EntityLUB),
    /// The actions of a type.
    ActionEntity {
        /// The type.
        name: EntityType,
        /// Their attributes.
        attrs: Attributes,
    },
}

/// Attributes under their keys, ascending. A copy shares them.
#[derive(Debug, Drop)]
#[cycle(ty)]
pub struct Attributes {
    attrs: Rc<BTreeMap<Text, AttributeType>>,
}

/// The type of an attribute, and whether the attribute has to be there.
#[derive(Debug, Drop, PartialEq, Eq, PartialOrd, Ord, Hash)]
#[cycle(ty)]
pub struct AttributeType {
    /// The type of what stands under the attribute.
    pub attr_type: Type,
    /// Whether it has to be there.
    pub is_required: bool,
}

impl Model for Type {
    ghost use Rattle.schema_types.specs.Ty.{Ty, size_of};
    ghost use Rattle.schema_types.specs.TyCode.{coded_ty};

    ghost Value = { Ty };

    ghost coded = { coded_ty };

    ghost use Rattle.schema_types.specs.TyView.{ty_of};

    ghost view = { λ a. ty_of a.kind };

    ghost size = { size_of };

    ghost use Rattle.schema_types.specs.TyFalls.{falls};

    ghost size_decreases = { λ a h. falls a };
}

impl Model for Attributes {
    ghost use Rattle.schema_types.specs.Ty.{Attrs, size_of_attrs};
    ghost use Rattle.schema_types.specs.TyCode.{coded_attrs};

    ghost Value = { Attrs };

    ghost coded = { coded_attrs };

    ghost use Rattle.schema_types.specs.TyView.{attrs_of};

    ghost view = { λ a. attrs_of a.attrs.value.entries };

    ghost use Rattle.std.specs.BTreeMap.{IsOrdered};
    ghost use Rattle.policy_values.specs.Uid.{text_cmp};

    ghost invariant = { λ a. IsOrdered text_cmp a.attrs.value };

    ghost size = { size_of_attrs };

    ghost use Rattle.schema_types.specs.TyFalls.{attrs_fall};

    ghost size_decreases = { λ a h. attrs_fall a };
}

impl Type {
    /// What the type is.
    pub fn kind(&self) -> &TypeKind
        ensures { ty_of result.now ≡ self.now }
    {
        &self.kind
    }

    /// The type that is of a kind.
    pub fn from_kind(kind: TypeKind) -> Type
        ensures { result ≡ ty_of kind }
    {
        Type { kind }
    }

    /// The type of entities or records of a kind.
    pub fn entity_or_record(kind: EntityRecordKind) -> Type
        ensures { result ≡ kind_of kind }
    {
        Type::from_kind(TypeKind::EntityOrRecord(kind))
    }

    /// The type of no value.
    pub fn never() -> Type
        ensures { result ≡ never }
    {
        Type::from_kind(TypeKind::Never)
    }

    /// The type of one boolean alone.
    pub fn singleton_boolean(val: bool) -> Type
        ensures { result ≡ (if val then true_type else false_type) }
    {
        if val {
            Type::from_kind(TypeKind::True)
        } else {
            Type::from_kind(TypeKind::False)
        }
    }

    /// A primitive type.
    pub fn primitive(primitive_type: Primitive) -> Type
        ensures { result ≡ primitive primitive_type }
    {
        Type::from_kind(TypeKind::Primitive { primitive_type })
    }

    /// The type of booleans.
    pub fn primitive_boolean() -> Type
        ensures { result ≡ primitive Bool }
    {
        Type::primitive(Primitive::Bool)
    }

    /// The type of longs.
    pub fn primitive_long() -> Type
        ensures { result ≡ primitive Long }
    {
        Type::primitive(Primitive::Long)
    }

    /// The type of strings.
    pub fn primitive_string() -> Type
        ensures { result ≡ primitive String }
    {
        Type::primitive(Primitive::String)
    }

    /// The type of all sets.
    pub fn any_set() -> Type
        ensures { result ≡ any_set }
    {
        Type::from_kind(TypeKind::Set { element_type: None })
    }

    /// The type of sets whose elements are of a type.
    pub fn set(alloc: Global, element: Type) -> Result<Type, AllocError>
        ensures { IfOk result (λ t. t ≡ set_of element) }
    {
        let element = Box::new(alloc, element)?;
        Ok(Type::from_kind(TypeKind::Set {
            element_type: Some(element),
        }))
    }

    /// The type of records with attributes.
    pub fn record(attrs: Attributes, open_attributes: OpenTag) -> Type
        ensures { result ≡ record_of attrs open_attributes }
    {
        Type::entity_or_record(EntityRecordKind::Record {
            attrs,
            open_attributes,
        })
    }

    /// The type of all records.
    pub fn any_record(alloc: Global) -> Result<Type, AllocError>
        ensures { IfOk result (λ t. t ≡ record_of no_attrs OpenAttributes) }
    {
        let attrs = Attributes::with_attributes(alloc, BTreeMap::new(alloc))?;
        Ok(Type::record(attrs, OpenTag::OpenAttributes))
    }

    /// The type of records with the attributes of a map.
    pub fn record_with_attributes(
        alloc: Global,
        attrs: BTreeMap<Text, AttributeType>,
        open_attributes: OpenTag,
    ) -> Result<Type, AllocError>
        ensures { IfOk result (λ t. t ≡ record_of (attrs_of attrs.entries) open_attributes) }
    {
        let attrs = Attributes::with_attributes(alloc, attrs)?;
        Ok(Type::record(attrs, open_attributes))
    }

    /// The type of all entities.
    pub fn any_entity_reference() -> Type
        ensures { result ≡ any_entity }
    {
        Type::entity_or_record(EntityRecordKind::AnyEntity)
    }

    /// The type of the entities of one type.
    pub fn named_entity_reference(alloc: Global, name: EntityType) -> Result<Type, AllocError>
        ensures { IfOk result (λ t. t ≡ entity (name ∷ [])) }
    {
        let lub = EntityLUB::single_entity(alloc, name)?;
        Ok(Type::entity_or_record(EntityRecordKind::Entity(lub)))
    }

    /// The type of the actions of one type.
    pub fn action_entity(name: EntityType, attrs: Attributes) -> Type
        ensures { result ≡ action name attrs }
    {
        Type::entity_or_record(EntityRecordKind::ActionEntity { name, attrs })
    }

    /// An extension type.
    pub fn extension(name: Name) -> Type
        ensures { result ≡ extension name }
    {
        Type::from_kind(TypeKind::ExtensionType { name })
    }
}

impl Attributes {
    /// The attributes of a map.
    pub fn with_attributes(
        alloc: Global,
        attrs: BTreeMap<Text, AttributeType>,
    ) -> Result<Attributes, AllocError>
        ensures { IfOk result (λ a. a ≡ attrs_of attrs.entries) }
    {
        let _count = attrs.len();
        let attrs = Rc::new(alloc, attrs)?;
        Ok(Attributes { attrs })
    }

    /// Equal attributes, which share the map.
    pub fn try_clone(&self) -> Result<Attributes, AllocError>
        ensures { IfOk result (λ a. a ≡ self.now) }
    {
        let attrs = self.attrs.clone()?;
        Ok(Attributes { attrs })
    }

    /// The map of the attributes.
    pub fn entries(&self) -> &BTreeMap<Text, AttributeType>
        ensures { attrs_of result.now.entries ≡ self.now }
    {
        self.attrs.as_ref()
    }

    /// The attributes with their keys, ascending.
    pub fn iter(&self) -> btree_map::Iter<'_, Text, AttributeType>
        ensures value { attrs_of result ≡ self.now }
        ensures ascending { IsStrictlySortedBy text_cmp (keys_in self.now) }
    {
        self.attrs.as_ref().iter()
    }

    /// The keys, ascending.
    pub fn keys(&self) -> btree_map::Keys<'_, Text, AttributeType>
        ensures value { result ≡ keys_in self.now }
        ensures ascending { IsStrictlySortedBy text_cmp (keys_in self.now) }
    {
        keys_of(self.entries())
    }

    /// The attribute under a key.
    pub fn get_attr(&self, key: &Text) -> Option<&AttributeType>
        ensures { option_copied result ≡ attr_at self.now key.now }
    {
        entry_at(self.entries(), key)
    }
}

#[tactic(auto, using(crate::proofs::AttrSteps::keys_of_attrs))]
fn keys_of(entries: &BTreeMap<Text, AttributeType>) -> btree_map::Keys<'_, Text, AttributeType>
    ensures value { result ≡ keys_in (attrs_of entries.now.entries) }
    ensures ascending { IsStrictlySortedBy text_cmp (keys_in (attrs_of entries.now.entries)) }
{
    entries.keys()
}

#[tactic(auto, using(crate::proofs::AttrSteps::lookup_attr))]
fn entry_at<'a>(entries: &'a BTreeMap<Text, AttributeType>, key: &Text) -> Option<&'a AttributeType>
    ensures { option_copied result ≡ attr_at (attrs_of entries.now.entries) key.now }
{
    entries.get(key)
}

impl AttributeType {
    /// An attribute of a type that has to be there, or need not be.
    pub fn new(attr_type: Type, is_required: bool) -> AttributeType
        ensures { result ≡ record { attr_type = attr_type; is_required = is_required } }
    {
        AttributeType {
            attr_type,
            is_required,
        }
    }

    /// An attribute that has to be there.
    pub fn required_attribute(attr_type: Type) -> AttributeType
        ensures { result ≡ record { attr_type = attr_type; is_required = true } }
    {
        AttributeType::new(attr_type, true)
    }

    /// An attribute that need not be there.
    pub fn optional_attribute(attr_type: Type) -> AttributeType
        ensures { result ≡ record { attr_type = attr_type; is_required = false } }
    {
        AttributeType::new(attr_type, false)
    }

    /// Whether it has to be there.
    pub fn is_required(&self) -> bool
        ensures { result ≡ self.now.is_required }
    {
        self.is_required
    }
}
