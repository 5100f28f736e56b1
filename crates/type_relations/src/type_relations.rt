//! The relations as methods of types.

ghost use Rattle.std.specs.Prelude.{◌≡◌, ◌↔◌, IfOk, IsTrue, MatchResult, Ok, map};
ghost use Rattle.schema_types.specs.Ty.{Ty, keys_in};
ghost use Rattle.schema_types.specs.Attrs.{attr_at};
ghost use Rattle.type_relations.specs.Subtype.{Subtype};
ghost use Rattle.type_relations.specs.Join.{join, join_all, IsLubError};
ghost use Rattle.type_relations.specs.Attributes.{attrs_in, may_have, AreDisjoint};
ghost use Rattle.type_relations.specs.Consistent.{consistent};
ghost use Rattle.type_relations.specs.Member.{Member};

use crate::{LubError, SubtypeMode};
use policy_values::{Text, Value};
use schema_types::{AttributeType, DeclaredAttributes, SchemaType, Type};
use std::alloc::{AllocError, Global};

/// How types relate to each other, to values and to attributes.
pub trait TypeRelations: Sized {
    ghost tree: { Self → Ty };

    /// Whether a value of this type may stand where the other is expected.
    fn is_subtype(&self, other: &Self, mode: SubtypeMode) -> bool
        ensures { IsTrue result ↔ Subtype mode (tree self.now) (tree other.now) };

    /// The least type above both, or why there is none.
    fn least_upper_bound(
        &self,
        alloc: Global,
        other: &Self,
        mode: SubtypeMode,
    ) -> Result<Type, LubError>
        ensures { MatchResult result (λ t. join mode (tree self.now) (tree other.now) ≡ Ok t)
            (λ e. IsLubError (join mode (tree self.now) (tree other.now)) e) };

    /// The join of a list of types, from the type of no value on, or why there is none.
    fn reduce_to_least_upper_bound(
        alloc: Global,
        types: &[Self],
        mode: SubtypeMode,
    ) -> Result<Type, LubError>
        ensures { MatchResult result (λ t. join_all mode (map tree types.now) ≡ Ok t)
            (λ e. IsLubError (join_all mode (map tree types.now)) e) };

    /// Whether it is sure that no value is of both types.
    fn are_types_disjoint(&self, other: &Self) -> bool
        ensures { IsTrue result ↔ AreDisjoint (tree self.now) (tree other.now) };

    /// The attribute under a key, where there is one.
    fn lookup_attribute_type<S: DeclaredAttributes>(
        &self,
        alloc: Global,
        schema: &S,
        key: &Text,
    ) -> Result<Option<AttributeType>, AllocError>
    where
        ensures { IfOk result (λ o. o ≡ attr_at (attrs_in (S.declared schema.now) (tree self.now)) key.now) };

    /// The keys of the attributes, ascending.
    fn all_attributes<S: DeclaredAttributes>(
        &self,
        alloc: Global,
        schema: &S,
    ) -> Result<Vec<Text>, AllocError>
    where
        ensures { IfOk result (λ ks. ks.items ≡ keys_in (attrs_in (S.declared schema.now) (tree self.now))) };

    /// Whether some value of the type may have the attribute.
    fn may_have_attr<S: DeclaredAttributes>(&self, schema: &S, key: &Text) -> bool
    where
        ensures { result ≡ may_have (S.declared schema.now) (tree self.now) key.now };

    /// Whether some value may be of the type and of the schema type.
    fn is_consistent_with(&self, schema_type: &SchemaType) -> bool
        ensures { result ≡ consistent schema_type.now (tree self.now) };

    /// Whether the type has the value.
    fn has_value(&self, v: &Value) -> bool
        ensures { IsTrue result ↔ Member (tree self.now) v.now };
}

impl TypeRelations for Type {
    ghost tree = { λ t. t };

    fn is_subtype(&self, other: &Type, mode: SubtypeMode) -> bool {
        crate::is_subtype(self, other, mode)
    }

    fn least_upper_bound(
        &self,
        alloc: Global,
        other: &Type,
        mode: SubtypeMode,
    ) -> Result<Type, LubError> {
        crate::least_upper_bound(alloc, self, other, mode)
    }

    fn reduce_to_least_upper_bound(
        alloc: Global,
        types: &[Type],
        mode: SubtypeMode,
    ) -> Result<Type, LubError> {
        crate::reduce_to_least_upper_bound(alloc, types, mode)
    }

    fn are_types_disjoint(&self, other: &Type) -> bool {
        crate::are_types_disjoint(self, other)
    }

    fn lookup_attribute_type<S: DeclaredAttributes>(
        &self,
        alloc: Global,
        schema: &S,
        key: &Text,
    ) -> Result<Option<AttributeType>, AllocError> {
        crate::lookup_attribute_type(alloc, schema, self, key)
    }

    fn all_attributes<S: DeclaredAttributes>(
        &self,
        alloc: Global,
        schema: &S,
    ) -> Result<Vec<Text>, AllocError> {
        crate::all_attributes(alloc, schema, self)
    }

    fn may_have_attr<S: DeclaredAttributes>(&self, schema: &S, key: &Text) -> bool {
        crate::may_have_attr(schema, self, key)
    }

    fn is_consistent_with(&self, schema_type: &SchemaType) -> bool {
        crate::is_consistent_with(self, schema_type)
    }

    fn has_value(&self, v: &Value) -> bool {
        crate::has_value(self, v)
    }
}
