//! Actions of a schema.

use crate::sets::set_of;
use policy_values::{EntityType, EntityUID};
use schema_types::{Attributes, OpenTag, Type};
use std::alloc::{AllocError, Global};
use std::collections::BTreeSet;
use std::marker::Model;

/// An action: the types of the principals and of the resources that it applies to, its descendants, the
/// actions that are in it, and the attributes of the contexts in which it is asked for.
#[derive(Debug, Drop)]
pub struct ValidatorActionId {
    pub(crate) name: EntityUID,
    pub(crate) principals: BTreeSet<EntityType>,
    pub(crate) resources: BTreeSet<EntityType>,
    pub(crate) descendants: BTreeSet<EntityUID>,
    pub(crate) context: Attributes,
}

impl Model for ValidatorActionId {
    ghost use Rattle.schema_core.specs.Schema.{ActionData, coded_action};

    ghost Value = { ActionData };

    ghost coded = { coded_action };

    ghost use Rattle.std.specs.BTreeSet.{IsOrdered};
    ghost use Rattle.policy_values.specs.Uid.{text_cmp, uid_cmp};

    ghost view = { λ a. record {
      name = a.name;
      principals = a.principals.keys;
      resources = a.resources.keys;
      descendants = a.descendants.keys;
      context = a.context;
    } };

    ghost invariant = { λ a. IsOrdered text_cmp a.principals ×
        IsOrdered text_cmp a.resources × IsOrdered uid_cmp a.descendants };
}

impl ValidatorActionId {
    ghost use Rattle.std.specs.Prelude.{◌≡◌, ◌↔◌, ℕ, List, IfOk, IsTrue, Contains};
    ghost use Rattle.std.specs.List.Sorted.{IsStrictlySortedBy};
    ghost use Rattle.policy_values.specs.declared.entity_uid.EntityUID.{EntityUID};
    ghost use Rattle.policy_values.specs.Uid.{text_cmp, uid_cmp};
    ghost use Rattle.schema_types.specs.Ty.{record_of};
    ghost use Rattle.schema_types.specs.declared.kinds.OpenTag.TheVariants.{ClosedAttributes};
    ghost use Rattle.schema_core.specs.Faults.{HasSets};

    /// The action with these types and descendants, and contexts with these attributes and no others. What is
    /// listed more than once is kept once.
    pub fn new(
        alloc: Global,
        name: EntityUID,
        principals: Vec<EntityType>,
        resources: Vec<EntityType>,
        descendants: Vec<EntityUID>,
        context: Attributes,
    ) -> Result<ValidatorActionId, AllocError>
        ensures name { IfOk result (λ a. a.name ≡ name) }
        ensures principals { IfOk result
            (λ a. (q : List ℕ) → Contains a.principals q ↔ Contains principals.items q) }
        ensures resources { IfOk result
            (λ a. (q : List ℕ) → Contains a.resources q ↔ Contains resources.items q) }
        ensures descendants { IfOk result
            (λ a. (q : EntityUID) → Contains a.descendants q ↔ Contains descendants.items q) }
        ensures ascending { IfOk result HasSets }
        ensures context { IfOk result (λ a. a.context ≡ context) }
    {
        let principals = set_of(alloc, principals)?;
        let resources = set_of(alloc, resources)?;
        let descendants = set_of(alloc, descendants)?;
        Ok(ValidatorActionId {
            name,
            principals,
            resources,
            descendants,
            context,
        })
    }

    /// The id of the action.
    pub fn name(&self) -> &EntityUID
        ensures { result.now ≡ self.now.name }
    {
        &self.name
    }

    /// The types of the principals that the action applies to, ascending.
    pub fn applies_to_principals(&self) -> &BTreeSet<EntityType>
        ensures value { result.now.keys ≡ self.now.principals }
        ensures ascending { IsStrictlySortedBy text_cmp self.now.principals }
    {
        &self.principals
    }

    /// The types of the resources that the action applies to, ascending.
    pub fn applies_to_resources(&self) -> &BTreeSet<EntityType>
        ensures value { result.now.keys ≡ self.now.resources }
        ensures ascending { IsStrictlySortedBy text_cmp self.now.resources }
    {
        &self.resources
    }

    /// Whether the action applies to principals of the type.
    pub fn is_applicable_principal_type(&self, name: &EntityType) -> bool
        ensures { IsTrue result ↔ Contains self.now.principals name.now }
    {
        self.principals.contains(name)
    }

    /// Whether the action applies to resources of the type.
    pub fn is_applicable_resource_type(&self, name: &EntityType) -> bool
        ensures { IsTrue result ↔ Contains self.now.resources name.now }
    {
        self.resources.contains(name)
    }

    /// The actions that are in this one, ascending.
    pub fn descendants(&self) -> &BTreeSet<EntityUID>
        ensures value { result.now.keys ≡ self.now.descendants }
        ensures ascending { IsStrictlySortedBy uid_cmp self.now.descendants }
    {
        &self.descendants
    }

    /// Whether the other action is in this one.
    pub fn has_descendant(&self, uid: &EntityUID) -> bool
        ensures { IsTrue result ↔ Contains self.now.descendants uid.now }
    {
        self.descendants.contains(uid)
    }

    /// The type of the contexts in which the action is asked for: records with its attributes and no others.
    pub fn context_type(&self, alloc: Global) -> Result<Type, AllocError>
        ensures { IfOk result (λ t. t ≡ record_of self.now.context ClosedAttributes) }
    {
        let attrs = self.context.try_clone()?;
        Ok(Type::record(attrs, OpenTag::ClosedAttributes))
    }

    /// The attributes of the contexts in which the action is asked for. They have no others.
    pub fn context(&self) -> &Attributes
        ensures { result.now ≡ self.now.context }
    {
        &self.context
    }
}
