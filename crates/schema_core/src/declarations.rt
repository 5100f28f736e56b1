//! A schema as a document declares it.

use crate::ValidatorEntityTypeKind;
use crate::sets::firsts_of;
use policy_values::{Eid, EntityType, EntityUID};
use schema_types::{Attributes, Type};
use std::alloc::{AllocError, Global};
use std::marker::Model;

/// The declaration of an entity type, with the types that it is a member of.
#[derive(Debug, Drop)]
pub struct TypeDeclaration {
    pub(crate) name: EntityType,
    pub(crate) member_of: Vec<EntityType>,
    pub(crate) kind: ValidatorEntityTypeKind,
}

impl Model for TypeDeclaration {
    ghost use Rattle.schema_core.specs.Entries.{TypeEntry, coded_type_entry};

    ghost Value = { TypeEntry };

    ghost coded = { coded_type_entry };

    ghost use Rattle.schema_core.specs.KindView.{kind_of};

    ghost view = { λ t. record { name = t.name; member_of = t.member_of.items; kind = kind_of t.kind } };
}

impl TypeDeclaration {
    ghost use Rattle.std.specs.Prelude.{◌≡◌, [], IfOk};
    ghost use Rattle.schema_core.specs.Kinds.{standard, enumerated, firsts};

    /// Declares a type a member of others, and its entities to have these attributes and tags of this type;
    /// no tags, where there is none. A type may be listed more than once.
    pub fn standard(
        name: EntityType,
        member_of: Vec<EntityType>,
        attributes: Attributes,
        tags: Option<Type>,
    ) -> TypeDeclaration
        ensures { result ≡
            record { name = name; member_of = member_of.items; kind = standard attributes tags } }
    {
        let kind = ValidatorEntityTypeKind::Standard { attributes, tags };
        TypeDeclaration {
            name,
            member_of,
            kind,
        }
    }

    /// Declares a type whose entities are those with these ids. An id that is listed more than once is kept
    /// at its first place.
    pub fn enumerated(
        alloc: Global,
        name: EntityType,
        choices: Vec<Eid>,
    ) -> Result<TypeDeclaration, AllocError>
        ensures { IfOk result
            (λ t. t ≡ record { name = name; member_of = []; kind = enumerated (firsts choices.items) }) }
    {
        let kind = ValidatorEntityTypeKind::Enum(firsts_of(alloc, choices)?);
        Ok(TypeDeclaration {
            name,
            member_of: Vec::new(alloc),
            kind,
        })
    }
}

/// The declaration of an action, with the types of the principals and of the resources that it applies to,
/// the actions that it is a member of, and the attributes of its contexts.
#[derive(Debug, Drop)]
pub struct ActionDeclaration {
    pub(crate) id: EntityUID,
    pub(crate) principals: Vec<EntityType>,
    pub(crate) resources: Vec<EntityType>,
    pub(crate) member_of: Vec<EntityUID>,
    pub(crate) context: Attributes,
}

impl Model for ActionDeclaration {
    ghost use Rattle.schema_core.specs.Entries.{ActionEntry, coded_action_entry};

    ghost Value = { ActionEntry };

    ghost coded = { coded_action_entry };

    ghost view = { λ a. record {
      id = a.id;
      principals = a.principals.items;
      resources = a.resources.items;
      member_of = a.member_of.items;
      context = a.context;
    } };
}

impl ActionDeclaration {
    ghost use Rattle.std.specs.Prelude.{◌≡◌};

    /// Declares an action, and its contexts to have these attributes. What is listed may be listed more
    /// than once.
    pub fn new(
        id: EntityUID,
        principals: Vec<EntityType>,
        resources: Vec<EntityType>,
        member_of: Vec<EntityUID>,
        context: Attributes,
    ) -> ActionDeclaration
        ensures { result ≡ record {
          id = id;
          principals = principals.items;
          resources = resources.items;
          member_of = member_of.items;
          context = context;
        } }
    {
        ActionDeclaration {
            id,
            principals,
            resources,
            member_of,
            context,
        }
    }
}

/// All that a document declares.
#[derive(Debug, Drop)]
pub struct SchemaDeclarations {
    pub(crate) entity_types: Vec<TypeDeclaration>,
    pub(crate) actions: Vec<ActionDeclaration>,
}

impl Model for SchemaDeclarations {
    ghost use Rattle.schema_core.specs.Entries.{Declarations, coded_declarations};

    ghost Value = { Declarations };

    ghost coded = { coded_declarations };

    ghost view = { λ d. record { entity_types = d.entity_types.items; actions = d.actions.items } };
}

impl SchemaDeclarations {
    ghost use Rattle.std.specs.Prelude.{◌≡◌};

    /// These types and actions.
    pub fn new(
        entity_types: Vec<TypeDeclaration>,
        actions: Vec<ActionDeclaration>,
    ) -> SchemaDeclarations
        ensures { result ≡ record { entity_types = entity_types.items; actions = actions.items } }
    {
        SchemaDeclarations {
            entity_types,
            actions,
        }
    }
}
