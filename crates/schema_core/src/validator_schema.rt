//! Schemas.

use crate::request_env::add_environments;
use crate::{
    RequestEnv, SchemaDeclarations, SchemaFault, ValidatorActionId, ValidatorEntityType, add_all,
    declared_parts, schema_parts,
};
use policy_values::{EntityType, EntityUID};
use schema_types::{Attributes, DeclaredAttributes};
use std::alloc::{AllocError, Global};
use std::collections::BTreeSet;
use std::marker::Model;

/// A schema: the entity types and the actions that are declared, in the order of their names.
#[derive(Debug)]
pub struct ValidatorSchema {
    entity_types: Vec<ValidatorEntityType>,
    action_ids: Vec<ValidatorActionId>,
}

impl Drop for ValidatorSchema {
    fn drop(self) {
        let ValidatorSchema {
            entity_types,
            action_ids,
        } = self;
        drop(entity_types);
        drop(action_ids);
    }
}

impl Model for ValidatorSchema {
    ghost use Rattle.schema_core.specs.Schema.{SchemaData, coded_schema};

    ghost Value = { SchemaData };

    ghost coded = { coded_schema };

    ghost use Rattle.schema_core.specs.Faults.{IsSchema};

    ghost view = { λ s. record { entity_types = s.entity_types.items; action_ids = s.action_ids.items } };

    ghost invariant = { λ s. IsSchema
        record { entity_types = s.entity_types.items; action_ids = s.action_ids.items } };
}

ghost use Rattle.std.specs.Prelude.{◌≡◌, ◌↔◌, ◌⊎◌, ℕ, List, map, option_map, IfOk, IfSome, IsTrue, MatchResult, MatchOption, Contains};
ghost use Rattle.std.specs.Option.{option_copied};
ghost use Rattle.std.specs.BTreeSet.{IsOrdered};
ghost use Rattle.policy_values.specs.declared.entity_uid.EntityUID.{EntityUID};
ghost use Rattle.policy_values.specs.Uid.{text_cmp, uid_cmp};
ghost use Rattle.schema_core.specs.Schema.{made_of, type_at, action_at, IsKnownType, IsDeclaredAction, HasTypeDescendant, HasActionDescendant, HasUndeclaredAction, AreActionsInSet};
ghost use Rattle.schema_core.specs.Faults.{IsOnce, IsSchema, IsSchemaOfData, IsRefusedData};
ghost use Rattle.schema_core.specs.Declarations.{IsSchemaOf, IsRefused};
ghost use Rattle.schema_core.specs.EnvData.{unlinked_envs};
ghost use Rattle.schema_core.specs.RequestEnvs.{env_data_of};

impl ValidatorSchema {
    /// The schema with these types and actions, in any order, where they keep its rules.
    pub fn new(
        alloc: Global,
        entity_types: Vec<ValidatorEntityType>,
        action_ids: Vec<ValidatorActionId>,
    ) -> Result<ValidatorSchema, SchemaFault>
        requires { IsOnce (map (λ t. t.name) entity_types.items) }
        ensures { MatchResult result (IsSchemaOfData (made_of entity_types.items action_ids.items))
            (IsRefusedData (made_of entity_types.items action_ids.items)) }
    {
        match schema_parts(alloc, entity_types, action_ids) {
            Ok((entity_types, action_ids)) => Ok(ValidatorSchema {
                entity_types,
                action_ids,
            }),
            Err(fault) => Err(fault),
        }
    }

    /// The schema that a document declares: descendants are all members, by one or more steps.
    pub fn from_declarations(
        alloc: Global,
        declarations: SchemaDeclarations,
    ) -> Result<ValidatorSchema, SchemaFault>
        requires { IsOnce (map (λ t. t.name) declarations.entity_types) }
        ensures { MatchResult result (IsSchemaOf declarations) (IsRefused declarations) }
    {
        match declared_parts(alloc, declarations) {
            Ok((entity_types, action_ids)) => Ok(ValidatorSchema {
                entity_types,
                action_ids,
            }),
            Err(fault) => Err(fault),
        }
    }

    /// The entity types, in the order of their names.
    pub fn entity_types(&self) -> &[ValidatorEntityType]
        ensures value { result.now ≡ self.now.entity_types }
        ensures schema { IsSchema self.now }
    {
        &self.entity_types
    }

    /// The actions, in the order of their ids.
    pub fn action_ids(&self) -> &[ValidatorActionId]
        ensures value { result.now ≡ self.now.action_ids }
        ensures schema { IsSchema self.now }
    {
        &self.action_ids
    }

    /// The entity type with the name; none exactly where it is not declared.
    pub fn get_entity_type(&self, name: &EntityType) -> Option<&ValidatorEntityType>
        ensures { option_copied result ≡ type_at self.now name.now }
    {
        match self.entity_types.binary_search_by(|t| t.name().cmp(name)) {
            Ok(i) => Some(&self.entity_types[i]),
            Err(_) => None,
        }
    }

    /// The action with the id; none exactly where it is not declared.
    pub fn get_action_id(&self, uid: &EntityUID) -> Option<&ValidatorActionId>
        ensures { option_copied result ≡ action_at self.now uid.now }
    {
        match self.action_ids.binary_search_by(|a| a.name().cmp(uid)) {
            Ok(i) => Some(&self.action_ids[i]),
            Err(_) => None,
        }
    }

    /// The attributes of the contexts in which the action is asked for; none exactly where the action is not
    /// declared.
    pub fn context_type(&self, uid: &EntityUID) -> Option<&Attributes>
        ensures { option_copied result ≡ option_map (λ a. a.context) (action_at self.now uid.now) }
    {
        match self.get_action_id(uid) {
            Some(action) => Some(action.context()),
            None => None,
        }
    }

    /// Whether the type is declared, or is a type of actions.
    pub fn is_known_entity_type(&self, name: &EntityType) -> bool
        ensures { IsTrue result ↔ IsKnownType self.now name.now }
    {
        name.is_action() || self.get_entity_type(name).is_some()
    }

    /// Whether the action is declared.
    pub fn is_known_action_id(&self, uid: &EntityUID) -> bool
        ensures { IsTrue result ↔ IsDeclaredAction self.now uid.now }
    {
        self.get_action_id(uid).is_some()
    }

    /// Whether entities of the type may have entities of the type `ancestor` as ancestors.
    pub fn has_descendant(&self, ancestor: &EntityType, name: &EntityType) -> bool
        ensures { IsTrue result ↔ HasTypeDescendant self.now ancestor.now name.now }
    {
        match self.get_entity_type(ancestor) {
            Some(entity_type) => entity_type.has_descendant(name),
            None => false,
        }
    }

    /// The type of the entity and its descendants, ascending.
    pub fn get_entity_types_in(
        &self,
        alloc: Global,
        entity: &EntityUID,
    ) -> Result<BTreeSet<EntityType>, AllocError>
        ensures types { IfOk result (λ types. (q : List ℕ) → Contains types.keys q ↔
            ((q ≡ entity.now.entity_type) ⊎ HasTypeDescendant self.now entity.now.entity_type q)) }
        ensures ascending { IfOk result (IsOrdered text_cmp) }
    {
        let mut types = match self.get_entity_type(&entity.entity_type) {
            Some(entity_type) => entity_type.descendants().clone()?,
            None => BTreeSet::new(alloc),
        };
        types.insert(entity.entity_type.clone()?)?;
        Ok(types)
    }

    /// The given actions and their descendants, ascending; none exactly where one of them is not declared.
    pub fn get_actions_in_set(
        &self,
        alloc: Global,
        uids: &[EntityUID],
    ) -> Result<Option<BTreeSet<EntityUID>>, AllocError>
        ensures actions { IfOk result (λ found.
            MatchOption found (HasUndeclaredAction self.now uids.now) (AreActionsInSet self.now uids.now)) }
        ensures ascending { IfOk result (λ found. IfSome found (IsOrdered uid_cmp)) }
    {
        let mut actions = BTreeSet::new(alloc);
        for uid in uids {
            let Some(action) = self.get_action_id(uid) else {
                return Ok(None);
            };
            actions.insert(uid.clone()?)?;
            add_all(&mut actions, action.descendants())?;
        }
        Ok(Some(actions))
    }

    /// The actions that the action is in, ascending.
    pub fn action_ancestors(
        &self,
        alloc: Global,
        uid: &EntityUID,
    ) -> Result<BTreeSet<EntityUID>, AllocError>
        ensures actions { IfOk result (λ actions. (q : EntityUID) →
            Contains actions.keys q ↔ HasActionDescendant self.now q uid.now) }
        ensures ascending { IfOk result (IsOrdered uid_cmp) }
    {
        let mut ancestors = BTreeSet::new(alloc);
        for action in &self.action_ids {
            if action.has_descendant(uid) {
                ancestors.insert(action.name().clone()?)?;
            }
        }
        Ok(ancestors)
    }

    /// Every action with each of its principal types and each of its resource types, ascending in this order,
    /// each with the action's context and without slots.
    pub fn unlinked_request_envs(&self, alloc: Global) -> Result<Vec<RequestEnv<'_>>, AllocError>
        ensures { IfOk result (λ envs. map env_data_of envs.items ≡ unlinked_envs self.now) }
    {
        let mut envs = Vec::new(alloc);
        for action in &self.action_ids {
            add_environments(&mut envs, action)?;
        }
        Ok(envs)
    }
}

impl DeclaredAttributes for ValidatorSchema {
    ghost use Rattle.schema_core.specs.Kinds.{attributes_in};

    ghost declared = { λ s x. option_map (λ t. attributes_in t.kind) (type_at s x) };

    fn attributes_of(&self, entity_type: &EntityType) -> Option<&Attributes> {
        match self.get_entity_type(entity_type) {
            Some(entity_type) => Some(entity_type.attributes()),
            None => None,
        }
    }
}
