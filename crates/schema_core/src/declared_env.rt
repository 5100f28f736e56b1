//! Environments of declared actions.

ghost use Rattle.std.specs.Prelude.{◌≡◌};
ghost use Rattle.schema_core.specs.RequestEnvs.{environment_of};

use policy_values::{EntityType, EntityUID};

/// An environment in which a policy is looked at: an action, and a principal type and a resource type that it
/// applies to.
#[derive(Clone, Copy, Debug, PartialEq, Eq)]
pub struct DeclaredEnv<'a> {
    /// The type of the principal.
    pub principal: &'a EntityType,
    /// The action.
    pub action: &'a EntityUID,
    /// The type of the resource.
    pub resource: &'a EntityType,
}

impl<'a> DeclaredEnv<'a> {
    /// The type of the principal.
    pub fn principal_entity_type(&self) -> &'a EntityType
        ensures { result.now ≡ (environment_of self.now).principal }
    {
        self.principal
    }

    /// The action.
    pub fn action_entity_uid(&self) -> &'a EntityUID
        ensures { result.now ≡ (environment_of self.now).action }
    {
        self.action
    }

    /// The type of the resource.
    pub fn resource_entity_type(&self) -> &'a EntityType
        ensures { result.now ≡ (environment_of self.now).resource }
    {
        self.resource
    }
}
