//! A set of policies that stays accepted under edits.

use crate::LiveManifestError;
use crate::laws::edits_keep_acceptance;
use crate::live::{not_added, settle_entry};
use link_spec::laws::statics_are_unlinked;
use plain_lemmas::Steps;
use policy_expressions::SlotId;
use policy_set::laws::is_policy_set;
use policy_set::{PolicySet, RemovalError, Template};
use policy_values::{EntityUID, Text};
use schema_core::ValidatorSchema;
use std::alloc::Global;
use std::marker::Model;
use std::sync::ledger::Ledger;

/// A set of policies that is accepted by a schema, under edits. An edit that is refused changes nothing. No manifest
/// is kept beside it: where only that after the last edit is wanted, it is computed once, which costs less than
/// [`LiveManifest`](crate::LiveManifest).
#[derive(Drop)]
pub struct AcceptedPolicies<'a> {
    alloc: Global,
    schema: &'a ValidatorSchema,
    policies: PolicySet,
}

impl<'a> Model for AcceptedPolicies<'a> {
    ghost use Rattle.live_manifest.specs.Kept.{EditedData, coded_edited};
    ghost use Rattle.policy_validate.specs.Accepted.{IsAccepted};

    ghost Value = { EditedData };

    ghost coded = { coded_edited };

    ghost view = { λ l. record { schema = l.schema.now; policies = l.policies } };

    ghost invariant = { λ l. IsAccepted l.schema.now l.policies };
}

impl<'a> AcceptedPolicies<'a> {
    ghost use Rattle.std.specs.Prelude.{◌≡◌, ◌+◌, ◌≤◌, false, IsTrue, length, OnOk, OnErr, IfErr};
    ghost use Rattle.schema_core.specs.EnvData.{unlinked_envs};
    ghost use Rattle.link_spec.specs.Linked.{linked_envs};
    ghost use Rattle.policy_set.specs.Condition.{has_scope_slot};
    ghost use Rattle.policy_set.specs.Removal.{IsNotRemoved};
    ghost use Rattle.policy_validate.specs.Accepted.{IsAccepted};
    ghost use Rattle.live_manifest.specs.Edits.{add_static, add_template, link, remove, no_policies};
    ghost use Rattle.live_manifest.specs.Kept.{IsMade, IsEditRefused};

    /// No policies yet.
    pub fn new(alloc: Global, schema: &'a ValidatorSchema) -> AcceptedPolicies<'a>
        ensures schema { result.schema ≡ schema.now }
        ensures policies { result.policies ≡ no_policies }
    {
        AcceptedPolicies {
            alloc,
            schema,
            policies: PolicySet::new(alloc),
        }
    }

    /// The schema.
    pub fn schema(&self) -> &'a ValidatorSchema
        ensures { result.now ≡ self.now.schema }
    {
        self.schema
    }

    /// The policies, which are accepted.
    pub fn policies(&self) -> &PolicySet
        ensures policies { result.now ≡ self.now.policies }
        ensures accepted { IsAccepted self.now.schema self.now.policies }
    {
        &self.policies
    }

    /// Adds a static policy, a template whose scope has no slot. Errs, in this order, with `PolicySet` where
    /// the set does not take it, and with `Validation` where there are errors in it; `OutOfMemory` may come
    /// in place of any answer. On any error all is as it was.
    pub fn add_static<L: Ledger>(
        &mut self,
        template: Template,
        steps: &mut Steps<L>,
    ) -> Result<(), LiveManifestError>
        requires { has_scope_slot template ≡ false }
        ensures made { OnOk result (IsMade (add_static template) self.old self.new) }
        ensures refused { IfErr result (IsEditRefused (add_static template) self.old) }
        ensures unchanged { OnErr result (self.new ≡ self.old) }
        ensures steps { steps.new ≤ steps.old + length (unlinked_envs self.old.schema) }
    {
        edits_keep_acceptance();
        statics_are_unlinked();
        is_policy_set(&self.policies);
        let id = match template.id().try_clone() {
            Ok(id) => id,
            Err(e) => {
                drop(template);
                return Err(e.into());
            }
        };
        if let Err(e) = self.policies.add_static(template) {
            drop(id);
            return Err(not_added(e));
        }
        is_policy_set(&self.policies);
        settle_entry(self.alloc, self.schema, &mut self.policies, id, steps)
    }

    /// Adds a template, whose scope has a slot. Errs as [`AcceptedPolicies::add_static`] does.
    pub fn add_template<L: Ledger>(
        &mut self,
        template: Template,
        steps: &mut Steps<L>,
    ) -> Result<(), LiveManifestError>
        requires { IsTrue (has_scope_slot template) }
        ensures made { OnOk result (IsMade (add_template template) self.old self.new) }
        ensures refused { IfErr result (IsEditRefused (add_template template) self.old) }
        ensures unchanged { OnErr result (self.new ≡ self.old) }
        ensures steps { steps.new ≤ steps.old + length (linked_envs self.old.schema template) }
    {
        edits_keep_acceptance();
        is_policy_set(&self.policies);
        let id = match template.id().try_clone() {
            Ok(id) => id,
            Err(e) => {
                drop(template);
                return Err(e.into());
            }
        };
        if let Err(e) = self.policies.add_template(template) {
            drop(id);
            return Err(not_added(e));
        }
        settle_entry(self.alloc, self.schema, &mut self.policies, id, steps)
    }

    /// Adds the link of a template of the set under a new id, with an id for each of the template's slots.
    /// Errs as [`AcceptedPolicies::add_static`] does.
    pub fn link<L: Ledger>(
        &mut self,
        template_id: &Text,
        new_id: Text,
        values: Vec<(SlotId, EntityUID)>,
        steps: &mut Steps<L>,
    ) -> Result<(), LiveManifestError>
        ensures made { OnOk result
            (IsMade (link template_id.now new_id values.items) self.old self.new) }
        ensures refused { IfErr result (IsEditRefused (link template_id.now new_id values.items) self.old) }
        ensures unchanged { OnErr result (self.new ≡ self.old) }
        ensures steps { steps.new ≤ steps.old + length (unlinked_envs self.old.schema) }
    {
        edits_keep_acceptance();
        is_policy_set(&self.policies);
        let id = match new_id.try_clone() {
            Ok(id) => id,
            Err(e) => {
                drop(new_id);
                drop(values);
                return Err(e.into());
            }
        };
        if let Err(e) = self.policies.link(template_id, new_id, values) {
            drop(id);
            return Err(not_added(e));
        }
        is_policy_set(&self.policies);
        settle_entry(self.alloc, self.schema, &mut self.policies, id, steps)
    }

    /// Removes the template, static policy or link with the id, and takes no memory. Errs exactly where the
    /// set has no such entry, or a link stands on it; then all is as it was.
    pub fn remove<'b>(&mut self, id: &'b Text) -> Result<(), RemovalError<'b>>
        ensures made { OnOk result (IsMade (remove id.now) self.old self.new) }
        ensures refused { IfErr result (IsNotRemoved self.old.policies id.now) }
        ensures unchanged { OnErr result (self.new ≡ self.old) }
    {
        edits_keep_acceptance();
        is_policy_set(&self.policies);
        self.policies.remove(id)
    }
}
