//! The set, its manifest, and the edits.

use crate::building::manifest_of;
use crate::entry::{check_entry, tries_of_entry};
use crate::laws::edits_keep_acceptance;
use crate::rest::{all_united, others};
use crate::uniting::united;
use crate::{LiveManifestError, LiveRemovalError};
use access_tries::RootAccessTrie;
use link_spec::laws::statics_are_unlinked;
use manifest_core::EntityManifest;
use plain_lemmas::Steps;
use policy_expressions::SlotId;
use policy_set::laws::is_policy_set;
use policy_set::{PolicySet, PolicySetError, Template};
use policy_validate::condition_laws::each_found_is_typed;
use policy_validate::laws::accepted_are_typed;
use policy_values::{EntityUID, Text};
use schema_core::ValidatorSchema;
use std::alloc::{AllocError, Global};
use std::collections::BTreeMap;
use std::marker::Model;
use std::sync::ledger::Ledger;

/// A set of policies that is accepted by a schema, and its manifest, which is kept under edits: after each
/// edit it is the one that [`manifest_computation::compute_entity_manifest`] answers for the policies. An
/// edit that is refused changes nothing.
#[derive(Drop)]
pub struct LiveManifest<'a> {
    alloc: Global,
    schema: &'a ValidatorSchema,
    policies: PolicySet,
    // Of each policy its own tries, one for each environment of the schema, in their order.
    tries: BTreeMap<Text, Vec<RootAccessTrie>>,
    manifest: EntityManifest,
}

impl<'a> Model for LiveManifest<'a> {
    ghost use Rattle.live_manifest.specs.Kept.{LiveData, coded_live, IsKept};
    ghost use Rattle.live_manifest.specs.Tries.{HaveTries};

    ghost Value = { LiveData };

    ghost coded = { coded_live };

    ghost view = { λ l. record { schema = l.schema.now; policies = l.policies; manifest = l.manifest } };

    ghost invariant = { λ l. IsKept
        (record { schema = l.schema.now; policies = l.policies; manifest = l.manifest })
        × HaveTries l.schema.now l.tries l.policies.policies };
}

impl<'a> LiveManifest<'a> {
    ghost use Rattle.std.specs.Prelude.{◌≡◌, ◌+◌, ◌*◌, ◌≤◌, false, IsTrue, length, OnOk, OnErr, IfErr, MatchResult};
    ghost use Rattle.schema_core.specs.EnvData.{unlinked_envs};
    ghost use Rattle.link_spec.specs.Linked.{linked_envs};
    ghost use Rattle.policy_set.specs.Condition.{has_scope_slot};
    ghost use Rattle.live_manifest.specs.Edits.{add_static, add_template, link, remove, no_policies};
    ghost use Rattle.live_manifest.specs.Kept.{edited, IsWithoutPolicies, IsKept, IsMade, IsEditRefused, IsNotTaken};

    /// No policies yet.
    pub fn new(alloc: Global, schema: &'a ValidatorSchema) -> LiveManifest<'a>
        ensures schema { result.schema ≡ schema.now }
        ensures first { IsWithoutPolicies result }
    {
        LiveManifest {
            alloc,
            schema,
            policies: PolicySet::new(alloc),
            tries: BTreeMap::new(alloc),
            manifest: EntityManifest::new(BTreeMap::new(alloc)),
        }
    }

    /// The manifest of the policies, as it is computed from them.
    pub fn manifest(&self) -> &EntityManifest
        ensures manifest { result.now ≡ self.now.manifest }
        ensures kept { IsKept self.now }
    {
        &self.manifest
    }

    /// The policies, which are accepted.
    pub fn policies(&self) -> &PolicySet
        ensures policies { result.now ≡ self.now.policies }
        ensures kept { IsKept self.now }
    {
        &self.policies
    }

    /// Adds a static policy, a template whose scope has no slot. Errs, in this order, with `PolicySet` where
    /// the set does not take it, and with `Validation` where there are errors in it; `OutOfMemory` may come
    /// in place of any answer. On any error all is as it was.
    pub fn add_static<L: Ledger>(
        &mut self,
        template: Template,
        steps: &mut Steps<L>,
    ) -> Result<(), LiveManifestError>
        requires { has_scope_slot template ≡ false }
        ensures made { OnOk result (IsMade (add_static template) (edited self.old) (edited self.new)) }
        ensures refused { IfErr result (IsEditRefused (add_static template) (edited self.old)) }
        ensures unchanged { OnErr result (self.new ≡ self.old) }
        ensures steps { steps.new ≤ steps.old + 2 * length (unlinked_envs self.old.schema) }
    {
        edits_keep_acceptance();
        statics_are_unlinked();
        is_policy_set(&self.policies);
        let id = match template.id().try_clone() {
            Ok(id) => id,
            Err(e) => {
                drop(template);
                return Err(e.into());
            }
        };
        if let Err(e) = self.policies.add_static(template) {
            drop(id);
            return Err(not_added(e));
        }
        let settled = settle(
            self.alloc,
            self.schema,
            &mut self.policies,
            id,
            &mut self.tries,
            &self.manifest,
            steps,
        );
        match settled {
            Ok(manifest) => {
                self.manifest = manifest;
                Ok(())
            }
            Err(e) => Err(e),
        }
    }

    /// Adds a template, whose scope has a slot; the manifest is as it was. Errs as
    /// [`LiveManifest::add_static`] does.
    pub fn add_template<L: Ledger>(
        &mut self,
        template: Template,
        steps: &mut Steps<L>,
    ) -> Result<(), LiveManifestError>
        requires { IsTrue (has_scope_slot template) }
        ensures made { OnOk result (IsMade (add_template template) (edited self.old) (edited self.new)) }
        ensures refused { IfErr result (IsEditRefused (add_template template) (edited self.old)) }
        ensures unchanged { OnErr result (self.new ≡ self.old) }
        ensures steps { steps.new ≤ steps.old + 2 * length (linked_envs self.old.schema template) }
    {
        edits_keep_acceptance();
        is_policy_set(&self.policies);
        let id = match template.id().try_clone() {
            Ok(id) => id,
            Err(e) => {
                drop(template);
                return Err(e.into());
            }
        };
        if let Err(e) = self.policies.add_template(template) {
            drop(id);
            return Err(not_added(e));
        }
        settle_entry(self.alloc, self.schema, &mut self.policies, id, steps)
    }

    /// Adds the link of a template of the set under a new id, with an id for each of the template's slots.
    /// Errs as [`LiveManifest::add_static`] does.
    pub fn link<L: Ledger>(
        &mut self,
        template_id: &Text,
        new_id: Text,
        values: Vec<(SlotId, EntityUID)>,
        steps: &mut Steps<L>,
    ) -> Result<(), LiveManifestError>
        ensures made { OnOk result
            (IsMade (link template_id.now new_id values.items) (edited self.old) (edited self.new)) }
        ensures refused { IfErr result
            (IsEditRefused (link template_id.now new_id values.items) (edited self.old)) }
        ensures unchanged { OnErr result (self.new ≡ self.old) }
        ensures steps { steps.new ≤ steps.old + 2 * length (unlinked_envs self.old.schema) }
    {
        edits_keep_acceptance();
        is_policy_set(&self.policies);
        let id = match new_id.try_clone() {
            Ok(id) => id,
            Err(e) => {
                drop(new_id);
                drop(values);
                return Err(e.into());
            }
        };
        if let Err(e) = self.policies.link(template_id, new_id, values) {
            drop(id);
            return Err(not_added(e));
        }
        let settled = settle(
            self.alloc,
            self.schema,
            &mut self.policies,
            id,
            &mut self.tries,
            &self.manifest,
            steps,
        );
        match settled {
            Ok(manifest) => {
                self.manifest = manifest;
                Ok(())
            }
            Err(e) => Err(e),
        }
    }

    /// Removes the template, static policy or link with the id. Errs with `PolicySet` exactly where the set
    /// has no such entry, or a link stands on it; `OutOfMemory` may come in place of any answer. On any error
    /// all is as it was.
    pub fn remove<'b>(&mut self, id: &'b Text) -> Result<(), LiveRemovalError<'b>>
        ensures made { OnOk result (IsMade (remove id.now) (edited self.old) (edited self.new)) }
        ensures refused { IfErr result (IsNotTaken id.now (edited self.old)) }
        ensures unchanged { OnErr result (self.new ≡ self.old) }
    {
        edits_keep_acceptance();
        is_policy_set(&self.policies);
        if !has_policy(&self.policies, id) {
            return match self.policies.remove(id) {
                Ok(()) => Ok(()),
                Err(e) => Err(LiveRemovalError::PolicySet(e)),
            };
        }
        let left = without_policy(self.alloc, self.schema, &self.policies, id, &self.tries)?;
        match self.policies.remove(id) {
            Ok(()) => {
                let _tries = self.tries.remove(id);
                self.manifest = left;
                Ok(())
            }
            Err(e) => {
                drop(left);
                Err(LiveRemovalError::PolicySet(e))
            }
        }
    }
}

ghost use Rattle.std.specs.Prelude.{◌≡◌, ◌+◌, ◌≤◌, [], length, None, OnErr, OnOk, IfOk, IfErr, IsSome, is_some};
ghost use Rattle.schema_core.specs.EnvData.{unlinked_envs};
ghost use Rattle.policy_set.specs.PolicySet.{IsTaken, policy_at};
ghost use Rattle.policy_set.specs.Removal.{removal_fault, without};
ghost use Rattle.policy_validate.specs.Accepted.{IsAccepted};
ghost use Rattle.manifest_computation.specs.Computed.{IsManifestOf};
ghost use Rattle.policy_validate.specs.Entries.{findings_of_entry, steps_of_entry};
ghost use Rattle.live_manifest.specs.Faults.{IsFaulty, IsNotAddedFor};
ghost use Rattle.live_manifest.specs.Adding.{AddsTo};
ghost use Rattle.live_manifest.specs.Tries.{AreTypedTries, HaveTries};

fn has_policy(policies: &PolicySet, id: &Text) -> bool
    ensures { result ≡ is_some (policy_at policies.now id.now) }
{
    policies.policy(id).is_some()
}

/// That the set does not take an entry.
pub(crate) fn not_added(error: PolicySetError) -> LiveManifestError
    ensures { IsNotAddedFor error result }
{
    match error {
        PolicySetError::OutOfMemory => LiveManifestError::OutOfMemory,
        fault => LiveManifestError::PolicySet(fault),
    }
}

// The manifest of the policies, of which the one with the id was just added; its tries are put to the others.
// On an error the policy is taken out again, and the tries are as they were.
fn settle<L: Ledger>(
    alloc: Global,
    schema: &ValidatorSchema,
    policies: &mut PolicySet,
    id: Text,
    tries: &mut BTreeMap<Text, Vec<RootAccessTrie>>,
    manifest: &EntityManifest,
    steps: &mut Steps<L>,
) -> Result<EntityManifest, LiveManifestError>
    requires { IsSome (policy_at policies.old id) }
    ensures found { OnOk result ((findings_of_entry schema.now policies.old id).errors ≡ []) }
    ensures added { IfOk result (AddsTo schema.now policies.old id tries.old tries.new manifest.now) }
    ensures kept { OnOk result (policies.new ≡ policies.old) }
    ensures refused { IfErr result (IsFaulty (findings_of_entry schema.now policies.old id)) }
    ensures taken_back { OnErr result ((policies.new ≡ without id policies.old) ×
        (tries.new.entries ≡ tries.old.entries)) }
    ensures steps { steps.new ≤ steps.old +
        (steps_of_entry schema.now policies.old id + length (unlinked_envs schema.now)) }
{
    is_policy_set(policies);
    match with_policy(alloc, schema, policies, &id, tries, manifest, steps) {
        Ok(made) => {
            drop(id);
            Ok(made)
        }
        Err(e) => {
            take_back(policies, &id);
            drop(id);
            Err(e)
        }
    }
}

/// Errs where there are errors in the entry with the id, which was just added, and takes it out again.
pub(crate) fn settle_entry<L: Ledger>(
    alloc: Global,
    schema: &ValidatorSchema,
    policies: &mut PolicySet,
    id: Text,
    steps: &mut Steps<L>,
) -> Result<(), LiveManifestError>
    requires taken { IsTaken policies.old id }
    requires removable { removal_fault policies.old id ≡ None }
    ensures found { OnOk result ((findings_of_entry schema.now policies.old id).errors ≡ []) }
    ensures kept { OnOk result (policies.new ≡ policies.old) }
    ensures refused { IfErr result (IsFaulty (findings_of_entry schema.now policies.old id)) }
    ensures taken_back { OnErr result (policies.new ≡ without id policies.old) }
    ensures steps { steps.new ≤ steps.old + steps_of_entry schema.now policies.old id }
{
    match check_entry(alloc, schema, policies, &id, steps) {
        Ok(()) => {
            drop(id);
            Ok(())
        }
        Err(e) => {
            take_back(policies, &id);
            drop(id);
            Err(e)
        }
    }
}

// Takes out again what was just added.
fn take_back(policies: &mut PolicySet, id: &Text)
    requires { removal_fault policies.old id.now ≡ None }
    ensures { policies.new ≡ without id.now policies.old }
{
    let _removed = policies.remove(id);
}

// The manifest of the policies, of which the one with the id was just added; its tries are put to the others.
// On an error the tries are as they were.
fn with_policy<L: Ledger>(
    alloc: Global,
    schema: &ValidatorSchema,
    policies: &PolicySet,
    id: &Text,
    tries: &mut BTreeMap<Text, Vec<RootAccessTrie>>,
    manifest: &EntityManifest,
    steps: &mut Steps<L>,
) -> Result<EntityManifest, LiveManifestError>
    requires { IsSome (policy_at policies.now id.now) }
    ensures found { OnOk result ((findings_of_entry schema.now policies.now id.now).errors ≡ []) }
    ensures added { IfOk result
        (AddsTo schema.now policies.now id.now tries.old tries.new manifest.now) }
    ensures refused { IfErr result (IsFaulty (findings_of_entry schema.now policies.now id.now)) }
    ensures unchanged { OnErr result (tries.new.entries ≡ tries.old.entries) }
    ensures steps { steps.new ≤ steps.old +
        (steps_of_entry schema.now policies.now id.now + length (unlinked_envs schema.now)) }
{
    tries_where_accepted(schema, policies);
    check_entry(alloc, schema, policies, id, steps)?;
    let own = tries_of_entry(alloc, schema, policies, id, steps)?;
    let all = united(alloc, manifest, own.as_slice())?;
    let made = manifest_of(alloc, schema, all)?;
    let key = id.try_clone()?;
    match tries.insert(key, own) {
        Ok(_replaced) => Ok(made),
        Err(e) => Err(AllocError::from(e).into()),
    }
}

// In an accepted set the tries that checks leave of a policy are its own.
fn tries_where_accepted(schema: &ValidatorSchema, policies: &PolicySet)
    ensures { IsAccepted schema.now policies.now → AreTypedTries schema.now policies.now }
{
    each_found_is_typed();
    accepted_are_typed();
    let _actions = schema.action_ids();
    is_policy_set(policies);
}

// The manifest of the policies without the one with the id.
fn without_policy(
    alloc: Global,
    schema: &ValidatorSchema,
    policies: &PolicySet,
    id: &Text,
    tries: &BTreeMap<Text, Vec<RootAccessTrie>>,
) -> Result<EntityManifest, AllocError>
    requires { HaveTries schema.now tries.now policies.now.policies }
    ensures { IfOk result (IsManifestOf schema.now (without id.now policies.now).policies) }
{
    let rest = others(alloc, schema, policies, id, tries)?;
    if rest.is_empty() {
        return Ok(EntityManifest::new(BTreeMap::new(alloc)));
    }
    let united = all_united(alloc, schema, rest.as_slice())?;
    manifest_of(alloc, schema, united)
}
