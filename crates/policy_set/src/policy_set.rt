//! Sets of policies.

use crate::link::{check_slots, slot_values};
use crate::{Policy, Template};
use policy_expressions::SlotId;
use policy_expressions::laws::keys_are_once;
use policy_values::{EntityUID, Text};
use std::alloc::{AllocError, Global};
use std::cmp::Ordering;
use std::collections::BTreeMap;
use std::collections::btree_map::Values;
use std::marker::Model;

/// Templates and policies under their ids, in the order of the ids. An id stands once among all of them.
#[derive(Debug)]
pub struct PolicySet {
    templates: BTreeMap<Text, Template>,
    policies: BTreeMap<Text, Policy>,
}

impl Drop for PolicySet {
    fn drop(self) {
        let PolicySet {
            templates,
            policies,
        } = self;
        drop(templates);
        drop(policies);
    }
}

impl Model for PolicySet {
    ghost use Rattle.std.specs.BTreeMap.{values};
    ghost use Rattle.policy_set.specs.PolicySet.{PolicySetData, coded_set, HoldsSet};

    ghost Value = { PolicySetData };

    ghost coded = { coded_set };

    ghost view = { λ s. record { templates = values s.templates; policies = values s.policies } };

    ghost invariant = { λ s. HoldsSet s.templates s.policies };
}

/// Why a template or a policy is not added to a set.
#[derive(Debug, Drop, thiserror::Error)]
pub enum PolicySetError {
    /// A template or a policy of the set has this id already.
    #[error("duplicate id `{0}`")]
    DuplicateId(Text),
    /// No template of the set has this id.
    #[error("unknown template `{0}`")]
    UnknownTemplate(Text),
    /// Nothing is given for this slot of the template.
    #[error("slot missing: {0:?}")]
    SlotMissing(SlotId),
    /// The template does not have this slot, or more than one id is given for it.
    #[error("slot extra: {0:?}")]
    SlotExtra(SlotId),
    /// There is no memory.
    #[error("out of memory")]
    OutOfMemory,
}

impl From<AllocError> for PolicySetError {
    ghost use Rattle.std.specs.Prelude.{◌≡◌};
    ghost use Rattle.policy_set.specs.declared.policy_set.PolicySetError.TheVariants.{OutOfMemory};

    ghost from_gives = { λ _ e. e ≡ OutOfMemory };

    fn from(_error: AllocError) -> PolicySetError {
        PolicySetError::OutOfMemory
    }
}

/// Why an entry is not removed from a set.
#[derive(Clone, Copy, Debug, thiserror::Error)]
pub enum RemovalError<'a> {
    /// No entry of the set has this id.
    #[error("unknown policy `{0}`")]
    UnknownPolicy(&'a Text),
    /// A link of the set stands on the template with this id.
    #[error("template in use: `{0}`")]
    TemplateInUse(&'a Text),
}

impl PolicySet {
    ghost use Rattle.std.specs.Prelude.{◌≡◌, IsTrue, false, [], length, map, OnErr, MatchResult, None, IfOk, IfErr, OnOk};
    ghost use Rattle.std.specs.Option.{option_copied};
    ghost use Rattle.std.specs.List.{AllByRecursion};
    ghost use Rattle.std.specs.List.Sorted.{IsStrictlySortedBy};
    ghost use Rattle.std.specs.Map.Iter.{ShowsInOrder, deref};
    ghost use Rattle.policy_values.specs.Uid.{text_cmp};
    ghost use Rattle.policy_set.specs.Data.{TemplateData, PolicyData};
    ghost use Rattle.policy_set.specs.Condition.{IsPolicy, has_scope_slot, static_of};
    ghost use Rattle.policy_set.specs.Removal.{is_linked, removal_fault, without, IsNotRemoved};
    ghost use Rattle.policy_set.specs.PolicySet.{template_at, policy_at, is_taken, with_template, with_policy, written, links, id_fault, link_fault, template_fault, IsLinkWith, IsLinkAdded, IsNotAdded, IsToLink, IsLinkedIn};

    /// A set without templates and policies.
    pub fn new(alloc: Global) -> PolicySet
        ensures { result ≡ record { templates = []; policies = [] } }
    {
        PolicySet {
            templates: BTreeMap::new(alloc),
            policies: BTreeMap::new(alloc),
        }
    }

    /// Adds a static policy, a template whose scope has no slot. Errs with `DuplicateId` where a template or
    /// a policy of the set has its id. On any error the set is unchanged and the policy is dropped.
    pub fn add_static(&mut self, template: Template) -> Result<(), PolicySetError>
        requires { has_scope_slot template ≡ false }
        ensures answer { MatchResult result
            (λ _. (id_fault self.old template.id ≡ None) ×
            (self.new ≡ with_policy (static_of template) self.old))
            (IsNotAdded (id_fault self.old template.id)) }
        ensures unchanged { OnErr result (self.new ≡ self.old) }
    {
        if self.is_taken(template.id()) {
            return Err(duplicate(template));
        }
        self.put_policy(Policy::from_template(template))?;
        Ok(())
    }

    /// Adds a template, whose scope has a slot. Errs with `DuplicateId` where a template or a policy of the
    /// set has its id. On any error the set is unchanged and the template is dropped.
    pub fn add_template(&mut self, template: Template) -> Result<(), PolicySetError>
        requires { IsTrue (has_scope_slot template) }
        ensures answer { MatchResult result
            (λ _. (id_fault self.old template.id ≡ None) × (self.new ≡ with_template template self.old))
            (IsNotAdded (id_fault self.old template.id)) }
        ensures unchanged { OnErr result (self.new ≡ self.old) }
    {
        if self.is_taken(template.id()) {
            return Err(duplicate(template));
        }
        self.put_template(template)?;
        Ok(())
    }

    /// Adds the link of a template of the set under a new id, with an id for each of the template's slots.
    /// Errs, in this order, with `DuplicateId` where a template or a policy has the new id, with
    /// `UnknownTemplate` where there is no such template, with `SlotMissing` where a slot of the template is
    /// given nothing, with `SlotExtra` where a slot is given that the template does not have, or one is given
    /// twice; of the last two the principal's slot first. On any error the set is unchanged and the values
    /// are dropped.
    pub fn link(
        &mut self,
        template_id: &Text,
        new_id: Text,
        values: Vec<(SlotId, EntityUID)>,
    ) -> Result<(), PolicySetError>
        ensures answer { MatchResult result
            (λ _. IsLinkAdded self.old self.new template_id.now new_id values.items)
            (IsNotAdded (link_fault self.old template_id.now new_id values.items)) }
        ensures unchanged { OnErr result (self.new ≡ self.old) }
    {
        if self.is_taken(&new_id) {
            drop(values);
            return Err(PolicySetError::DuplicateId(new_id));
        }
        let policy = self.linked(template_id, new_id, values)?;
        self.put_policy(policy)?;
        Ok(())
    }

    // The link of a template of the set under an id.
    fn linked(
        &self,
        template_id: &Text,
        id: Text,
        values: Vec<(SlotId, EntityUID)>,
    ) -> Result<Policy, PolicySetError>
        ensures answer { MatchResult result (IsLinkWith self.now template_id.now id values.items)
            (IsNotAdded
            (template_fault (template_at self.now template_id.now) template_id.now values.items)) }
        ensures link { IfOk result (IsLinkedIn self.now) }
    {
        let template = match self.template(template_id) {
            Some(template) => template,
            None => {
                drop(id);
                drop(values);
                return Err(PolicySetError::UnknownTemplate(template_id.try_clone()?));
            }
        };
        if let Err(e) = check_slots(template, &values) {
            drop(id);
            drop(values);
            return Err(e);
        }
        let alloc = *values.allocator();
        let policy = Policy::link(alloc, template, id, slot_values(values))?;
        Ok(policy)
    }

    // Whether a template or a policy has the id.
    fn is_taken(&self, id: &Text) -> bool
        ensures { result ≡ is_taken self.now id.now }
    {
        self.template(id).is_some() || self.policy(id).is_some()
    }

    // Adds a template whose id is new.
    fn put_template(&mut self, template: Template) -> Result<(), AllocError>
        requires slot { IsTrue (has_scope_slot template) }
        requires new { is_taken self.old template.id ≡ false }
        ensures added { OnOk result (self.new ≡ with_template template self.old) }
        ensures unchanged { OnErr result (self.new ≡ self.old) }
    {
        let _condition = template.condition();
        let id = match template.id().try_clone() {
            Ok(id) => id,
            Err(e) => {
                drop(template);
                return Err(e);
            }
        };
        put(&mut self.templates, id, template)?;
        Ok(())
    }

    // Adds a policy whose id is new.
    fn put_policy(&mut self, policy: Policy) -> Result<(), AllocError>
        requires new { is_taken self.old policy.id ≡ false }
        requires link { IsLinkedIn self.old policy }
        ensures added { OnOk result (self.new ≡ with_policy policy self.old) }
        ensures unchanged { OnErr result (self.new ≡ self.old) }
    {
        let _condition = policy.condition();
        let id = match policy.id().try_clone() {
            Ok(id) => id,
            Err(e) => {
                drop(policy);
                return Err(e);
            }
        };
        put(&mut self.policies, id, policy)?;
        Ok(())
    }

    /// Removes the template, static policy or link with the id, and takes no memory. Errs, in this order,
    /// with `UnknownPolicy` where no entry has the id, and with `TemplateInUse` where a link stands on it. On
    /// an error the set is unchanged.
    pub fn remove<'a>(&mut self, id: &'a Text) -> Result<(), RemovalError<'a>>
        ensures removed { OnOk result
            ((removal_fault self.old id.now ≡ None) × (self.new ≡ without id.now self.old)) }
        ensures refused { IfErr result (IsNotRemoved self.old id.now) }
        ensures unchanged { OnErr result (self.new ≡ self.old) }
    {
        if !self.is_taken(id) {
            return Err(RemovalError::UnknownPolicy(id));
        }
        if self.is_linked(id) {
            return Err(RemovalError::TemplateInUse(id));
        }
        self.take_out(id);
        Ok(())
    }

    // Whether a link stands on the template with the id.
    fn is_linked(&self, id: &Text) -> bool
        ensures { result ≡ is_linked self.now id.now }
    {
        for policy in self.policies() {
            if stands_on(policy, id) {
                return true;
            }
        }
        false
    }

    // Takes what has the id out of the set.
    fn take_out(&mut self, id: &Text)
        requires { removal_fault self.old id.now ≡ None }
        ensures { self.new ≡ without id.now self.old }
    {
        let template = self.templates.remove(id);
        drop(template);
        let policy = self.policies.remove(id);
        drop(policy);
    }

    /// How many policies there are, static ones and links.
    pub fn len(&self) -> usize
        ensures { result ≡ length self.now.policies }
    {
        self.policies.len()
    }

    /// The template with an id, where there is one.
    pub fn template(&self, id: &Text) -> Option<&Template>
        ensures { option_copied result ≡ template_at self.now id.now }
    {
        self.templates.get(id)
    }

    /// The policy with an id, where there is one.
    pub fn policy(&self, id: &Text) -> Option<&Policy>
        ensures { option_copied result ≡ policy_at self.now id.now }
    {
        self.policies.get(id)
    }

    /// All templates, in the order of their ids; the scope of each has a slot.
    pub fn templates(&self) -> Values<'_, Text, Template>
        ensures rest { result ≡ self.now.templates }
        ensures runs { ShowsInOrder (deref {X = TemplateData}) }
        ensures ascending { IsStrictlySortedBy text_cmp (map (λ t. t.id) self.now.templates) }
        ensures templates { AllByRecursion IsToLink self.now.templates }
    {
        self.templates.values()
    }

    /// All policies, in the order of their ids; none has a slot.
    pub fn policies(&self) -> Values<'_, Text, Policy>
        ensures rest { result ≡ self.now.policies }
        ensures runs { ShowsInOrder (deref {X = PolicyData}) }
        ensures ascending { IsStrictlySortedBy text_cmp (map (λ p. p.id) self.now.policies) }
        ensures policies { AllByRecursion IsPolicy self.now.policies }
    {
        self.policies.values()
    }

    /// The templates and the static policies, as they are written, in the order of their ids.
    pub fn written(&self, alloc: Global) -> Result<Vec<&Template>, AllocError>
        ensures { IfOk result (λ ts. map (deref {X = TemplateData}) ts.items ≡ written self.now) }
    {
        let mut by_id = BTreeMap::new(alloc);
        for template in self.templates.values() {
            put(&mut by_id, template.id().try_clone()?, template)?;
        }
        for policy in self.policies.values() {
            if policy.is_static() {
                put(&mut by_id, policy.id().try_clone()?, policy.written())?;
            }
        }
        collected(alloc, by_id)
    }

    /// The policies that are links, in the order of their ids.
    pub fn links(&self, alloc: Global) -> Result<Vec<&Policy>, AllocError>
        ensures { IfOk result (λ ps. map (deref {X = PolicyData}) ps.items ≡ links self.now) }
    {
        let mut links = Vec::new(alloc);
        for policy in self.policies.values() {
            if !policy.is_static() {
                links.push(policy)?;
            }
        }
        Ok(links)
    }
}

ghost use Rattle.std.specs.Prelude.{◌≡◌, false, OnOk, OnErr, IfOk, Some};
ghost use Rattle.std.specs.Option.{option_map_or};
ghost use Rattle.std.specs.Ordering.{is_eq};
ghost use Rattle.policy_set.specs.PolicySet.{AreKeyedOnce, IsNotAdded, IsPolicySet};
ghost use Rattle.policy_set.specs.declared.policy_set.PolicySetError.TheVariants.{DuplicateId};
ghost use Rattle.std.specs.BTreeMap.{IsOrdered, insert_entry, values};
ghost use Rattle.policy_values.specs.Uid.{text_cmp};

/// In a set the ids ascend and stand once among templates and policies, and each link is that of a template
/// of the set.
pub fn is_policy_set(set: &PolicySet)
    ensures { IsPolicySet set.now }
{
    let _policies = &set.policies;
}

/// Each record of a policy's condition has each of its keys once.
pub fn have_keys_once(set: &PolicySet)
    ensures { AreKeyedOnce set.now.policies }
{
    for policy in set.policies() {
        keys_are_once(policy.condition());
    }
}

// The templates in the order of their ids.
fn collected<'a>(
    alloc: Global,
    by_id: BTreeMap<Text, &'a Template>,
) -> Result<Vec<&'a Template>, AllocError>
    ensures { IfOk result (λ ts. ts.items ≡ values by_id.entry) }
{
    let mut templates = Vec::new(alloc);
    for template in by_id.into_values() {
        templates.push(template)?;
    }
    Ok(templates)
}

// Whether the policy is a link of the template with the id.
fn stands_on(policy: &Policy, id: &Text) -> bool
    ensures { result ≡ option_map_or (λ l. is_eq (text_cmp id.now l.template)) policy.now.link false }
{
    match policy.template() {
        Some(template) => id.cmp(template) == Ordering::Equal,
        None => false,
    }
}

// That the id of the template is taken.
fn duplicate(template: Template) -> PolicySetError
    ensures { IsNotAdded (Some (DuplicateId template.id)) result }
{
    let id = template.id().try_clone();
    drop(template);
    match id {
        Ok(id) => PolicySetError::DuplicateId(id),
        Err(e) => e.into(),
    }
}

// Puts a value under a key.
fn put<V: Drop>(map: &mut BTreeMap<Text, V>, key: Text, value: V) -> Result<(), AllocError>
    ensures ordered { OnOk result (IsOrdered text_cmp map.new) }
    ensures put { OnOk result (map.new.entries ≡ insert_entry text_cmp map.old.entries key value) }
    ensures unchanged { OnErr result (map.new.entries ≡ map.old.entries) }
{
    match map.insert(key, value) {
        Ok(replaced) => {
            drop(replaced);
            Ok(())
        }
        Err(e) => Err(AllocError::from(e)),
    }
}
