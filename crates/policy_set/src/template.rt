//! Templates: policies as they are written, a scope and a body, which make one condition.

ghost use Rattle.std.specs.Prelude.{◌≡◌, ◌↔◌, ◌≤◌, true, false, IfOk, Err};
ghost use Rattle.policy_expressions.specs.Tree.{depth_of};
ghost use Rattle.policy_expressions.specs.Slots.{has_slot};
ghost use Rattle.policy_set.specs.Data.{TemplateData};
ghost use Rattle.policy_set.specs.Condition.{condition_of, has_scope_slot, template_of, IsTooDeep};
ghost use Rattle.policy_set.specs.Links.{linked_of, own_condition};

use crate::{ActionConstraint, Effect, EntityReference, PrincipalOrResourceConstraint};
use policy_expressions::{BinaryOp, BuildError, Expr, ExprKind, Literal, SlotId, SlotValues, Var};
use policy_values::{EntityType, EntityUID, Text};
use std::alloc::{AllocError, Global};
use std::marker::Model;

// A condition is one deeper than its body, and may be 400 deep.
const MOST_BODY_DEPTH: u32 = 400;

/// A policy as it is written. Where slots stand in its scope, it is to be linked.
#[derive(Debug)]
pub struct Template {
    id: Text,
    effect: Effect,
    principal_constraint: PrincipalOrResourceConstraint,
    action_constraint: ActionConstraint,
    resource_constraint: PrincipalOrResourceConstraint,
    // Scope and body: the body is its right side.
    condition: Expr<()>,
}

impl Drop for Template {
    fn drop(self) {
        let Template {
            id,
            effect,
            principal_constraint,
            action_constraint,
            resource_constraint,
            condition,
        } = self;
        drop(id);
        drop(effect);
        drop(principal_constraint);
        drop(action_constraint);
        drop(resource_constraint);
        drop(condition);
    }
}

impl Model for Template {
    ghost use Rattle.policy_set.specs.Data.{TemplateData, coded_template};
    ghost use Rattle.policy_set.specs.Condition.{IsTemplate, template_with};

    ghost Value = { TemplateData };

    ghost coded = { coded_template };

    ghost view = { λ t. template_with t.id t.effect t.principal_constraint
        t.action_constraint t.resource_constraint t.condition };

    ghost invariant = { λ t. IsTemplate
        (template_with t.id t.effect t.principal_constraint
        t.action_constraint t.resource_constraint t.condition)
        t.condition };
}

/// Why there is no template.
#[derive(Clone, Copy, Debug, PartialEq, Eq, thiserror::Error)]
pub enum TemplateError {
    /// A slot stands in its body.
    #[error("slot in a condition")]
    SlotInCondition,
    /// Its condition would be nested deeper than 400.
    #[error("nested deeper than 400")]
    Nested,
    /// There is no memory.
    #[error("out of memory")]
    OutOfMemory,
}

impl From<AllocError> for TemplateError {
    ghost use Rattle.std.specs.Prelude.{◌≡◌};
    ghost use Rattle.policy_set.specs.declared.template.TemplateError.TheVariants.{OutOfMemory};

    ghost from_gives = { λ _ e. e ≡ OutOfMemory };

    fn from(_error: AllocError) -> TemplateError {
        TemplateError::OutOfMemory
    }
}

impl From<BuildError> for TemplateError {
    ghost use Rattle.std.specs.Prelude.{◌≡◌};
    ghost use Rattle.policy_set.specs.Condition.{template_error};

    ghost from_gives = { λ b e. e ≡ template_error b };

    fn from(error: BuildError) -> TemplateError {
        match error {
            BuildError::Nested => TemplateError::Nested,
            BuildError::OutOfMemory => TemplateError::OutOfMemory,
        }
    }
}

impl Template {
    /// The template with this id, effect, scope and body. Its condition is `((principal && action) &&
    /// resource) && body`, where an unconstrained part is the literal true. Errs with `SlotInCondition` where
    /// the body has a slot, else with `Nested` where the condition would be nested deeper than 400.
    pub fn new(
        alloc: Global,
        id: Text,
        effect: Effect,
        principal: PrincipalOrResourceConstraint,
        action: ActionConstraint,
        resource: PrincipalOrResourceConstraint,
        body: Expr<()>,
    ) -> Result<Template, TemplateError>
        ensures ok { IfOk result (λ t. t ≡ template_of id effect principal action resource body) }
        ensures slot { (result ≡ Err TemplateError.SlotInCondition) ↔ (has_slot body ≡ true) }
        ensures nested { (result ≡ Err TemplateError.Nested) ↔
            ((has_slot body ≡ false) × IsTooDeep (template_of id effect principal action resource body)) }
    {
        match whole_condition(alloc, &principal, &action, &resource, body) {
            Ok(condition) => Ok(Template {
                id,
                effect,
                principal_constraint: principal,
                action_constraint: action,
                resource_constraint: resource,
                condition,
            }),
            Err(e) => {
                drop(id);
                drop(principal);
                drop(action);
                drop(resource);
                Err(e)
            }
        }
    }

    /// Its id, by which answers name it.
    pub fn id(&self) -> &Text
        ensures { result.now ≡ self.now.id }
    {
        &self.id
    }

    /// What it does where its condition is true.
    pub fn effect(&self) -> Effect
        ensures { result ≡ self.now.effect }
    {
        self.effect
    }

    /// What its scope asks of the principal.
    pub fn principal_constraint(&self) -> &PrincipalOrResourceConstraint
        ensures { result.now ≡ self.now.principal }
    {
        &self.principal_constraint
    }

    /// What its scope asks of the action.
    pub fn action_constraint(&self) -> &ActionConstraint
        ensures { result.now ≡ self.now.action }
    {
        &self.action_constraint
    }

    /// What its scope asks of the resource.
    pub fn resource_constraint(&self) -> &PrincipalOrResourceConstraint
        ensures { result.now ≡ self.now.resource }
    {
        &self.resource_constraint
    }

    /// Its body, which has no slot.
    pub fn non_scope_constraints(&self) -> &Expr<()>
        ensures { result.now ≡ self.now.body }
    {
        match self.condition.kind() {
            ExprKind::And(_, body) => body,
            _ => &self.condition,
        }
    }

    /// Its whole condition, scope and body. Slots stand in its scope alone.
    pub fn condition(&self) -> &Expr<()>
        ensures value { result.now ≡ condition_of self.now }
        ensures body { has_slot self.now.body ≡ false }
    {
        &self.condition
    }

    // A link of it as a template of its own, under another id.
    pub(crate) fn with_ids(
        &self,
        alloc: Global,
        id: Text,
        values: &SlotValues,
    ) -> Result<Template, AllocError>
        ensures link { IfOk result (λ t. t ≡ record (linked_of values.now self.now) { id = id }) }
        ensures condition { IfOk result (λ t. condition_of t ≡ own_condition values.now self.now) }
    {
        let principal = values.value(SlotId::Principal);
        let principal_constraint = or_drop!(self.principal_constraint.with_id(principal), id);
        let action_constraint = or_drop!(
            self.action_constraint.try_clone(),
            id,
            principal_constraint
        );
        let resource = values.value(SlotId::Resource);
        let resource_constraint = or_drop!(
            self.resource_constraint.with_id(resource),
            id,
            principal_constraint,
            action_constraint
        );
        let condition = or_drop!(
            self.condition.substitute(alloc, values),
            id,
            principal_constraint,
            action_constraint,
            resource_constraint
        );
        Ok(Template {
            id,
            effect: self.effect,
            principal_constraint,
            action_constraint,
            resource_constraint,
            condition,
        })
    }

    /// Whether its scope has a slot, so that it is to be linked.
    pub fn has_slot(&self) -> bool
        ensures { result ≡ has_scope_slot self.now }
    {
        self.principal_constraint.has_slot() || self.resource_constraint.has_slot()
    }
}

ghost use Rattle.policy_expressions.specs.declared.kinds.BinaryOp.TheVariants.{In};
ghost use Rattle.std.specs.Prelude.{map};
ghost use Rattle.policy_set.specs.Condition.{scope_of, anything, referred, id_literal, compared, of_type, scope_part, action_part, variable_of};
ghost use Rattle.policy_expressions.specs.Plain.{unmarked};
ghost use Rattle.policy_expressions.specs.Tree.{conj};

// Scope and body. What the body may be is tested before memory is asked for.
fn whole_condition(
    alloc: Global,
    principal: &PrincipalOrResourceConstraint,
    action: &ActionConstraint,
    resource: &PrincipalOrResourceConstraint,
    body: Expr<()>,
) -> Result<Expr<()>, TemplateError>
    ensures ok { IfOk result (λ e. (e ≡ conj (scope_of principal.now action.now resource.now) body unmarked) ×
        (has_slot body ≡ false)) }
    ensures slot { (result ≡ Err TemplateError.SlotInCondition) ↔ (has_slot body ≡ true) }
    ensures nested { (result ≡ Err TemplateError.Nested) ↔ ((has_slot body ≡ false) × (400 ≤ depth_of body)) }
{
    if body.has_slot() {
        drop(body);
        return Err(TemplateError::SlotInCondition);
    }
    if body.depth() >= MOST_BODY_DEPTH {
        drop(body);
        return Err(TemplateError::Nested);
    }
    let scope = match scope_condition(alloc, principal, action, resource) {
        Ok(scope) => scope,
        Err(e) => {
            drop(body);
            return Err(e.into());
        }
    };
    match Expr::and(alloc, scope, body, (), None) {
        Ok(condition) => Ok(condition),
        Err(e) => Err(e.into()),
    }
}

// The scope's part of the condition. An expression that is not needed is let go by a call, which keeps
// proofs short.
fn scope_condition(
    alloc: Global,
    principal: &PrincipalOrResourceConstraint,
    action: &ActionConstraint,
    resource: &PrincipalOrResourceConstraint,
) -> Result<Expr<()>, BuildError>
    ensures ok { IfOk result (λ e. e ≡ scope_of principal.now action.now resource.now) }
    ensures depth { IfOk result (λ e. depth_of e ≤ 5) }
    ensures shallow { result ≡ Err BuildError.Nested → ⊥ }
{
    let principal = part(alloc, SlotId::Principal, principal)?;
    let action = match action_condition(alloc, action) {
        Ok(action) => action,
        Err(e) => {
            drop(principal);
            return Err(e);
        }
    };
    let who_and_what = Expr::and(alloc, principal, action, (), None)?;
    let resource = match part(alloc, SlotId::Resource, resource) {
        Ok(resource) => resource,
        Err(e) => {
            drop(who_and_what);
            return Err(e);
        }
    };
    Expr::and(alloc, who_and_what, resource, (), None)
}

// What a constraint asks of the variable beside which the slot stands.
fn part(
    alloc: Global,
    slot: SlotId,
    constraint: &PrincipalOrResourceConstraint,
) -> Result<Expr<()>, BuildError>
    ensures ok { IfOk result (λ e. e ≡ scope_part slot constraint.now) }
    ensures depth { IfOk result (λ e. depth_of e ≤ 3) }
    ensures shallow { result ≡ Err BuildError.Nested → ⊥ }
{
    match constraint {
        PrincipalOrResourceConstraint::Any => Ok(anything()),
        PrincipalOrResourceConstraint::Eq(entity) => compared(alloc, BinaryOp::Eq, slot, entity),
        PrincipalOrResourceConstraint::In(entity) => compared(alloc, BinaryOp::In, slot, entity),
        PrincipalOrResourceConstraint::Is(entity_type) => of_type(alloc, slot, entity_type),
        PrincipalOrResourceConstraint::IsIn(entity_type, entity) => {
            of_type_in(alloc, slot, entity_type, entity)
        }
    }
}

// What a constraint asks of the action.
#[tactic(auto, using(crate::proofs::Depths::literals_depth))]
fn action_condition(alloc: Global, constraint: &ActionConstraint) -> Result<Expr<()>, BuildError>
    ensures ok { IfOk result (λ e. e ≡ action_part constraint.now) }
    ensures depth { IfOk result (λ e. depth_of e ≤ 3) }
    ensures shallow { result ≡ Err BuildError.Nested → ⊥ }
{
    match constraint {
        ActionConstraint::Any => Ok(anything()),
        ActionConstraint::Eq(uid) => {
            let right = id_literal(uid)?;
            let left = Expr::var(Var::Action, (), None);
            Expr::binary_app(alloc, BinaryOp::Eq, left, right, (), None)
        }
        ActionConstraint::In(uids) => {
            let items = literals(alloc, uids.as_slice())?;
            let right = Expr::set(items, (), None)?;
            let left = Expr::var(Var::Action, (), None);
            Expr::binary_app(alloc, BinaryOp::In, left, right, (), None)
        }
    }
}

fn anything() -> Expr<()>
    ensures { result ≡ anything }
{
    Expr::lit(Literal::Bool(true), (), None)
}

fn id_literal(uid: &EntityUID) -> Result<Expr<()>, AllocError>
    ensures { IfOk result (λ e. e ≡ id_literal uid.now) }
{
    Ok(Expr::lit(Literal::EntityUID(uid.try_clone()?), (), None))
}

// The literals of the ids.
fn literals(alloc: Global, uids: &[EntityUID]) -> Result<Vec<Expr<()>>, AllocError>
    ensures { IfOk result (λ es. es.items ≡ map id_literal uids.now) }
{
    let mut literals = Vec::new(alloc);
    for uid in uids {
        literals.push(id_literal(uid)?)?;
    }
    Ok(literals)
}

// The variable beside which the slot stands.
fn variable_of(slot: SlotId) -> Var
    ensures { result ≡ variable_of slot }
{
    match slot {
        SlotId::Principal => Var::Principal,
        SlotId::Resource => Var::Resource,
    }
}

// The entity that is named, or the slot.
fn referred(slot: SlotId, entity: &EntityReference) -> Result<Expr<()>, AllocError>
    ensures ok { IfOk result (λ e. e ≡ referred slot entity.now) }
    ensures depth { IfOk result (λ e. depth_of e ≡ 1) }
{
    match entity {
        EntityReference::EUID(uid) => id_literal(uid),
        EntityReference::Slot => Ok(Expr::slot(slot, (), None)),
    }
}

fn compared(
    alloc: Global,
    op: BinaryOp,
    slot: SlotId,
    entity: &EntityReference,
) -> Result<Expr<()>, BuildError>
    ensures ok { IfOk result (λ e. e ≡ compared op slot entity.now) }
    ensures depth { IfOk result (λ e. depth_of e ≤ 2) }
    ensures shallow { result ≡ Err BuildError.Nested → ⊥ }
{
    let right = referred(slot, entity)?;
    let left = Expr::var(variable_of(slot), (), None);
    Expr::binary_app(alloc, op, left, right, (), None)
}

fn of_type(alloc: Global, slot: SlotId, entity_type: &EntityType) -> Result<Expr<()>, BuildError>
    ensures ok { IfOk result (λ e. e ≡ of_type slot entity_type.now) }
    ensures depth { IfOk result (λ e. depth_of e ≤ 2) }
    ensures shallow { result ≡ Err BuildError.Nested → ⊥ }
{
    let entity_type = entity_type.try_clone()?;
    let variable = Expr::var(variable_of(slot), (), None);
    Expr::is(alloc, variable, entity_type, (), None)
}

fn of_type_in(
    alloc: Global,
    slot: SlotId,
    entity_type: &EntityType,
    entity: &EntityReference,
) -> Result<Expr<()>, BuildError>
    ensures ok { IfOk result
        (λ e. e ≡ conj (of_type slot entity_type.now) (compared In slot entity.now) unmarked) }
    ensures depth { IfOk result (λ e. depth_of e ≤ 3) }
    ensures shallow { result ≡ Err BuildError.Nested → ⊥ }
{
    let left = of_type(alloc, slot, entity_type)?;
    let right = match compared(alloc, BinaryOp::In, slot, entity) {
        Ok(right) => right,
        Err(e) => {
            drop(left);
            return Err(e);
        }
    };
    Expr::and(alloc, left, right, (), None)
}
