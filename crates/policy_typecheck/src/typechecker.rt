//! The typechecker.

ghost use Rattle.std.specs.Prelude.{◌≡◌, ◌≤◌, false, IfOk, OnErr, OnOk, map};
ghost use Rattle.std.specs.List.{AllByRecursion};
ghost use Rattle.schema_core.specs.EnvData.{unlinked_envs};
ghost use Rattle.schema_core.specs.RequestEnvs.{env_data_of};
ghost use Rattle.policy_expressions.specs.Slots.{has_slot};
ghost use Rattle.policy_expressions.specs.Tree.{depth_of};
ghost use Rattle.policy_set.specs.Condition.{condition_of};
ghost use Rattle.link_spec.specs.Linked.{linked_envs};
ghost use Rattle.link_spec.specs.Met.{body_check};
ghost use Rattle.typecheck_rules.specs.Check.{check_walked, checked, condition_walked};
ghost use Rattle.policy_typecheck.specs.Added.{all_added, same_error};
ghost use Rattle.typecheck_walk.specs.Answer.{Reports, SaysIn};
ghost use Rattle.typecheck_walk.specs.Known.{KnowsFunctions};
ghost use Rattle.policy_typecheck.specs.Policies.{is_accepted, is_impossible, is_too_deep, refusals, warned};
ghost use Rattle.policy_typecheck.specs.Reported.{all_reported, condition_check, reported};
ghost use Rattle.policy_typecheck.specs.Verdict.{verdict_of};

use crate::added::add_errors;
use crate::bodies::check_bodies;
use crate::no_action::{check_refused, names_no_action};
use crate::policies::{Summary, add_found, say_check};
use crate::verdict::verdict_by;
use crate::{Verdict, linked_request_envs};
use findings::{ValidationError, ValidationWarning};
use indexmap::IndexSet;
use policy_expressions::Expr;
use policy_scope::is_plain_scope;
use policy_set::{Policy, Template};
use policy_values::Text;
use schema_core::{RequestEnv, ValidationMode, ValidatorSchema};
use std::alloc::{AllocError, Global};
use std::marker::Model;
use typecheck_rules::laws::check_is_exact;
use typecheck_walk::{
    Extensions, PolicyCheck, Setting, check_condition, check_walk, is_too_deep, only_too_deep,
};
use typing_spec::ExtensionSchemas;

/// A typechecker for the policies of a schema.
#[derive(Debug, Drop)]
pub struct Typechecker<'a, 'x> {
    schema: &'a ValidatorSchema,
    extensions: Extensions<'a, 'x>,
    mode: ValidationMode,
}

impl<'a, 'x> Model for Typechecker<'a, 'x> {
    ghost use Rattle.schema_core.specs.Schema.{SchemaData, coded_schema};

    ghost Value = { SchemaData };

    ghost coded = { coded_schema };

    ghost view = { λ t. t.schema.now };
}

impl<'a, 'x> Typechecker<'a, 'x> {
    /// The typechecker for a schema, with all extensions.
    pub fn new(
        schema: &'a ValidatorSchema,
        extensions: &'a ExtensionSchemas<'x>,
        mode: ValidationMode,
    ) -> Typechecker<'a, 'x>
        requires { KnowsFunctions extensions.now }
        ensures { result ≡ schema.now }
    {
        Typechecker {
            schema,
            extensions: Extensions::new(extensions),
            mode,
        }
    }

    /// The check of a template's condition in an environment: it succeeds where the condition has the type
    /// True or Bool, is irrelevant where it has the type False, and fails elsewhere, with all that is found;
    /// a condition that is deeper than 200 fails with `TooDeep` alone.
    pub fn typecheck_by_single_request_env<'b>(
        &self,
        alloc: Global,
        t: &'b Template,
        env: &'b RequestEnv<'b>,
    ) -> Result<PolicyCheck, AllocError>
        ensures { IfOk result
            (λ r. Reports t.now.id (checked self.now (env_data_of env.now) (condition_of t.now)) r) }
    {
        self.check_in(alloc, env, t.id(), t.condition())
    }

    /// Types the condition of a template in its environments, and says whether it is accepted: whether it is
    /// not too deep, and fails in none of them. What is found is added behind the errors, environment by
    /// environment; a condition that is not too deep, and is false in each environment, is warned of. What a
    /// list holds already is not added again. On an error both lists are as they were.
    pub fn typecheck_policy(
        &self,
        alloc: Global,
        t: &Template,
        errors: &mut Vec<ValidationError>,
        warnings: &mut Vec<ValidationWarning>,
    ) -> Result<bool, AllocError>
        ensures accepted { IfOk result (λ b. b ≡ is_accepted self.now t.now) }
        ensures errors { OnOk result (errors.new.items ≡
            all_added same_error errors.old.items (refusals self.now t.now)) }
        ensures warnings { OnOk result (warnings.new.items ≡ warned self.now t.now warnings.old.items) }
        ensures unchanged { OnErr result ((errors.new.items ≡ errors.old.items) ×
            (warnings.new.items ≡ warnings.old.items)) }
    {
        let mut found = IndexSet::new(alloc);
        let summary = self.find(alloc, t, &mut found)?;
        add_found(alloc, t.id(), summary.impossible, found, errors, warnings)?;
        Ok(summary.accepted)
    }

    // What the checks of a template come to, with what they find, each once.
    fn find(
        &self,
        alloc: Global,
        t: &Template,
        found: &mut IndexSet<ValidationError>,
    ) -> Result<Summary, AllocError>
        ensures accepted { IfOk result (λ v. v.accepted ≡ is_accepted self.now t.now) }
        ensures impossible { IfOk result (λ v. v.impossible ≡ is_impossible self.now t.now) }
        ensures errors { OnOk result (found.new.keys ≡
            all_added same_error found.old.keys (refusals self.now t.now)) }
    {
        if is_too_deep(t.condition()) {
            add_errors(found, only_too_deep(alloc, t.id())?)?;
            return Ok(Summary {
                accepted: false,
                impossible: false,
            });
        }
        let mut summary = Summary {
            accepted: true,
            impossible: true,
        };
        self.check_all(alloc, t, &mut summary, found)?;
        Ok(summary)
    }

    // Checks the condition in all its environments. Where the ids of the scope have types, only its body is
    // typed, and that only in the environments that meet the scope, without slots: it is false in the others.
    // Where only that of the action has none, the scope fails with no finding of its own.
    fn check_all(
        &self,
        alloc: Global,
        t: &Template,
        summary: &mut Summary,
        found: &mut IndexSet<ValidationError>,
    ) -> Result<(), AllocError>
        requires depth { is_too_deep self.now t.now ≡ false }
        requires body { has_slot t.now.body ≡ false }
        ensures { OnOk result ((summary.new, found.new.keys) ≡
            all_reported t.now.id (condition_check self.now t.now) (summary.old, found.old.keys)
            (linked_envs self.now t.now)) }
    {
        let principal = t.principal_constraint();
        let action = t.action_constraint();
        let resource = t.resource_constraint();
        if is_plain_scope(self.schema, principal, action, resource) {
            check_bodies(self, alloc, t, summary, found)
        } else if names_no_action(self.schema, principal, action, resource) {
            check_refused(self, alloc, t, summary, found)
        } else {
            self.check_conditions(alloc, t, summary, found)
        }
    }

    fn check_conditions(
        &self,
        alloc: Global,
        t: &Template,
        summary: &mut Summary,
        found: &mut IndexSet<ValidationError>,
    ) -> Result<(), AllocError>
        ensures { OnOk result ((summary.new, found.new.keys) ≡
            all_reported t.now.id (condition_check self.now t.now) (summary.old, found.old.keys)
            (linked_envs self.now t.now)) }
    {
        for env in linked_request_envs(alloc, self.schema, t)? {
            let check = self.check_in(alloc, &env, t.id(), t.condition())?;
            say_check(summary, found, check)?;
        }
        Ok(())
    }

    /// The checks of a template's condition in its environments, one after another.
    pub fn typecheck_by_request_env(
        &self,
        alloc: Global,
        t: &Template,
    ) -> Result<Vec<(RequestEnv<'a>, PolicyCheck)>, AllocError>
        ensures environments { IfOk result (λ r. map (λ c. env_data_of c.0) r.items ≡
            linked_envs self.now t.now) }
        ensures checks { IfOk result
            (λ r. AllByRecursion (SaysIn self.now t.now.id (condition_of t.now)) r.items) }
    {
        let envs = linked_request_envs(alloc, self.schema, t)?;
        self.check_in_each(alloc, envs, t.id(), t.condition())
    }

    /// The checks of a policy's own condition in the environments of the schema, one after another.
    pub fn typecheck_linked(
        &self,
        alloc: Global,
        p: &Policy,
    ) -> Result<Vec<(RequestEnv<'a>, PolicyCheck)>, AllocError>
        ensures environments { IfOk result (λ r. map (λ c. env_data_of c.0) r.items ≡
            unlinked_envs self.now) }
        ensures checks { IfOk result
            (λ r. AllByRecursion (SaysIn self.now p.now.id p.now.condition) r.items) }
    {
        let envs = self.schema.unlinked_request_envs(alloc)?;
        self.check_in_each(alloc, envs, p.id(), p.condition())
    }

    /// The check of a policy's own condition in one environment of the schema.
    pub fn typecheck_linked_in<'b>(
        &self,
        alloc: Global,
        p: &'b Policy,
        env: &'b RequestEnv<'b>,
    ) -> Result<PolicyCheck, AllocError>
        ensures { IfOk result
            (λ r. Reports p.now.id (checked self.now (env_data_of env.now) p.now.condition) r) }
    {
        self.check_in(alloc, env, p.id(), p.condition())
    }

    fn check_in_each(
        &self,
        alloc: Global,
        envs: Vec<RequestEnv<'a>>,
        id: &Text,
        condition: &Expr<()>,
    ) -> Result<Vec<(RequestEnv<'a>, PolicyCheck)>, AllocError>
        ensures environments { IfOk result (λ r. map (λ c. env_data_of c.0) r.items ≡
            map env_data_of envs.entry.items) }
        ensures checks { IfOk result
            (λ r. AllByRecursion (SaysIn self.now id.now condition.now) r.items) }
    {
        let mut checks = Vec::new(alloc);
        for env in envs {
            let check = (&*self).check_in(alloc, &env, id, &*condition)?;
            checks.push((env, check))?;
        }
        Ok(checks)
    }

    /// Whether a policy can be true on requests of an environment of the schema: never exactly where its own
    /// condition has the type False there. A condition that is deeper than 200 is not typed.
    pub fn verdict<'b>(
        &self,
        alloc: Global,
        p: &'b Policy,
        env: &'b RequestEnv<'b>,
    ) -> Result<Verdict, AllocError>
        requires { depth_of p.now.condition ≤ 200 }
        ensures { IfOk result (λ v. v ≡ verdict_of self.now p.now.condition (env_data_of env.now)) }
    {
        check_is_exact();
        let check = self.typecheck_linked_in(alloc, p, env)?;
        let verdict = verdict_by(&check);
        drop(check);
        Ok(verdict)
    }

    fn check_in<'b>(
        &self,
        alloc: Global,
        env: &'b RequestEnv<'b>,
        id: &Text,
        condition: &'b Expr<()>,
    ) -> Result<PolicyCheck, AllocError>
        ensures { IfOk result
            (λ r. Reports id.now (checked self.now (env_data_of env.now) condition.now) r) }
    {
        check_condition(&self.setting(alloc, env), id, condition)
    }

    /// Reports of the check of a template's body in an environment.
    pub(crate) fn say_body<'b>(
        &self,
        alloc: Global,
        t: &'b Template,
        env: &'b RequestEnv<'b>,
        summary: &mut Summary,
        found: &mut IndexSet<ValidationError>,
    ) -> Result<(), AllocError>
        ensures { OnOk result ((summary.new, found.new.keys) ≡
            reported t.now.id (body_check self.now t.now (env_data_of env.now)) (
              summary.old,
              found.old.keys,
            )) }
    {
        let check = self.check_walk_in(alloc, env, t.id(), t.non_scope_constraints())?;
        say_check(summary, found, check)
    }

    // At any depth.
    fn check_walk_in<'b>(
        &self,
        alloc: Global,
        env: &'b RequestEnv<'b>,
        id: &Text,
        e: &'b Expr<()>,
    ) -> Result<PolicyCheck, AllocError>
        ensures { IfOk result
            (λ r. Reports id.now (check_walked
            (condition_walked self.now (env_data_of env.now) e.now)) r) }
    {
        check_walk(&self.setting(alloc, env), id, e)
    }

    // Where conditions are typed in the environment.
    fn setting<'b, 's>(&'s self, alloc: Global, env: &'b RequestEnv<'b>) -> Setting<'b, 'a, 's, 'x>
        ensures schema { result.schema.now ≡ self.now }
        ensures environment { result.env.now ≡ env.now }
    {
        Setting {
            alloc,
            schema: self.schema,
            env,
            extensions: &self.extensions,
        }
    }

    pub(crate) fn schema(&self) -> &'a ValidatorSchema
        ensures { result.now ≡ self.now }
    {
        self.schema
    }
}
