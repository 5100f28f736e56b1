//! The errors of a policy whose conditions ask for entities too far from the request.

ghost use Rattle.std.specs.Prelude.{◌≡◌, ◌↔◌, IfOk, OnOk, All, map, fold, [], true};
ghost use Rattle.std.specs.List.{AllByRecursion, flat_map};
ghost use Rattle.schema_core.specs.EnvData.{action_in};
ghost use Rattle.schema_core.specs.RequestEnvs.{env_data_of};
ghost use Rattle.policy_scope.specs.Names.{distinct, with_new};
ghost use Rattle.level_spec.specs.Findings.{level_faults};
ghost use Rattle.level_validate.specs.Faults.{fault_of, fault_cmp};
ghost use Rattle.level_validate.specs.Errors.{level_error, level_errors_in, faults_in, dereferences_in, PassesIn, IsReportedOf, condition_in};
ghost use Rattle.level_validate.specs.Seen.{HasSeen};

use crate::fault::Fault;
use crate::laws::level_errors_are_exact;
use crate::walk::{Checked, check};
use findings::ValidationError;
use policy_expressions::{Expr, Loc};
use policy_values::Text;
use schema_core::RequestEnv;
use schema_types::Type;
use std::alloc::{AllocError, Global};
use std::collections::BTreeSet;
use std::marker::Model;

/// The errors of a policy that is checked for a level, by its typed conditions in environments: for each
/// dereference that needs a higher level, and for each that is of a literal or a slot. They stand in the
/// order of the conditions, and in each in the order of the walk: those in the left operand of a dereference,
/// those in its right operand, and that of the dereference; equal ones once, at the first place. Of a chain
/// of dereferences only the outermost is reported.
pub fn level_errors(
    alloc: Global,
    policy_id: &Text,
    max_level: u32,
    conditions: &Vec<(RequestEnv<'_>, Expr<Option<Type>>)>,
) -> Result<Vec<ValidationError>, AllocError>
    ensures found { IfOk result (λ errors. errors.items ≡
        level_errors_in policy_id.now max_level (map condition_in conditions.now.items)) }
    ensures none { IfOk result (λ errors. (errors.items ≡ []) ↔
        AllByRecursion (PassesIn max_level) (map condition_in conditions.now.items)) }
    ensures reported { IfOk result
        (λ errors. AllByRecursion
        (IsReportedOf policy_id.now max_level
        (flat_map dereferences_in (map condition_in conditions.now.items))) errors.items) }
{
    level_errors_are_exact();
    let faults = faults_in_all(alloc, max_level, conditions)?;
    faults.errors(alloc, policy_id, max_level)
}

// What is found, each once.
fn faults_in_all(
    alloc: Global,
    max_level: u32,
    conditions: &Vec<(RequestEnv<'_>, Expr<Option<Type>>)>,
) -> Result<LevelFaults, AllocError>
    ensures { IfOk result (λ faults. faults ≡
        distinct fault_cmp (flat_map (faults_in max_level)
        (map condition_in conditions.now.items))) }
{
    let mut faults = LevelFaults::new(alloc);
    for (env, condition) in conditions {
        faults = faults.with(alloc, env, max_level, condition)?;
    }
    Ok(faults)
}

/// What is found in the typed conditions of a policy that is checked for a level, one after another: each
/// fault once, at its first place.
#[derive(Drop)]
pub struct LevelFaults {
    seen: BTreeSet<(Option<u32>, Option<Loc>)>,
    distinct: Vec<Fault>,
}

impl Model for LevelFaults {
    ghost use Rattle.std.specs.Prelude.{List, map};
    ghost use Rattle.level_spec.specs.Findings.{LevelFault};
    ghost use Rattle.level_validate.specs.Faults.{fault_of};

    ghost Value = { List LevelFault };

    ghost view = { λ a. map fault_of a.distinct.items };

    ghost use Rattle.level_validate.specs.Seen.{HasSeen};

    ghost invariant = { λ a. HasSeen a.seen (map fault_of a.distinct.items) };
}

impl LevelFaults {
    /// Nothing yet.
    pub fn new(alloc: Global) -> LevelFaults
        ensures { result ≡ [] }
    {
        LevelFaults {
            seen: BTreeSet::new(alloc),
            distinct: Vec::new(alloc),
        }
    }

    /// With what is found in one condition more, typed in an environment.
    pub fn with(
        self,
        alloc: Global,
        env: &RequestEnv<'_>,
        max_level: u32,
        condition: &Expr<Option<Type>>,
    ) -> Result<LevelFaults, AllocError>
        ensures { IfOk result (λ faults. faults ≡
            fold (with_new fault_cmp) self
            (level_faults (action_in (env_data_of env.now)) max_level condition.now)) }
    {
        let LevelFaults {
            mut seen,
            mut distinct,
        } = self;
        let faults = faults_of(alloc, env, max_level, condition)?;
        add_new(faults, &mut seen, &mut distinct)?;
        Ok(LevelFaults { seen, distinct })
    }

    /// As errors of the policy.
    pub fn errors(
        &self,
        alloc: Global,
        policy_id: &Text,
        max_level: u32,
    ) -> Result<Vec<ValidationError>, AllocError>
        ensures { IfOk result (λ errors. errors.items ≡
            map (level_error policy_id.now max_level) self.now) }
    {
        errors_of(alloc, policy_id, max_level, &self.distinct)
    }
}

// What is found in a condition.
fn faults_of(
    alloc: Global,
    env: &RequestEnv<'_>,
    max_level: u32,
    condition: &Expr<Option<Type>>,
) -> Result<Vec<Fault>, AllocError>
    ensures { IfOk result (λ faults. map fault_of faults.items ≡
        level_faults (action_in (env_data_of env.now)) max_level condition.now) }
{
    let at = Checked {
        action: env.action_entity_uid(),
        max_level,
    };
    let mut faults = Vec::new(alloc);
    check(&at, condition, &mut faults)?;
    Ok(faults)
}

// Adds those that were not seen.
fn add_new(
    faults: Vec<Fault>,
    seen: &mut BTreeSet<(Option<u32>, Option<Loc>)>,
    distinct: &mut Vec<Fault>,
) -> Result<(), AllocError>
    requires { HasSeen seen.old (map fault_of distinct.old.items) }
    ensures seen { OnOk result (HasSeen seen.new (map fault_of distinct.new.items)) }
    ensures added { OnOk result (map fault_of distinct.new.items ≡
        fold (with_new fault_cmp) (map fault_of distinct.old.items) (map fault_of faults.items)) }
{
    for fault in faults {
        if seen.insert((fault.needed, fault.source_loc))? {
            distinct.push(fault)?;
        }
    }
    Ok(())
}

// As errors of the policy.
fn errors_of(
    alloc: Global,
    policy_id: &Text,
    max_level: u32,
    faults: &Vec<Fault>,
) -> Result<Vec<ValidationError>, AllocError>
    ensures { IfOk result (λ errors. errors.items ≡
        map (level_error policy_id.now max_level) (map fault_of faults.now.items)) }
{
    let mut errors = Vec::new(alloc);
    for fault in faults {
        errors.push(fault.error(policy_id, max_level)?)?;
    }
    Ok(errors)
}
