//! The trie of an environment, of a few conditions at a time.

ghost use Rattle.std.specs.Prelude.{◌≡◌, ◌++◌, [], true, false, List, IfOk, OnOk, IfSome, None};
ghost use Rattle.schema_core.specs.RequestEnvs.{env_data_of};
ghost use Rattle.policy_set.specs.Condition.{scope_of};
ghost use Rattle.policy_set.specs.PolicySet.{IsLinkedIn};
ghost use Rattle.typing_spec.specs.Typing.{Typed};
ghost use Rattle.policy_validate.specs.AcceptanceLaws.{LeavesAll};
ghost use Rattle.typecheck_rules.specs.Check.{checked};
ghost use Rattle.manifest_computation.specs.Gathered.{AreHeld, HoldSame, IsConditionTaken, IsPartTaken, IsTaken, IsTrieLeft, part_in};
ghost use Rattle.policy_validate.specs.Found.{condition_in, condition_reported};

use access_tries::RootAccessTrie;
use path_analysis::conditions_trie;
use policy_expressions::{Expr, ExprKind};
use policy_set::laws::is_policy_set;
use policy_set::{Policy, PolicySet};
use policy_validate::PolicyCheck;
use policy_values::Text;
use schema_core::{RequestEnv, ValidatorSchema};
use schema_types::Type;
use std::alloc::{AllocError, Global};
use std::collections::BTreeSet;
use typecheck_walk::{Extensions, Setting, check_walk, is_too_deep};

// How many conditions are kept with their types at a time: few, so that they are still near when they are
// read, but the more the larger the trie is, which is copied each time.
const AT_ONCE: usize = 16;

/// The trie of what the policies' conditions read and ask for in the environment, each with its types there;
/// nothing where the check of one fails. The body that links of one template share is typed once.
pub(crate) fn trie_of_policies<'a>(
    alloc: Global,
    schema: &'a ValidatorSchema,
    extensions: &Extensions<'a, '_>,
    env: &'a RequestEnv<'a>,
    policies: &'a PolicySet,
) -> Result<Option<RootAccessTrie>, AllocError>
    ensures trie { IfOk result
        (λ o. IfSome o (IsTrieLeft schema.now (env_data_of env.now) policies.now.policies)) }
    ensures missing { IfOk result (λ o. o ≡ None →
        ¬ LeavesAll schema.now policies.now.policies (env_data_of env.now)) }
{
    is_policy_set(policies);
    let at = Setting {
        alloc,
        schema,
        env,
        extensions,
    };
    let mut trie = RootAccessTrie::new(alloc);
    let mut conditions = Vec::new(alloc);
    let mut bodies = BTreeSet::new(alloc);
    for policy in policies.policies() {
        let left = take_policy(
            &at,
            policies,
            policy,
            &mut bodies,
            &mut conditions,
            &mut trie,
        )?;
        if !left {
            return Ok(None);
        }
    }
    add_all(alloc, schema, env, &mut conditions, &mut trie)?;
    Ok(Some(trie))
}

// Takes what the check of a policy's condition leaves, its scope and its body apart; says whether that is
// anything.
fn take_policy<'a>(
    at: &Setting<'a, 'a, '_, '_>,
    policies: &PolicySet,
    policy: &'a Policy,
    bodies: &mut BTreeSet<Text>,
    conditions: &mut Vec<Expr<Option<Type>>>,
    trie: &mut RootAccessTrie,
) -> Result<bool, AllocError>
    requires link { IsLinkedIn policies.now policy.now }
    requires held { AreHeld at.now.schema.now (env_data_of at.now.env.now) policies.now
        bodies.old trie.old conditions.old.items }
    ensures taken { IfOk result (λ b. b ≡ true → IsConditionTaken
        at.now.schema.now (env_data_of at.now.env.now) policy.now.condition
        trie.new conditions.new.items trie.old conditions.old.items) }
    ensures missing { IfOk result (λ b. b ≡ false →
        condition_in (checked at.now.schema.now (env_data_of at.now.env.now) policy.now.condition) ≡ None) }
    ensures held { IfOk result
        (λ b. b ≡ true → AreHeld at.now.schema.now (env_data_of at.now.env.now) policies.now
        bodies.new trie.new conditions.new.items) }
{
    if is_too_deep(policy.condition()) {
        return Ok(false);
    }
    let check = check_walk(at, policy.id(), scope_of(policy))?;
    match check {
        PolicyCheck::Success(scope) => {
            take(at.alloc, at.schema, at.env, scope, conditions, trie)?;
            take_body(at, policies, policy, bodies, conditions, trie)
        }
        PolicyCheck::Irrelevant(scope) => {
            take(at.alloc, at.schema, at.env, scope, conditions, trie)?;
            Ok(true)
        }
        PolicyCheck::Fail(found) => {
            drop(found);
            Ok(false)
        }
    }
}

// The scope of a policy, as an expression.
fn scope_of(policy: &Policy) -> &Expr<()>
    ensures { result.now ≡ scope_of policy.now.principal policy.now.action policy.now.resource }
{
    let condition = policy.condition();
    match condition.kind() {
        ExprKind::And(scope, _) => scope,
        _ => condition,
    }
}

// Takes what the check of a policy's body leaves, unless it is a template's and was taken for another link.
fn take_body<'a>(
    at: &Setting<'a, 'a, '_, '_>,
    policies: &PolicySet,
    policy: &'a Policy,
    bodies: &mut BTreeSet<Text>,
    conditions: &mut Vec<Expr<Option<Type>>>,
    trie: &mut RootAccessTrie,
) -> Result<bool, AllocError>
    requires link { IsLinkedIn policies.now policy.now }
    requires held { AreHeld at.now.schema.now (env_data_of at.now.env.now) policies.now
        bodies.old trie.old conditions.old.items }
    ensures taken { IfOk result (λ b. b ≡ true → IsPartTaken
        at.now.schema.now (env_data_of at.now.env.now) policy.now.body
        trie.new conditions.new.items trie.old conditions.old.items) }
    ensures missing { IfOk result (λ b. b ≡ false →
        part_in at.now.schema.now (env_data_of at.now.env.now) policy.now.body ≡ None) }
    ensures held { IfOk result
        (λ b. b ≡ true → AreHeld at.now.schema.now (env_data_of at.now.env.now) policies.now
        bodies.new trie.new conditions.new.items) }
{
    match policy.template() {
        Some(template) => {
            if bodies.contains(template) {
                return Ok(true);
            }
            let id = template.try_clone()?;
            bodies.insert(id)?;
            take_typed_body(at, policy, conditions, trie)
        }
        None => take_typed_body(at, policy, conditions, trie),
    }
}

// Takes what the check of a policy's body leaves.
fn take_typed_body<'a>(
    at: &Setting<'a, 'a, '_, '_>,
    policy: &'a Policy,
    conditions: &mut Vec<Expr<Option<Type>>>,
    trie: &mut RootAccessTrie,
) -> Result<bool, AllocError>
    ensures taken { IfOk result (λ b. b ≡ true → IsPartTaken
        at.now.schema.now (env_data_of at.now.env.now) policy.now.body
        trie.new conditions.new.items trie.old conditions.old.items) }
    ensures missing { IfOk result (λ b. b ≡ false →
        part_in at.now.schema.now (env_data_of at.now.env.now) policy.now.body ≡ None) }
{
    let check = check_walk(at, policy.id(), policy.non_scope_constraints())?;
    match condition_of(check) {
        Some(body) => {
            take(at.alloc, at.schema, at.env, body, conditions, trie)?;
            Ok(true)
        }
        None => Ok(false),
    }
}

fn condition_of(check: PolicyCheck) -> Option<Expr<Option<Type>>>
    ensures { result ≡ condition_reported check }
{
    match check {
        PolicyCheck::Success(condition) | PolicyCheck::Irrelevant(condition) => Some(condition),
        PolicyCheck::Fail(found) => {
            drop(found);
            None
        }
    }
}

// Takes a condition to the others, and adds them to the trie where they are enough.
fn take<'a>(
    alloc: Global,
    schema: &'a ValidatorSchema,
    env: &'a RequestEnv<'a>,
    condition: Expr<Option<Type>>,
    conditions: &mut Vec<Expr<Option<Type>>>,
    trie: &mut RootAccessTrie,
) -> Result<(), AllocError>
    ensures { OnOk result
        (IsTaken schema.now (env_data_of env.now) trie.new conditions.new.items
        trie.old conditions.old.items condition) }
{
    conditions.push(condition)?;
    if is_enough(conditions.len(), trie.nodes().len()) {
        add_all(alloc, schema, env, conditions, trie)
    } else {
        Ok(())
    }
}

fn is_enough(conditions: usize, nodes: usize) -> bool {
    conditions >= AT_ONCE && conditions >= nodes / 4
}

// Adds what the conditions read and ask for to the trie, and lets go of them.
fn add_all<'a>(
    alloc: Global,
    schema: &'a ValidatorSchema,
    env: &'a RequestEnv<'a>,
    conditions: &mut Vec<Expr<Option<Type>>>,
    trie: &mut RootAccessTrie,
) -> Result<(), AllocError>
    ensures none { OnOk result (conditions.new.items ≡ []) }
    ensures same { OnOk result ((ts : List Typed) →
        HoldSame schema.now (env_data_of env.now) trie.new ts trie.old (conditions.old.items ++
        ts)) }
{
    let more = conditions_trie(alloc, schema, env, conditions.as_slice())?;
    trie.union_mut(alloc, &more)?;
    conditions.clear();
    Ok(())
}
