//! Evaluation.

ghost use Rattle.std.specs.Prelude.{◌≡◌, IfOk, IfSome, IsOk, IsSome, true, false};
ghost use Rattle.policy_values.specs.Value.{entity, field_at, rec, truth};
ghost use Rattle.entity_store.specs.Request.{IsWhole, known};
ghost use Rattle.policy_expressions.specs.Tree.{trees_of, named_of};
ghost use Rattle.policy_core.specs.Eval.{eval, eval_all, eval_named, result_map, known_fields, literal_value, variable_value, truth_of, truth_outcome, choose, with_value, set_outcome, record_outcome, IsPlain, IsPlainLiteral};
ghost use Rattle.policy_core.specs.Calls.{call_outcome};
ghost use Rattle.policy_core.specs.Operators.{unary_value, binary_value, attr_value, found_or, has_value, like_value, is_value};

use crate::calls::call;
use crate::operators::{
    apply, apply_two, attribute, entry_of_entity, entry_of_value, has_attribute, is_of_type,
    matches_pattern,
};
use crate::{
    BinaryOp, Context, Entities, EntityType, EntityUID, EvalError, Expr, ExprKind, Literal, Name,
    Outcome, Pattern, Request, Text, UnaryOp, Value, ValueKind, Var, push_entry, try_clone_fields,
};
use std::alloc::{AllocError, Global};
use std::collections::BTreeMap;
use std::rc::Rc;

/// Evaluates an expression on a whole request and a store: its value, or its first error.
///
/// `if`, `&&` and `||` evaluate their left operand and stop early; each operand that they use must be a
/// boolean. Every other operator evaluates its operands from the left, and then asks what kinds they are.
/// Errs where memory runs out; a boolean and a long take none.
pub fn evaluate<T>(
    alloc: Global,
    expr: &Expr<T>,
    request: &Request,
    entities: &Entities,
) -> Result<Outcome, AllocError>
    requires { IsWhole request.now }
    ensures outcome { IfOk result (λ o. o ≡ eval expr.now request.now entities.now) }
    ensures no_memory { IsPlainLiteral expr.now → IsOk result }
{
    match expr.kind() {
        ExprKind::Lit(value) => literal_outcome(value),
        _ => outcome_of(alloc, expr, request, entities),
    }
}

#[cycle(evaluate)]
#[tactic(auto, using(crate::proofs::EntrySteps::has_where_entry))]
fn outcome_of<T>(
    alloc: Global,
    expr: &Expr<T>,
    request: &Request,
    entities: &Entities,
) -> Result<Outcome, AllocError>
    requires { IsWhole request.now }
    ensures { IfOk result (λ o. o ≡ eval expr.now request.now entities.now) }
{
    match expr.kind() {
        ExprKind::Lit(value) => literal_outcome(value),
        ExprKind::Var(value) => Ok(Outcome::Value(variable(alloc, *value, request)?)),
        ExprKind::Slot(_) => Ok(Outcome::Error(EvalError::TypeFault)),
        ExprKind::If(x, y, z) => if_of(alloc, x, y, z, request, entities),
        ExprKind::And(x, y) => and_of(alloc, x, y, request, entities),
        ExprKind::Or(x, y) => or_of(alloc, x, y, request, entities),
        ExprKind::UnaryApp(op, x) => match stored_value(x, request, entities) {
            Some(x) => Ok(apply(*op, x)),
            None => {
                let x = outcome_of(alloc, x, request, entities)?;
                Ok(applied(*op, x))
            }
        },
        ExprKind::BinaryApp(op, x, y) => both_of(alloc, *op, x, y, request, entities),
        ExprKind::GetAttr(x, name) => match entry_of(x, name, request, entities) {
            Some(value) => Ok(Outcome::Value(value.try_clone(alloc)?)),
            None => {
                let x = outcome_of(alloc, x, request, entities)?;
                attribute_of(alloc, x, name, entities)
            }
        },
        ExprKind::HasAttr(x, name) => match entry_of(x, name, request, entities) {
            Some(_) => Ok(Outcome::Value(Value::bool(true))),
            None => {
                let x = outcome_of(alloc, x, request, entities)?;
                Ok(has_attribute_of(x, name, entities))
            }
        },
        ExprKind::Like(x, pattern) => match stored_value(x, request, entities) {
            Some(x) => matches_pattern(alloc, x, pattern),
            None => {
                let x = outcome_of(alloc, x, request, entities)?;
                like_of(alloc, x, pattern)
            }
        },
        ExprKind::Is(x, entity_type) => {
            let x = outcome_of(alloc, x, request, entities)?;
            Ok(is_of(x, entity_type))
        }
        ExprKind::ExtensionFunctionApp(name, args) => {
            let args = evaluate_all(alloc, args, request, entities)?;
            Ok(call_of(name, args))
        }
        ExprKind::Set(items) => {
            let values = evaluate_all(alloc, items, request, entities)?;
            Ok(set_of_values(values))
        }
        ExprKind::Record(fields) => {
            let values = evaluate_named(alloc, fields, request, entities)?;
            Ok(record_of_values(values))
        }
    }
}

#[cycle(evaluate)]
fn if_of<T>(
    alloc: Global,
    x: &Rc<Expr<T>>,
    y: &Rc<Expr<T>>,
    z: &Rc<Expr<T>>,
    request: &Request,
    entities: &Entities,
) -> Result<Outcome, AllocError>
    requires { IsWhole request.now }
    ensures { IfOk result (λ o. o ≡ choose (truth_of (eval x.now.value request.now entities.now))
        (eval y.now.value request.now entities.now) (eval z.now.value request.now entities.now)) }
{
    match truth(outcome_of(alloc, x, request, entities)?) {
        Ok(true) => outcome_of(alloc, y, request, entities),
        Ok(false) => outcome_of(alloc, z, request, entities),
        Err(error) => Ok(Outcome::Error(error)),
    }
}

#[cycle(evaluate)]
fn and_of<T>(
    alloc: Global,
    x: &Rc<Expr<T>>,
    y: &Rc<Expr<T>>,
    request: &Request,
    entities: &Entities,
) -> Result<Outcome, AllocError>
    requires { IsWhole request.now }
    ensures { IfOk result (λ o. o ≡ choose (truth_of (eval x.now.value request.now entities.now))
        (truth_outcome (truth_of (eval y.now.value request.now entities.now)))
        (Outcome.Value (truth false))) }
{
    match truth(outcome_of(alloc, x, request, entities)?) {
        Ok(true) => Ok(as_truth(outcome_of(alloc, y, request, entities)?)),
        Ok(false) => Ok(Outcome::Value(Value::bool(false))),
        Err(error) => Ok(Outcome::Error(error)),
    }
}

#[cycle(evaluate)]
fn or_of<T>(
    alloc: Global,
    x: &Rc<Expr<T>>,
    y: &Rc<Expr<T>>,
    request: &Request,
    entities: &Entities,
) -> Result<Outcome, AllocError>
    requires { IsWhole request.now }
    ensures { IfOk result (λ o. o ≡ choose (truth_of (eval x.now.value request.now entities.now))
        (Outcome.Value (truth true)) (truth_outcome (truth_of (eval y.now.value request.now entities.now)))) }
{
    match truth(outcome_of(alloc, x, request, entities)?) {
        Ok(true) => Ok(Outcome::Value(Value::bool(true))),
        Ok(false) => Ok(as_truth(outcome_of(alloc, y, request, entities)?)),
        Err(error) => Ok(Outcome::Error(error)),
    }
}

// The left operand first; its error stays.
#[cycle(evaluate)]
fn both_of<T>(
    alloc: Global,
    op: BinaryOp,
    x: &Rc<Expr<T>>,
    y: &Rc<Expr<T>>,
    request: &Request,
    entities: &Entities,
) -> Result<Outcome, AllocError>
    requires { IsWhole request.now }
    ensures { IfOk result (λ o. o ≡ with_value (eval x.now.value request.now entities.now) (λ v.
        with_value (eval y.now.value request.now entities.now) (λ w. binary_value op v w entities.now))) }
{
    match stored_value(x, request, entities) {
        Some(x) => with_right(alloc, op, x, y, request, entities),
        None => match outcome_of(alloc, x, request, entities)? {
            Outcome::Value(x) => {
                let outcome = with_right(alloc, op, &x, y, request, entities);
                drop(x);
                outcome
            }
            Outcome::Error(error) => Ok(Outcome::Error(error)),
        },
    }
}

// The right operand, and then the operator on the left one's value and its value.
#[cycle(evaluate)]
fn with_right<T>(
    alloc: Global,
    op: BinaryOp,
    x: &Value,
    y: &Rc<Expr<T>>,
    request: &Request,
    entities: &Entities,
) -> Result<Outcome, AllocError>
    requires { IsWhole request.now }
    ensures { IfOk result (λ o. o ≡ with_value (eval y.now.value request.now entities.now)
        (λ w. binary_value op x.now w entities.now)) }
{
    match stored_value(y, request, entities) {
        Some(y) => apply_two(alloc, op, x, y, entities),
        None => {
            let y = outcome_of(alloc, y, request, entities)?;
            applied_to_both(alloc, op, x, y, entities)
        }
    }
}

#[cycle(evaluate)]
#[tactic(auto, using(policy_expressions::proofs::TreeSteps::depth_in))]
fn evaluate_all<T>(
    alloc: Global,
    items: &Vec<Expr<T>>,
    request: &Request,
    entities: &Entities,
) -> Result<Result<Vec<Value>, EvalError>, AllocError>
    requires { IsWhole request.now }
    ensures { IfOk result (λ r. result_map (λ v. v.items) r ≡
        eval_all (trees_of items.now.items) request.now entities.now) }
{
    let mut values = Vec::new(alloc);
    for item in items {
        match outcome_of(alloc, item, request, entities)? {
            Outcome::Value(value) => values.push(value)?,
            Outcome::Error(error) => return Ok(Err(error)),
        }
    }
    Ok(Ok(values))
}

#[cycle(evaluate)]
fn evaluate_named<T>(
    alloc: Global,
    fields: &BTreeMap<Text, Expr<T>>,
    request: &Request,
    entities: &Entities,
) -> Result<Result<BTreeMap<Text, Value>, EvalError>, AllocError>
    requires { IsWhole request.now }
    ensures { IfOk result (λ r. result_map (λ m. m.entries) r ≡
        eval_named (named_of fields.now.entries) request.now entities.now) }
{
    let mut values = BTreeMap::new(alloc);
    for (name, item) in fields.iter() {
        match outcome_of(alloc, item, request, entities)? {
            Outcome::Value(value) => {
                let name = name.try_clone()?;
                push_entry(&mut values, name, value)?;
            }
            Outcome::Error(error) => return Ok(Err(error)),
        }
    }
    Ok(Ok(values))
}

// A boolean and a long take no memory.
fn literal_outcome(literal: &Literal) -> Result<Outcome, AllocError>
    ensures outcome { IfOk result (λ o. o ≡ Outcome.Value (literal_value literal.now)) }
    ensures no_memory { IsPlain literal.now → IsOk result }
{
    match literal {
        Literal::Bool(b) => Ok(Outcome::Value(Value::bool(*b))),
        Literal::Long(n) => Ok(Outcome::Value(Value::long(*n))),
        Literal::String(text) => Ok(Outcome::Value(Value::string(text.try_clone()?))),
        Literal::EntityUID(uid) => Ok(Outcome::Value(Value::entity_uid(uid.try_clone()?))),
    }
}

fn variable(alloc: Global, var: Var, request: &Request) -> Result<Value, AllocError>
    requires { IsWhole request.now }
    ensures { IfOk result (λ v. v ≡ variable_value var request.now) }
{
    match var {
        Var::Principal => known(&request.principal),
        Var::Action => known(&request.action),
        Var::Resource => known(&request.resource),
        Var::Context => context(alloc, &request.context),
    }
}

// The id of an entry that is known.
fn known(uid: &Option<EntityUID>) -> Result<Value, AllocError>
    requires { IsSome uid.now }
    ensures { IfOk result (λ v. v ≡ entity (known uid.now)) }
{
    match uid {
        Some(uid) => Ok(Value::entity_uid(uid.try_clone()?)),
        None => unreachable!(),
    }
}

// The record that a known context is.
fn context(alloc: Global, context: &Option<Context>) -> Result<Value, AllocError>
    requires { IsSome context.now }
    ensures { IfOk result (λ v. v ≡ rec (known_fields context.now)) }
{
    match context {
        Some(context) => Ok(Value::record(try_clone_fields(alloc, context.fields())?)),
        None => unreachable!(),
    }
}

// The truth value, or the error that stands for another outcome.
fn truth(outcome: Outcome) -> Result<bool, EvalError>
    ensures { result ≡ truth_of outcome }
{
    match outcome {
        Outcome::Value(value) => {
            let result = truth_of_value(&value);
            drop(value);
            result
        }
        Outcome::Error(error) => Err(error),
    }
}

fn truth_of_value(value: &Value) -> Result<bool, EvalError>
    ensures { result ≡ truth_of (Outcome.Value value.now) }
{
    match value.kind() {
        ValueKind::Bool(b) => Ok(*b),
        _ => Err(EvalError::TypeFault),
    }
}

// The outcome that has to be a boolean.
fn as_truth(outcome: Outcome) -> Outcome
    ensures { result ≡ truth_outcome (truth_of outcome) }
{
    match truth(outcome) {
        Ok(b) => Outcome::Value(Value::bool(b)),
        Err(error) => Outcome::Error(error),
    }
}

// An operator applied to its operand's value; an error stays.
fn applied(op: UnaryOp, x: Outcome) -> Outcome
    ensures { result ≡ with_value x (λ v. unary_value op v) }
{
    match x {
        Outcome::Value(x) => {
            let outcome = apply(op, &x);
            drop(x);
            outcome
        }
        Outcome::Error(error) => Outcome::Error(error),
    }
}

// An operator applied to the values of both operands; an error stays.
fn applied_to_both(
    alloc: Global,
    op: BinaryOp,
    x: &Value,
    y: Outcome,
    entities: &Entities,
) -> Result<Outcome, AllocError>
    ensures { IfOk result (λ o. o ≡ with_value y (λ w. binary_value op x.now w entities.now)) }
{
    match y {
        Outcome::Value(y) => {
            let outcome = apply_two(alloc, op, x, &y, entities);
            drop(y);
            outcome
        }
        Outcome::Error(error) => Ok(Outcome::Error(error)),
    }
}

// The value of an attribute or a field, as it stands in the request or the store, where the expression is a way to
// one: what an operator only looks at is not copied.
fn stored_value<'a, T>(
    x: &Expr<T>,
    request: &'a Request,
    entities: &'a Entities,
) -> Option<&'a Value>
    requires { IsWhole request.now }
    ensures { IfSome result (λ v. eval x.now request.now entities.now ≡ Outcome.Value v.now) }
{
    match x.kind() {
        ExprKind::GetAttr(x, name) => entry_of(x, name, request, entities),
        _ => None,
    }
}

// What an expression has under a name, as it stands in the request or the store, so that nothing of what it
// goes through is copied; none where it has no such thing, or where that has to be made first.
fn entry_of<'a, T>(
    x: &Expr<T>,
    name: &Text,
    request: &'a Request,
    entities: &'a Entities,
) -> Option<&'a Value>
    requires { IsWhole request.now }
    ensures { IfSome result
        (λ v. with_value (eval x.now request.now entities.now) (λ w. attr_value w name.now entities.now) ≡
        Outcome.Value v.now) }
{
    match x.kind() {
        ExprKind::Var(var) => entry_of_variable(*var, name, request, entities),
        ExprKind::GetAttr(y, before) => match entry_of(y, before, request, entities) {
            Some(value) => entry_of_value(value, name, entities),
            None => None,
        },
        _ => None,
    }
}

fn entry_of_variable<'a>(
    var: Var,
    name: &Text,
    request: &'a Request,
    entities: &'a Entities,
) -> Option<&'a Value>
    requires { IsWhole request.now }
    ensures { IfSome result
        (λ v. attr_value (variable_value var request.now) name.now entities.now ≡ Outcome.Value v.now) }
{
    match var {
        Var::Principal => entry_of_known(&request.principal, name, entities),
        Var::Action => entry_of_known(&request.action, name, entities),
        Var::Resource => entry_of_known(&request.resource, name, entities),
        Var::Context => entry_of_context(&request.context, name),
    }
}

fn entry_of_known<'a>(
    uid: &Option<EntityUID>,
    name: &Text,
    entities: &'a Entities,
) -> Option<&'a Value>
    requires { IsSome uid.now }
    ensures { IfSome result
        (λ v. attr_value (entity (known uid.now)) name.now entities.now ≡ Outcome.Value v.now) }
{
    match uid {
        Some(uid) => entry_of_entity(uid, name, entities),
        None => None,
    }
}

fn entry_of_context<'a>(context: &'a Option<Context>, name: &Text) -> Option<&'a Value>
    requires { IsSome context.now }
    ensures { IfSome result
        (λ v. found_or EvalError.MissingAttribute (field_at (known_fields context.now) name.now) ≡
        Outcome.Value v.now) }
{
    match context {
        Some(context) => context.get(name),
        None => None,
    }
}

// The attribute or field of a value; an error stays.
fn attribute_of(
    alloc: Global,
    x: Outcome,
    name: &Text,
    entities: &Entities,
) -> Result<Outcome, AllocError>
    ensures { IfOk result (λ o. o ≡ with_value x (λ v. attr_value v name.now entities.now)) }
{
    match x {
        Outcome::Value(x) => {
            let outcome = attribute(alloc, &x, name, entities);
            drop(x);
            outcome
        }
        Outcome::Error(error) => Ok(Outcome::Error(error)),
    }
}

// Whether a value has an attribute or field; an error stays.
fn has_attribute_of(x: Outcome, name: &Text, entities: &Entities) -> Outcome
    ensures { result ≡ with_value x (λ v. has_value v name.now entities.now) }
{
    match x {
        Outcome::Value(x) => {
            let outcome = has_attribute(&x, name, entities);
            drop(x);
            outcome
        }
        Outcome::Error(error) => Outcome::Error(error),
    }
}

// Whether a value matches a pattern; an error stays.
fn like_of(alloc: Global, x: Outcome, pattern: &Pattern) -> Result<Outcome, AllocError>
    ensures { IfOk result (λ o. o ≡ with_value x (λ v. like_value v pattern.now)) }
{
    match x {
        Outcome::Value(x) => {
            let outcome = matches_pattern(alloc, &x, pattern);
            drop(x);
            outcome
        }
        Outcome::Error(error) => Ok(Outcome::Error(error)),
    }
}

// Whether a value is an id of a type; an error stays.
fn is_of(x: Outcome, entity_type: &EntityType) -> Outcome
    ensures { result ≡ with_value x (λ v. is_value v entity_type.now) }
{
    match x {
        Outcome::Value(x) => {
            let outcome = is_of_type(&x, entity_type);
            drop(x);
            outcome
        }
        Outcome::Error(error) => Outcome::Error(error),
    }
}

// The set of values; an error stays.
fn set_of_values(values: Result<Vec<Value>, EvalError>) -> Outcome
    ensures { result ≡ set_outcome (result_map (λ v. v.items) values) }
{
    match values {
        Ok(values) => Outcome::Value(Value::set(values)),
        Err(error) => Outcome::Error(error),
    }
}

// The record of values; an error stays.
fn record_of_values(values: Result<BTreeMap<Text, Value>, EvalError>) -> Outcome
    ensures { result ≡ record_outcome (result_map (λ m. m.entries) values) }
{
    match values {
        Ok(values) => Outcome::Value(Value::record(values)),
        Err(error) => Outcome::Error(error),
    }
}

// The call of a function on the values of its arguments; an error stays.
fn call_of(name: &Name, args: Result<Vec<Value>, EvalError>) -> Outcome
    ensures { result ≡ call_outcome name.now (result_map (λ v. v.items) args) }
{
    match args {
        Ok(args) => {
            let outcome = call(name, &args);
            drop(args);
            outcome
        }
        Err(error) => Outcome::Error(error),
    }
}
