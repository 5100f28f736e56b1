//! Calls of extension functions.

ghost use Rattle.std.specs.Prelude.{◌≡◌, ℕ, List, IfOk, Some, option_map};
ghost use Rattle.std.specs.Coded.{Coded-set, coded_list};
ghost use Rattle.schema_types.specs.TyCode.{coded_ty};
ghost use Rattle.policy_expressions.specs.Functions.{function_of};
ghost use Rattle.policy_expressions.specs.Tree.{trees_of};
ghost use Rattle.typing_spec.specs.Signatures.{signature_of, is_constructor, are_literals, is_literal, same_types, has_count, has_literals, has_readable, is_formed, only_text};
ghost use Rattle.typing_spec.specs.Signatures as definition;
ghost use Rattle.typing_spec.specs.Table.{check_of, function_at, typed};
ghost use Rattle.findings.specs.Finding as finding;
ghost use Rattle.typecheck_rules.specs.Own.{if_not, text_found};
ghost use Rattle.typecheck_rules.specs.Own as own;
ghost use Rattle.typecheck_rules.specs.Walked as walked;
ghost use Rattle.typecheck_rules.specs.Found.{findings_from};

use crate::expected::is_same_type;
use crate::finding::{Finding, FindingKind, joined, one};
use policy_expressions::{
    Expr, ExprKind, ExtensionFunction, Loc, UnaryFunction, extension_function,
};
use policy_values::Name;
use schema_types::Type;
use std::alloc::{AllocError, Global};
use typing_spec::{ExtensionFunctionType, ExtensionSchemas};

/// An extension function, with what it takes and gives.
#[derive(Clone, Copy)]
pub struct CalledFunction<'a> {
    /// The function.
    pub function: ExtensionFunction,
    /// What it takes and gives.
    pub signature: &'a ExtensionFunctionType,
    ghost takes: { signature.now.signature.arguments ≡ (signature_of function).arguments } by { Coded-set (coded_list coded_ty) signature.now.signature.arguments (signature_of function).arguments },
    ghost gives: { signature.now.signature.result ≡ (signature_of function).result } by { Coded-set coded_ty signature.now.signature.result (signature_of function).result },
    ghost is_checked: { signature.now.check ≡ check_of function },
}

/// The function of a name.
pub fn called_function<'a>(
    extensions: &ExtensionSchemas<'a>,
    name: &Name,
) -> Option<CalledFunction<'a>>
    requires { (n : List ℕ) →
        function_at extensions.now.function_types n ≡ option_map (typed n) (function_of n) }
    ensures { option_map (λ c. c.function) result ≡ function_of name.now }
{
    match extension_function(name.as_str()) {
        Some(function) => match extensions.func_type(name) {
            Some(signature) => Some(CalledFunction {
                function,
                signature,
            }),
            None => unreachable!(),
        },
        None => None,
    }
}

/// The types of the arguments.
pub fn argument_types<'a>(f: CalledFunction<'a>) -> &'a [Type]
    ensures { result.now ≡ (signature_of f.entry.function).arguments }
{
    f.signature.argument_types()
}

/// The type of the result.
pub fn result_type(alloc: Global, f: CalledFunction<'_>) -> Result<Type, AllocError>
    ensures { IfOk result (λ t. t ≡ (signature_of f.entry.function).result) }
{
    f.signature.return_type().try_clone(alloc)
}

/// The type of a call, by its arguments and their types.
pub fn call_type(
    alloc: Global,
    f: CalledFunction<'_>,
    arguments: &[Expr<()>],
    types: &[Type],
) -> Result<Option<Type>, AllocError>
    ensures { IfOk result
        (λ o. o ≡ definition.call_type (Some f.entry.function) (trees_of arguments.now) types.now) }
{
    if is_formed(alloc, f, arguments)? && are_same_types(types, argument_types(f)) {
        Ok(Some(result_type(alloc, f)?))
    } else {
        Ok(None)
    }
}

// Whether the number of the arguments is right, those of a constructor are literals, and a single string
// literal can be read.
fn is_formed(
    alloc: Global,
    f: CalledFunction<'_>,
    arguments: &[Expr<()>],
) -> Result<bool, AllocError>
    ensures { IfOk result (λ b. b ≡ is_formed f.entry.function (trees_of arguments.now)) }
{
    if has_count(f, arguments) && has_literals(f.function, arguments) {
        has_readable(alloc, f, arguments)
    } else {
        Ok(false)
    }
}

#[tactic(auto, using(crate::proofs::CallSteps::count_is_length))]
fn has_count(f: CalledFunction<'_>, arguments: &[Expr<()>]) -> bool
    ensures { result ≡ has_count f.entry.function (trees_of arguments.now) }
{
    arguments.len() == argument_types(f).len()
}

fn has_literals(f: ExtensionFunction, arguments: &[Expr<()>]) -> bool
    ensures { result ≡ has_literals f (trees_of arguments.now) }
{
    !is_constructor(f) || are_literals(arguments)
}

fn is_constructor(f: ExtensionFunction) -> bool
    ensures { result ≡ is_constructor f }
{
    match f {
        ExtensionFunction::Unary(f) => match f {
            UnaryFunction::Decimal
            | UnaryFunction::Ip
            | UnaryFunction::Datetime
            | UnaryFunction::Duration => true,
            _ => false,
        },
        ExtensionFunction::Binary(_) => false,
    }
}

fn are_literals(arguments: &[Expr<()>]) -> bool
    ensures { result ≡ are_literals (trees_of arguments.now) }
{
    for argument in arguments {
        if !is_literal(argument) {
            return false;
        }
    }
    true
}

fn is_literal(argument: &Expr<()>) -> bool
    ensures { result ≡ is_literal argument.now }
{
    match argument.kind() {
        ExprKind::Lit(_) => true,
        _ => false,
    }
}

#[tactic(auto, using(crate::proofs::CallSteps::readable_unless_refused))]
fn has_readable(
    alloc: Global,
    f: CalledFunction<'_>,
    arguments: &[Expr<()>],
) -> Result<bool, AllocError>
    ensures { IfOk result (λ b. b ≡ has_readable f.entry.function (trees_of arguments.now)) }
{
    match f.signature.check_arguments(alloc, arguments)? {
        Ok(()) => Ok(true),
        Err(message) => {
            drop(message);
            Ok(false)
        }
    }
}

fn are_same_types(types: &[Type], expected: &[Type]) -> bool
    ensures { result ≡ same_types types.now expected.now }
{
    let mut rest = expected.iter();
    for t in types {
        match rest.next() {
            None => return false,
            Some(u) => {
                if !is_same_type(t, u) {
                    return false;
                }
            }
        }
    }
    rest.next().is_none()
}

/// What is found of a call itself, before its arguments are looked at.
pub fn call_found(
    alloc: Global,
    f: CalledFunction<'_>,
    arguments: &[Expr<()>],
    loc: Option<Loc>,
) -> Result<Vec<Finding>, AllocError>
    ensures { IfOk result
        (λ r. findings_from r.items ≡ own.call_found f.entry.function (trees_of arguments.now) loc) }
{
    let count = count_found(alloc, f, arguments, loc)?;
    let text = text_found(alloc, f, arguments, loc)?;
    let literals = literals_found(alloc, f.function, arguments, loc)?;
    joined(count, joined(text, literals)?)
}

#[tactic(auto, using(crate::proofs::CallSteps::count_is_length))]
fn count_found(
    alloc: Global,
    f: CalledFunction<'_>,
    arguments: &[Expr<()>],
    loc: Option<Loc>,
) -> Result<Vec<Finding>, AllocError>
    ensures { IfOk result (λ r. findings_from r.items ≡
        own.count_found f.entry.function (trees_of arguments.now) loc) }
{
    if has_count(f, arguments) {
        Ok(Vec::new(alloc))
    } else {
        let kind = FindingKind::WrongNumberArguments(argument_types(f).len(), arguments.len());
        one(alloc, kind, loc)
    }
}

#[tactic(auto, using(crate::proofs::CallSteps::text_found_if_refused))]
fn text_found(
    alloc: Global,
    f: CalledFunction<'_>,
    arguments: &[Expr<()>],
    loc: Option<Loc>,
) -> Result<Vec<Finding>, AllocError>
    ensures { IfOk result
        (λ r. findings_from r.items ≡ if_not (has_readable f.entry.function (trees_of arguments.now))
        (text_found f.entry.function loc (only_text (trees_of arguments.now)))) }
{
    match f.signature.check_arguments(alloc, arguments)? {
        Ok(()) => Ok(Vec::new(alloc)),
        Err(message) => one(alloc, FindingKind::FunctionArgumentValidation(message), loc),
    }
}

fn literals_found(
    alloc: Global,
    f: ExtensionFunction,
    arguments: &[Expr<()>],
    loc: Option<Loc>,
) -> Result<Vec<Finding>, AllocError>
    ensures { IfOk result (λ r. findings_from r.items ≡
        if_not (has_literals f (trees_of arguments.now)) (walked.one finding.NonLitExtConstructor loc)) }
{
    if has_literals(f, arguments) {
        Ok(Vec::new(alloc))
    } else {
        one(alloc, FindingKind::NonLitExtConstructor, loc)
    }
}
