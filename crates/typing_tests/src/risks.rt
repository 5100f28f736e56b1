//! What can end a condition with an error.

use crate::lines::{Part, assert_same, built};
use condition_risks::{Risk, risks_of};
use policy_expressions::{Expr, Var};
use policy_values::Text;
use std::alloc::{AllocError, Global};

fn attribute(alloc: Global, of: Part, name: &str) -> Result<Part, AllocError> {
    built(Expr::get_attr(alloc, of, Text::from_str(alloc, name)?, None, None))
}

fn manager(alloc: Global) -> Result<Part, AllocError> {
    attribute(alloc, Expr::var(Var::Principal, None, None), "manager")
}

// principal has a && principal.manager.b
fn left(alloc: Global) -> Result<Part, AllocError> {
    let principal = Expr::var(Var::Principal, None, None);
    let has = Expr::has_attr(alloc, principal, Text::from_str(alloc, "a")?, None, None);
    let has = built(has)?;
    let b = attribute(alloc, manager(alloc)?, "b")?;
    built(Expr::and(alloc, has, b, None, None))
}

// (principal has a && principal.manager.b) || resource.c
fn condition(alloc: Global) -> Result<Part, AllocError> {
    let left = left(alloc)?;
    let right = attribute(alloc, resource(), "c")?;
    built(Expr::or(alloc, left, right, None, None))
}

fn kind_of(risk: &Risk<'_>) -> &'static str {
    match risk {
        Risk::Missing(_) => "missing",
        Risk::IntegerOverflow(_) => "integer",
        Risk::ExtensionOverflow(_) => "extension",
    }
}

// The kinds of the risks, each with whether it is about the manager, or the resource.
fn listed(
    alloc: Global,
    risks: &Vec<Risk<'_>>,
    manager: &Part,
    resource: &Part,
) -> Result<String, AllocError> {
    let mut text = String::new(alloc);
    for risk in risks {
        let of_manager = risk.expression().same_shape(manager);
        let of_resource = risk.expression().same_shape(resource);
        write!(text, "{} {of_manager} {of_resource}|", kind_of(risk))?;
    }
    Ok(text)
}

fn resource() -> Part {
    Expr::var(Var::Resource, None, None)
}

// The risks of the condition, where nothing is known to be stored.
fn risks_alone(alloc: Global, condition: &Part) -> Result<String, AllocError> {
    let manager = manager(alloc)?;
    let risks = risks_of(alloc, &Vec::new(alloc), condition)?;
    listed(alloc, &risks, &manager, &resource())
}

// Its risks, where the resource is known to be stored.
fn risks_with<'a>(
    alloc: Global,
    resource: &'a Part,
    condition: &'a Part,
) -> Result<String, AllocError> {
    let manager = manager(alloc)?;
    let mut stored = Vec::new(alloc);
    stored.push(resource)?;
    let risks = risks_of(alloc, &stored, condition)?;
    listed(alloc, &risks, &manager, resource)
}

// `has` finds the principal; the manager may be missing, and so may the resource.
#[test]
fn risks_are_listed(rt: HostRuntime) -> Result<(), AllocError> {
    let condition = condition(rt.alloc())?;
    let text = risks_alone(rt.alloc(), &condition)?;
    assert_same(&rt, text.as_str(), "missing true false|missing false true|");
    Ok(())
}

#[test]
fn stored_entities_are_no_risks(rt: HostRuntime) -> Result<(), AllocError> {
    let condition = condition(rt.alloc())?;
    let text = risks_with(rt.alloc(), &resource(), &condition)?;
    assert_same(&rt, text.as_str(), "missing true false|");
    Ok(())
}
