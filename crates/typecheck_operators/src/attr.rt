//! `.`.

ghost use Rattle.std.specs.Prelude.{◌≡◌, ◌||◌, IfOk};
ghost use Rattle.policy_expressions.specs.Tree.{attr};
ghost use Rattle.typecheck_rules.specs.Walked.{Fail, lends};
ghost use Rattle.typecheck_rules.specs.Found.{findings_from};
ghost use Rattle.typecheck_operators.specs.Operands as definition;
ghost use Rattle.typecheck_operators.specs.Reported.{mark, operand_of, walked_of};

use crate::known::knows_attribute;
use crate::reported::{Part, Reported, Typing, ended_typed, expect, failed, parted};
use policy_expressions::{BuildError, Expr, Loc};
use policy_values::Text;
use schema_core::{RequestEnv, ValidatorSchema};
use schema_types::{AttributeType, Type};
use std::alloc::{AllocError, Global};
use typecheck_rules::{Expected, Finding, attribute_of, joined, optional_found, undeclared_found};
use typing_spec::CapabilitySet;

/// An attribute of an operand, where it stands in a policy.
#[derive(Clone, Copy)]
pub struct Access<'b, 'a> {
    /// The schema.
    pub schema: &'b ValidatorSchema,
    /// The environment.
    pub env: &'b RequestEnv<'a>,
    /// What is known at its place.
    pub caps: &'b CapabilitySet<'a>,
    /// The operand.
    pub on: &'b Expr<()>,
    /// The attribute.
    pub name: &'b Text,
    /// Where it stands.
    pub loc: Option<Loc>,
}

/// `.`, by what its operand comes to.
pub fn attr_reported<'a>(
    alloc: Global,
    o: &Access<'_, '_>,
    place: Option<Loc>,
    v: Reported<'a>,
) -> Result<Reported<'a>, BuildError>
    ensures { IfOk result (λ r. walked_of r ≡
        definition.attr_walked o.now place (walked_of v.entry)) }
{
    let v = expect(alloc, Expected::Owner, place, v)?;
    attr_fitting(alloc, o, v)
}

fn attr_fitting<'a>(
    alloc: Global,
    o: &Access<'_, '_>,
    v: Reported<'a>,
) -> Result<Reported<'a>, BuildError>
    ensures { IfOk result (λ r. walked_of r ≡ definition.attr_fitting o.now (walked_of v.entry)) }
{
    let v = parted(alloc, v)?;
    attr_ended(alloc, o, v)
}

fn attr_ended<'a>(
    alloc: Global,
    o: &Access<'_, '_>,
    v: Part<'a>,
) -> Result<Reported<'a>, BuildError>
    ensures { IfOk result (λ r. walked_of r ≡ definition.attr_of o.now (operand_of v.entry)) }
{
    let Part {
        ok,
        of,
        caps,
        tree,
        found,
    } = v;
    drop(caps);
    match of {
        Some(t) => match or_drop!(attribute_of(alloc, o.schema, &t, o.name), t, tree, found) {
            Some(a) => {
                drop(t);
                declared_ended(alloc, o, ok, a, tree, found)
            }
            None => {
                let own = or_drop!(
                    undeclared_found(alloc, o.schema, o.env, &tree, &t, o.name, o.loc),
                    t,
                    tree,
                    found
                );
                drop(t);
                let found = or_drop!(joined(found, own), tree);
                attr_failed(alloc, o, None, tree, found)
            }
        },
        None => attr_failed(alloc, o, None, tree, found),
    }
}

// An attribute that is declared.
fn declared_ended<'a>(
    alloc: Global,
    o: &Access<'_, '_>,
    ok: bool,
    a: AttributeType,
    tree: Expr<Option<Type>>,
    found: Vec<Finding>,
) -> Result<Reported<'a>, BuildError>
    ensures { IfOk result (λ r. walked_of r ≡
        definition.declared_of o.now a ok tree (findings_from found.items)) }
{
    let AttributeType {
        attr_type,
        is_required,
    } = a;
    if or_drop!(is_safe(o, is_required), attr_type, tree, found) {
        let note = or_drop!(attr_type.try_clone(alloc), attr_type, tree, found);
        let tree = or_drop!(attr_giving(alloc, o, tree, Some(note)), attr_type, found);
        let caps = CapabilitySet::new(alloc);
        let of = attr_type;
        Ok(ended_typed(alloc, ok, Typing { of, caps, tree }, found)?)
    } else {
        let own = or_drop!(
            optional_found(alloc, o.env, &tree, o.name, o.loc),
            attr_type,
            tree,
            found
        );
        let found = or_drop!(joined(found, own), attr_type, tree);
        attr_failed(alloc, o, Some(attr_type), tree, found)
    }
}

// Whether it can be read. Only of one that may be absent is it looked up whether it is known: that
// takes time where the path is long.
fn is_safe(o: &Access<'_, '_>, is_required: bool) -> Result<bool, AllocError>
    ensures { IfOk result (λ safe. safe ≡ is_required || definition.is_known o.now) }
{
    if is_required {
        Ok(true)
    } else {
        knows_attribute(o.caps, o.on, o.name)
    }
}

fn attr_failed<'a>(
    alloc: Global,
    o: &Access<'_, '_>,
    note: Option<Type>,
    tree: Expr<Option<Type>>,
    found: Vec<Finding>,
) -> Result<Reported<'a>, BuildError>
    ensures { IfOk result (λ r. walked_of r ≡
        Fail (attr tree o.now.name.now (lends note (mark o.now.loc))) (findings_from found.items)) }
{
    let tree = or_drop!(attr_giving(alloc, o, tree, note), found);
    Ok(failed(alloc, tree, found)?)
}

fn attr_giving(
    alloc: Global,
    o: &Access<'_, '_>,
    tree: Expr<Option<Type>>,
    note: Option<Type>,
) -> Result<Expr<Option<Type>>, BuildError>
    ensures { IfOk result (λ r. r ≡ attr tree o.now.name.now (lends note (mark o.now.loc))) }
{
    let n = or_drop!(o.name.try_clone(), tree, note);
    Expr::get_attr(alloc, tree, n, note, o.loc)
}
