//! `has`.

ghost use Rattle.std.specs.Prelude.{◌≡◌, IfOk, Some};
ghost use Rattle.policy_expressions.specs.Tree.{has};
ghost use Rattle.typing_spec.specs.Signatures.{bool_type};
ghost use Rattle.typing_spec.specs.Typing.{has_caps};
ghost use Rattle.typecheck_rules.specs.Walked.{lends};
ghost use Rattle.typecheck_rules.specs.Operators as definition;
ghost use Rattle.typecheck_rules.specs.Found.{findings_from};
ghost use Rattle.typecheck_operators.specs.Operands.{ended_as, has_of};
ghost use Rattle.typecheck_operators.specs.Reported.{mark, operand_of, walked_of};

use crate::reported::{Part, Reported, Typing, ended_typed, expect, failed, parted};
use policy_expressions::{BuildError, Expr, Loc};
use policy_values::Text;
use schema_core::ValidatorSchema;
use schema_types::Type;
use std::alloc::{AllocError, Global};
use typecheck_rules::{Expected, Finding, attribute_of, has_type};
use typing_spec::{Capability, CapabilitySet};

/// `has`, by what its operand comes to, and whether the attribute is known to be there. Errs where
/// memory runs out, or the expression would be nested too deep.
pub fn has_reported<'a>(
    alloc: Global,
    schema: &ValidatorSchema,
    known: bool,
    x: &'a Expr<()>,
    n: &Text,
    loc: Option<Loc>,
    v: Reported<'a>,
) -> Result<Reported<'a>, BuildError>
    ensures { IfOk result (λ r. walked_of r ≡
        definition.has_walked schema.now known x.now n.now (mark loc) (walked_of v.entry)) }
{
    let v = expect(alloc, Expected::OwnerOfHas, x.source_loc(), v)?;
    has_fitting(alloc, schema, known, x, n, loc, v)
}

fn has_fitting<'a>(
    alloc: Global,
    schema: &ValidatorSchema,
    known: bool,
    x: &'a Expr<()>,
    n: &Text,
    loc: Option<Loc>,
    v: Reported<'a>,
) -> Result<Reported<'a>, BuildError>
    ensures { IfOk result (λ r. walked_of r ≡
        definition.has_fitting schema.now known x.now n.now (mark loc) (walked_of v.entry)) }
{
    let v = parted(alloc, v)?;
    has_ended(alloc, schema, known, x, n, loc, v)
}

fn has_ended<'a>(
    alloc: Global,
    schema: &ValidatorSchema,
    known: bool,
    x: &'a Expr<()>,
    n: &Text,
    loc: Option<Loc>,
    v: Part<'a>,
) -> Result<Reported<'a>, BuildError>
    ensures { IfOk result (λ r. walked_of r ≡
        has_of schema.now known x.now n.now (mark loc) (operand_of v.entry)) }
{
    let Part {
        ok,
        of,
        caps,
        tree,
        found,
    } = v;
    drop(caps);
    match of {
        Some(t) => {
            let attribute = or_drop!(attribute_of(alloc, schema, &t, n), t, tree, found);
            let own = has_type(schema, known, &t, n, &attribute);
            let declared = attribute.is_some();
            drop(attribute);
            drop(t);
            match own {
                Some(of) => {
                    let caps = or_drop!(has_caps(alloc, declared, x, n), of, tree, found);
                    has_typed(alloc, n, loc, ok, Typing { of, caps, tree }, found)
                }
                None => {
                    let tree = or_drop!(has_giving(alloc, tree, n, loc), found);
                    Ok(failed(alloc, tree, found)?)
                }
            }
        }
        None => {
            let tree = or_drop!(has_giving(alloc, tree, n, loc), found);
            Ok(failed(alloc, tree, found)?)
        }
    }
}

fn has_typed<'a>(
    alloc: Global,
    n: &Text,
    loc: Option<Loc>,
    ok: bool,
    a: Typing<'a>,
    found: Vec<Finding>,
) -> Result<Reported<'a>, BuildError>
    ensures { IfOk result (λ r. walked_of r ≡
        ended_as ok a.entry.of a.entry.caps (has a.entry.tree n.now) (mark loc)
        (findings_from found.items)) }
{
    let Typing { of, caps, tree } = a;
    let note = or_drop!(of.try_clone(alloc), of, caps, tree, found);
    let n = or_drop!(n.try_clone(), of, caps, note, tree, found);
    let tree = or_drop!(
        Expr::has_attr(alloc, tree, n, Some(note), loc),
        of,
        caps,
        found
    );
    Ok(ended_typed(alloc, ok, Typing { of, caps, tree }, found)?)
}

fn has_giving(
    alloc: Global,
    tree: Expr<Option<Type>>,
    n: &Text,
    loc: Option<Loc>,
) -> Result<Expr<Option<Type>>, BuildError>
    ensures { IfOk result (λ r. r ≡ has tree n.now (lends (Some bool_type) (mark loc))) }
{
    let n = or_drop!(n.try_clone(), tree);
    let note = Type::primitive_boolean();
    Expr::has_attr(alloc, tree, n, Some(note), loc)
}

// A declared attribute is known to be there once the test is true.
fn has_caps<'a>(
    alloc: Global,
    declared: bool,
    x: &'a Expr<()>,
    n: &Text,
) -> Result<CapabilitySet<'a>, AllocError>
    ensures { IfOk result (λ s. s ≡ has_caps declared x.now n.now) }
{
    if declared {
        CapabilitySet::singleton(alloc, Capability::new_attribute(x, n.try_clone()?))
    } else {
        Ok(CapabilitySet::new(alloc))
    }
}
