//! Findings.

ghost use Rattle.std.specs.Prelude.{◌≡◌, ◌++◌, IfOk};
ghost use Rattle.findings.specs.Finding as definition;
ghost use Rattle.typecheck_rules.specs.Walked.{one};
ghost use Rattle.typecheck_rules.specs.Found.{kind_of, findings_from};

use findings::{AttributeAccess, LubContext, UnexpectedTypeHelp};
use policy_expressions::Loc;
use policy_values::{EntityType, Name, Text};
use schema_types::{EntityLUB, LubHelp, Type};
use std::alloc::{AllocError, Global};
use std::collections::BTreeSet;

/// What is wrong.
#[derive(Drop)]
pub enum FindingKind {
    /// An operand of none of the types expected: these, its own, and what may help.
    UnexpectedType(Vec<Type>, Type, Option<UnexpectedTypeHelp>),
    /// Types without a join: these, why, and where they stand.
    IncompatibleTypes(BTreeSet<Type>, LubHelp, LubContext),
    /// An attribute that is not declared, and whether it may be there all the same.
    UnsafeAttributeAccess(AttributeAccess, bool),
    /// An attribute that may be absent.
    UnsafeOptionalAttributeAccess(AttributeAccess),
    /// A tag that may be absent: the types of the entity, where they are known, and how the tag prints.
    UnsafeTagAccess(Option<EntityLUB>, Text),
    /// A tag of entities without tags: their type, where it is known.
    NoTagsAllowed(Option<EntityType>),
    /// A function of this name.
    UndefinedFunction(Name),
    /// How many arguments a function takes, and how many there are.
    WrongNumberArguments(usize, usize),
    /// A text that a constructor of extension values can't read: what is said of it.
    FunctionArgumentValidation(Text),
    /// A set literal without elements.
    EmptySetForbidden,
    /// An argument of a constructor of extension values that is no literal.
    NonLitExtConstructor,
}

/// What is wrong, and where.
#[derive(Drop)]
pub struct Finding {
    /// What.
    pub kind: FindingKind,
    /// Where.
    pub loc: Option<Loc>,
}

/// One finding alone.
pub fn one(alloc: Global, kind: FindingKind, loc: Option<Loc>) -> Result<Vec<Finding>, AllocError>
    ensures { IfOk result (λ r. findings_from r.items ≡ one (kind_of kind) loc) }
{
    let mut found = Vec::new(alloc);
    found.push(Finding { kind, loc })?;
    Ok(found)
}

/// These, and then those.
pub fn joined(mut found: Vec<Finding>, mut more: Vec<Finding>) -> Result<Vec<Finding>, AllocError>
    ensures { IfOk result
        (λ r. findings_from r.items ≡ findings_from found.items ++ findings_from more.items) }
{
    if found.is_empty() {
        drop(found);
        return Ok(more);
    }
    found.append(&mut more)?;
    Ok(found)
}

/// What is found of a call of a function that there is not.
pub fn undefined_found(
    alloc: Global,
    f: &Name,
    loc: Option<Loc>,
) -> Result<Vec<Finding>, AllocError>
    ensures { IfOk result (λ r. findings_from r.items ≡ one (definition.UndefinedFunction f.now) loc) }
{
    let name = f.try_clone()?;
    one(alloc, FindingKind::UndefinedFunction(name), loc)
}
