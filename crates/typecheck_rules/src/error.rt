//! Findings as the errors of a policy.

ghost use Rattle.std.specs.Prelude.{◌≡◌, IfOk};
ghost use Rattle.findings.specs.Seen.{error_of};
ghost use Rattle.typecheck_rules.specs.Found.{finding_of};

use crate::finding::{Finding, FindingKind};
use findings::{
    EmptySetForbidden, FunctionArgumentValidation, IncompatibleTypes, ListOf, NoTagsAllowed,
    NonLitExtConstructor, UndefinedFunction, UnexpectedType, UnsafeAttributeAccess,
    UnsafeOptionalAttributeAccess, UnsafeTagAccess, ValidationError, WrongNumberArguments,
};
use policy_values::Text;
use schema_types::Type;
use std::alloc::{AllocError, Global};
use std::collections::BTreeSet;

/// The error of the policy that a finding on its condition is.
pub fn error_of(
    alloc: Global,
    finding: Finding,
    policy_id: &Text,
) -> Result<ValidationError, AllocError>
    ensures { IfOk result (λ e. e ≡ error_of policy_id.now (finding_of finding)) }
{
    let policy_id = policy_id.try_clone()?;
    let Finding {
        kind,
        loc: source_loc,
    } = finding;
    Ok(match kind {
        FindingKind::UnexpectedType(expected, actual, help) => {
            ValidationError::UnexpectedType(UnexpectedType {
                source_loc,
                policy_id,
                expected: ListOf::new(expected),
                actual,
                help,
            })
        }
        FindingKind::IncompatibleTypes(types, hint, context) => {
            ValidationError::IncompatibleTypes(IncompatibleTypes {
                source_loc,
                policy_id,
                types: ListOf::new(listed(alloc, types)?),
                hint,
                context,
            })
        }
        FindingKind::UnsafeAttributeAccess(attribute_access, may_exist) => {
            ValidationError::UnsafeAttributeAccess(UnsafeAttributeAccess {
                source_loc,
                policy_id,
                attribute_access,
                may_exist,
            })
        }
        FindingKind::UnsafeOptionalAttributeAccess(attribute_access) => {
            ValidationError::UnsafeOptionalAttributeAccess(UnsafeOptionalAttributeAccess {
                source_loc,
                policy_id,
                attribute_access,
            })
        }
        FindingKind::UnsafeTagAccess(entity_ty, tag) => {
            ValidationError::UnsafeTagAccess(UnsafeTagAccess {
                source_loc,
                policy_id,
                entity_ty,
                tag,
            })
        }
        FindingKind::NoTagsAllowed(entity_ty) => ValidationError::NoTagsAllowed(NoTagsAllowed {
            source_loc,
            policy_id,
            entity_ty,
        }),
        FindingKind::UndefinedFunction(name) => {
            ValidationError::UndefinedFunction(UndefinedFunction {
                source_loc,
                policy_id,
                name,
            })
        }
        FindingKind::WrongNumberArguments(expected, actual) => {
            ValidationError::WrongNumberArguments(WrongNumberArguments {
                source_loc,
                policy_id,
                expected,
                actual,
            })
        }
        FindingKind::FunctionArgumentValidation(msg) => {
            ValidationError::FunctionArgumentValidation(FunctionArgumentValidation {
                source_loc,
                policy_id,
                msg,
            })
        }
        FindingKind::EmptySetForbidden => {
            ValidationError::EmptySetForbidden(EmptySetForbidden {
                source_loc,
                policy_id,
            })
        }
        FindingKind::NonLitExtConstructor => {
            ValidationError::NonLitExtConstructor(NonLitExtConstructor {
                source_loc,
                policy_id,
            })
        }
    })
}

// The types of a set, ascending.
fn listed(alloc: Global, types: BTreeSet<Type>) -> Result<Vec<Type>, AllocError>
    ensures { IfOk result (λ ts. ts.items ≡ types.keys) }
{
    let mut listed = Vec::new(alloc);
    for t in types {
        listed.push(t)?;
    }
    Ok(listed)
}
