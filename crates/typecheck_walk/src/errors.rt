//! Findings as errors of a policy.

ghost use Rattle.std.specs.Prelude.{◌≡◌, IfOk, map};
ghost use Rattle.findings.specs.Seen.{error_of};
ghost use Rattle.typecheck_rules.specs.Found.{findings_from};

use findings::ValidationError;
use policy_values::Text;
use std::alloc::{AllocError, Global};
use typecheck_rules::{Finding, error_of};

/// The findings as errors of the policy.
pub(crate) fn errors_of(
    alloc: Global,
    id: &Text,
    found: Vec<Finding>,
) -> Result<Vec<ValidationError>, AllocError>
    ensures { IfOk result (λ es. es.items ≡ map (error_of id.now) (findings_from found.items)) }
{
    let mut errors = Vec::with_capacity(alloc, found.len())?;
    for finding in found {
        let error = error_of(alloc, finding, id)?;
        errors.push(error)?;
    }
    Ok(errors)
}
