//! What can end a condition with an error.

use condition_risks::Risk;
use policy_expressions::Loc;
use std::alloc::AllocError;

/// What can end a condition with an error, and where.
#[derive(Clone, Copy, Debug, PartialEq, Eq, PartialOrd, Ord)]
pub struct Cause {
    /// The place of the expression in its source, where it is known.
    pub place: Option<Loc>,
    /// What may happen there.
    pub kind: CauseKind,
}

/// What may happen.
#[derive(Clone, Copy, Debug, PartialEq, Eq, PartialOrd, Ord)]
pub enum CauseKind {
    /// The entity that the expression evaluates to is not in the store.
    MissingEntity,
    /// The sum, difference, product or negation does not fit 64 bits.
    IntegerOverflow,
    /// The datetime or duration does not fit 64 bits.
    ExtensionOverflow,
}

/// Adds the causes that the risks are.
pub(crate) fn add_causes(risks: &Vec<Risk<'_>>, causes: &mut Vec<Cause>) -> Result<(), AllocError> {
    for risk in risks {
        causes.push(Cause {
            place: risk.place(),
            kind: kind_of(risk),
        })?;
    }
    Ok(())
}

fn kind_of(risk: &Risk<'_>) -> CauseKind {
    match risk {
        Risk::Missing(_) => CauseKind::MissingEntity,
        Risk::IntegerOverflow(_) => CauseKind::IntegerOverflow,
        Risk::ExtensionOverflow(_) => CauseKind::ExtensionOverflow,
    }
}
