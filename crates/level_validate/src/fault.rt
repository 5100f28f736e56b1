//! What is found at one place of a condition.

ghost use Rattle.std.specs.Prelude.{◌≡◌, IfOk};
ghost use Rattle.level_validate.specs.Faults.{fault_of};
ghost use Rattle.level_validate.specs.Errors.{level_error};

use findings::{EntityDerefLevelViolation, EntityDerefViolationKind, ValidationError};
use policy_expressions::Loc;
use policy_values::Text;
use std::alloc::AllocError;

/// What is found at one place of a condition.
#[derive(Clone, Copy)]
pub(crate) struct Fault {
    /// The level that a dereference needs; none where what is dereferenced is a literal or a slot.
    pub(crate) needed: Option<u32>,
    /// Where it stands.
    pub(crate) source_loc: Option<Loc>,
}

impl Fault {
    /// As an error of a policy that is checked for a level.
    pub(crate) fn error(
        &self,
        policy_id: &Text,
        max_level: u32,
    ) -> Result<ValidationError, AllocError>
        ensures { IfOk result (λ e. e ≡ level_error policy_id.now max_level (fault_of self.now)) }
    {
        let policy_id = policy_id.try_clone()?;
        let violation_kind = match self.needed {
            Some(level) => EntityDerefViolationKind::MaximumLevelExceeded {
                allowed_level: max_level.into(),
                actual_level: level.into(),
            },
            None => EntityDerefViolationKind::LiteralDerefTarget,
        };
        Ok(ValidationError::EntityDerefLevelViolation(EntityDerefLevelViolation {
            source_loc: self.source_loc,
            policy_id,
            violation_kind,
        }))
    }
}
