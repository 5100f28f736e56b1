//! The findings on a set of policies.

ghost use Rattle.std.specs.Prelude.{◌≡◌, ◌↔◌, [], IsTrue};

use findings::{ValidationError, ValidationWarning};
use std::marker::Model;

/// All findings on a set of policies: the errors, for which policies are refused, and the warnings.
#[derive(Debug, Drop)]
pub struct ValidationResult {
    validation_errors: Vec<ValidationError>,
    validation_warnings: Vec<ValidationWarning>,
}

impl Model for ValidationResult {
    ghost use Rattle.finding_messages.specs.Findings.{Findings, coded_findings};

    ghost Value = { Findings };

    ghost coded = { coded_findings };

    ghost view = { λ r.
        record { errors = r.validation_errors.items; warnings = r.validation_warnings.items } };
}

impl ValidationResult {
    /// The result with these errors and these warnings.
    pub fn new(errors: Vec<ValidationError>, warnings: Vec<ValidationWarning>) -> ValidationResult
        ensures { result ≡ record { errors = errors.items; warnings = warnings.items } }
    {
        ValidationResult {
            validation_errors: errors,
            validation_warnings: warnings,
        }
    }

    /// Whether no policy is refused. Warnings refuse none.
    pub fn validation_passed(&self) -> bool
        ensures { IsTrue result ↔ (self.now.errors ≡ []) }
    {
        self.validation_errors.is_empty()
    }

    /// The errors, in the order in which they were found.
    pub fn validation_errors(&self) -> &[ValidationError]
        ensures { result.now ≡ self.now.errors }
    {
        self.validation_errors.as_slice()
    }

    /// The warnings, in the order in which they were found.
    pub fn validation_warnings(&self) -> &[ValidationWarning]
        ensures { result.now ≡ self.now.warnings }
    {
        self.validation_warnings.as_slice()
    }
}
