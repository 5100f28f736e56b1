//! Findings as they are written.

ghost use Rattle.std.specs.Prelude.{◌≡◌, ◌++◌, IfOk, OnOk, string_bytes, codes};
ghost use Rattle.finding_messages.specs.Written.{place_text, help_line, finding_text, count_line, findings_text};

use crate::{Diagnostic, ValidationResult};
use policy_expressions::Loc;
use policy_values::Text;
use std::alloc::{AllocError, Global};
use std::fmt::Write;

/// The findings, a line for each: `error` or `warning`, its kind and what it says, with a further line where
/// something may help. The last line has the numbers of errors and of warnings.
pub fn findings_text(alloc: Global, findings: &ValidationResult) -> Result<Text, AllocError>
    ensures { IfOk result (λ text. text ≡ findings_text findings.now) }
{
    let mut text = String::new(alloc);
    let errors = findings.validation_errors();
    for error in errors {
        add_finding(alloc, &mut text, "error", error.kind(), error)?;
    }
    let warnings = findings.validation_warnings();
    for warning in warnings {
        add_finding(alloc, &mut text, "warning", warning.kind(), warning)?;
    }
    add_counts(&mut text, errors.len(), warnings.len())?;
    let text = Text::from_string(text)?;
    Ok(text)
}

// Adds the lines of a finding.
fn add_finding<D: Diagnostic>(
    alloc: Global,
    text: &mut String,
    severity: &str,
    kind: &str,
    finding: &D,
) -> Result<(), AllocError>
    ensures { OnOk result (string_bytes text.new ≡
        string_bytes text.old ++ finding_text severity.now kind.now
        (D.place finding.now) (D.message_text finding.now) (D.help_text finding.now)) }
{
    let message = finding.message(alloc)?;
    let help = finding.help(alloc)?;
    write!(text, "{severity} {kind}")?;
    add_place(text, finding.location())?;
    add_message(text, &message)?;
    add_help(text, &help)?;
    Ok(())
}

// Adds the message, and ends the line.
fn add_message(text: &mut String, message: &Text) -> Result<(), AllocError>
    ensures { OnOk result (string_bytes text.new ≡
        string_bytes text.old ++ (codes ": " ++ (message.now ++ codes "\n"))) }
{
    write!(text, ": {message}\n")?;
    Ok(())
}

// Adds the place.
fn add_place(text: &mut String, place: Option<Loc>) -> Result<(), AllocError>
    ensures { OnOk result (string_bytes text.new ≡ string_bytes text.old ++ place_text place) }
{
    if let Some(loc) = place {
        let start = loc.start;
        let end = loc.end;
        write!(text, " at {start}..{end}")?;
    }
    Ok(())
}

/// Adds a line for what may help, where something is known to.
pub fn add_help(text: &mut String, help: &Option<Text>) -> Result<(), AllocError>
    ensures { OnOk result (string_bytes text.new ≡ string_bytes text.old ++ help_line help.now) }
{
    if let Some(help) = help {
        write!(text, "  help: {help}\n")?;
    }
    Ok(())
}

// Adds the line of counts.
fn add_counts(text: &mut String, errors: usize, warnings: usize) -> Result<(), AllocError>
    ensures { OnOk result (string_bytes text.new ≡ string_bytes text.old ++ count_line errors warnings) }
{
    write!(text, "errors {errors}, warnings {warnings}\n")?;
    Ok(())
}
