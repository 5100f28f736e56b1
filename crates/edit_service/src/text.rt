//! The text on what is found of an edit.
ghost use Rattle.std.specs.Prelude.{◌≡◌, ◌++◌, IfOk, OnOk, length, map, count_by, string_bytes};
ghost use Rattle.schema_core.specs.RequestEnvs.{env_data_of};
ghost use Rattle.edit_service.specs.Texts.{change_line, change_lines, count_line, counts_text, edit_text, is_same, is_unknown};

use crate::change::Change;
use schema_core::RequestEnv;
use std::alloc::{AllocError, Global};
use std::fmt::Write;

/// A line for each environment with what was found there, and the counts.
pub(crate) fn edit_text(
    alloc: Global,
    envs: &Vec<RequestEnv<'_>>,
    changes: &Vec<Change>,
) -> Result<String, AllocError>
    requires { length changes.now.items ≡ length envs.now.items }
    ensures { IfOk result (λ s. string_bytes s ≡
        edit_text (map env_data_of envs.now.items) changes.now.items) }
{
    let mut text = String::new(alloc);
    for (i, env) in envs.iter().enumerate() {
        add_line(&mut text, env, changes[i])?;
    }
    let counts = count_line(alloc, changes)?;
    text.push_str(counts.as_str())?;
    Ok(text)
}

// Adds the line on an environment.
fn add_line(text: &mut String, env: &RequestEnv<'_>, change: Change) -> Result<(), AllocError>
    ensures { OnOk result (string_bytes text.new ≡
        string_bytes text.old ++ change_line (env_data_of env.now) change) }
{
    if let RequestEnv::DeclaredAction {
        principal,
        action,
        resource,
        ..
    } = env
    {
        let word = change.word();
        write!(text, "{word} {principal}, {action}, {resource}\n")?;
    }
    Ok(())
}

// How many there are of each.
fn count_line(alloc: Global, changes: &Vec<Change>) -> Result<String, AllocError>
    ensures { IfOk result (λ s. string_bytes s ≡ count_line changes.now.items) }
{
    counts_text(alloc, count_same(changes), count_unknown(changes))
}

fn counts_text(alloc: Global, same: usize, unknown: usize) -> Result<String, AllocError>
    ensures { IfOk result (λ s. string_bytes s ≡ counts_text same unknown) }
{
    format!(in alloc; "same {same}, narrower 0, wider 0, other 0, unknown {unknown}\n")
}

fn count_same(changes: &[Change]) -> usize
    ensures { result ≡ count_by is_same changes.now }
{
    changes.iter().filter(|change| change.is_same()).count()
}

fn count_unknown(changes: &[Change]) -> usize
    ensures { result ≡ count_by is_unknown changes.now }
{
    changes.iter().filter(|change| change.is_unknown()).count()
}
