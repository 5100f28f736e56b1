//! The text of a document.

ghost use Rattle.std.specs.Prelude.{◌≡◌, ◌<◌, ◌++◌, IfOk, OnOk, string_bytes};
ghost use Rattle.std.specs.Fn.{iterate};
ghost use Rattle.json_samples.specs.Sample.{comma, drawn_user, next_state, sample_document, sample_policies, sample_request, sample_schema, user_text, users_text};

use crate::draws::Draws;
use std::alloc::{AllocError, Global};
use std::fmt::Write;

const SCHEMA: &str =
    r#"{"schema":{"entityTypes":{"Group":{},"User":{"memberOf":["Group"],"attributes":{"level":"Long","manager":{"entity":"User"}}}},"actions":[{"id":["Action","view"],"principals":["User"],"resources":["User"]}]}"#;

const POLICIES: &str =
    r#","policies":[{"id":"p0","effect":"permit","body":[{"when":{"<=":[{"get":[{"var":"principal"},"manager","level"]},{"get":[{"var":"resource"},"level"]}]}}]},{"id":"p1","effect":"forbid","principal":{"in":["Group","g0"]}}]"#;

/// A valid document with `size` users, which are made from `seed`: each with a level, a manager and a group.
///
/// # Errors
///
/// Fails where there is no memory.
#[tactic(auto, unfolding(crate::specs::Sample::sample_schema, crate::specs::Sample::sample_policies))]
pub fn sample_document(alloc: Global, seed: u64, size: u64) -> Result<String, AllocError>
    ensures { IfOk result (λ text. string_bytes text ≡ sample_document seed size) }
{
    let mut text = String::new(alloc);
    text.push_str(SCHEMA)?;
    text.push_str(POLICIES)?;
    add_request(&mut text, size.saturating_sub(1))?;
    text.push_str(r#","entities":["#)?;
    add_users(&mut text, seed, size)?;
    text.push_str("]}")?;
    Ok(text)
}

// Adds the request: the first user asks to view the user number `other`.
#[tactic(auto, unfolding(crate::specs::Sample::sample_request))]
fn add_request(text: &mut String, other: u64) -> Result<(), AllocError>
    ensures { OnOk result (string_bytes text.new ≡ string_bytes text.old ++ sample_request other) }
{
    write!(
        text,
        ",\"request\":{{\"principal\":[\"User\",\"u0\"],\"action\":[\"Action\",\"view\"],\"resource\":[\"User\",\"u{other}\"],\"context\":{{}}}}"
    )?;
    Ok(())
}

// Adds the users.
fn add_users(text: &mut String, seed: u64, size: u64) -> Result<(), AllocError>
    ensures { OnOk result (string_bytes text.new ≡ string_bytes text.old ++ users_text seed size size) }
{
    let mut draws = Draws::new(seed);
    for i in 0..size {
        add_comma(text, i)?;
        add_user(text, &mut draws, i, size)?;
    }
    Ok(())
}

// Adds what stands before the user number `i`.
fn add_comma(text: &mut String, i: u64) -> Result<(), AllocError>
    ensures { OnOk result (string_bytes text.new ≡ string_bytes text.old ++ comma i) }
{
    if i > 0 {
        text.push_str(",")?;
    }
    Ok(())
}

// Adds the user number `i`, with the next three draws.
fn add_user(text: &mut String, draws: &mut Draws, i: u64, size: u64) -> Result<(), AllocError>
    requires { i < size }
    ensures steps { draws.new.state ≡ iterate next_state 3 draws.old.state }
    ensures added { OnOk result
        (string_bytes text.new ≡ string_bytes text.old ++ drawn_user draws.old.state size i) }
{
    let group = draws.draw() % 10;
    let manager = draws.draw() % size;
    let level = draws.draw() % 100;
    add_made(text, i, level, manager, group)
}

// Adds the user number `i`, whose manager and group are given by their numbers.
#[tactic(auto, unfolding(crate::specs::Sample::user_text))]
fn add_made(
    text: &mut String,
    i: u64,
    level: u64,
    manager: u64,
    group: u64,
) -> Result<(), AllocError>
    ensures { OnOk result (string_bytes text.new ≡ string_bytes text.old ++ user_text i level manager group) }
{
    write!(
        text,
        "{{\"id\":[\"User\",\"u{i}\"],\"attrs\":{{\"level\":{level},\"manager\":{{\"id\":[\"User\",\"u{manager}\"]}}}},\"parents\":[[\"Group\",\"g{group}\"]]}}"
    )?;
    Ok(())
}
