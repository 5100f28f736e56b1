//! What is known of propositions, where of some atoms it is known whether they hold.

ghost use Rattle.std.specs.Prelude.{◌≡◌, OnOk, slice_index_or, None};
ghost use Rattle.propositions.specs.Known.{not_known, both_known, either_known, gate_known, known_of};

use crate::circuit::{Circuit, Gate};
use std::alloc::AllocError;

/// What is known at a number; nothing past the end.
pub(crate) fn known_at(known: &[Option<bool>], number: usize) -> Option<bool>
    ensures { result ≡ slice_index_or known.now number None }
{
    if number < known.len() {
        known[number]
    } else {
        None
    }
}

fn negated(x: Option<bool>) -> Option<bool>
    ensures { result ≡ not_known x }
{
    match x {
        Some(b) => Some(!b),
        None => None,
    }
}

fn both(x: Option<bool>, y: Option<bool>) -> Option<bool>
    ensures { result ≡ both_known x y }
{
    match (x, y) {
        (Some(false), _) => Some(false),
        (Some(true), y) => y,
        (None, Some(false)) => Some(false),
        (None, _) => None,
    }
}

fn either(x: Option<bool>, y: Option<bool>) -> Option<bool>
    ensures { result ≡ either_known x y }
{
    match (x, y) {
        (Some(true), _) => Some(true),
        (Some(false), y) => y,
        (None, Some(true)) => Some(true),
        (None, _) => None,
    }
}

fn gate_known(atoms: &[Option<bool>], known: &[Option<bool>], gate: Gate) -> Option<bool>
    ensures { result ≡ gate_known atoms.now known.now gate }
{
    match gate {
        Gate::Constant(value) => Some(value),
        Gate::Atom(number) => known_at(atoms, number),
        Gate::Negation(x) => negated(known_at(known, x)),
        Gate::Both(x, y) => both(known_at(known, x), known_at(known, y)),
        Gate::Either(x, y) => either(known_at(known, x), known_at(known, y)),
    }
}

/// Says of each proposition of the circuit what is known of it.
pub(crate) fn find_known(
    circuit: &Circuit,
    atoms: &[Option<bool>],
    known: &mut Vec<Option<bool>>,
) -> Result<(), AllocError>
    ensures { OnOk result (known.new.items ≡ known_of atoms.now circuit.now.gates.items) }
{
    known.clear();
    for gate in &circuit.gates {
        let value = gate_known(atoms, known.as_slice(), *gate);
        known.push(value)?;
    }
    Ok(())
}
