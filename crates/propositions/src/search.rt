//! Whether a proposition always holds.

ghost use Rattle.std.specs.Prelude.{◌≡◌, ℕ, Bool, true, false, IfOk};
ghost use Rattle.propositions.specs.Circuits.{holds};
ghost use Rattle.propositions.specs.Known.{Agrees};
ghost use Rattle.propositions.specs.declared.search.Verdict.TheVariants.{Always, Fails};

use crate::circuit::{Circuit, Gate};
use crate::known::{find_known, known_at};
use std::alloc::{AllocError, Global};

// How many atoms are supposed at a time at most.
const MAX_DEPTH: u32 = 1000;

/// What was found of a proposition.
#[derive(Clone, Copy, Debug, PartialEq, Eq)]
pub enum Verdict {
    /// It holds, whichever atoms do.
    Always,
    /// It fails where the atoms are as they were last supposed, whatever the others are.
    Fails,
    /// Neither was found within the budget of steps.
    Unknown,
}

// What is supposed of atoms, and what is left of the budget.
#[derive(Debug, Drop)]
struct Search {
    // Of each atom whether it holds, where that is supposed.
    atoms: Vec<Option<bool>>,
    // What is known of each proposition.
    known: Vec<Option<bool>>,
    // How many parts may still be looked at.
    steps: u64,
}

// An atom on which the proposition depends, where something is not known of it.
fn open_atom(circuit: &Circuit, known: &[Option<bool>], proposition: usize) -> Option<usize> {
    let mut at = proposition;
    loop {
        if at >= circuit.gates.len() {
            return None;
        }
        let operand = match circuit.gates[at] {
            Gate::Constant(_) => return None,
            Gate::Atom(number) => return Some(number),
            Gate::Negation(x) => x,
            Gate::Both(x, y) | Gate::Either(x, y) => {
                if known_at(known, x).is_none() { x } else { y }
            }
        };
        if operand >= at {
            return None;
        }
        at = operand;
    }
}

impl Search {
    // Whether a proposition holds wherever the atoms are as is supposed.
    #[cycle(search)]
    fn holds_where_supposed(
        &mut self,
        circuit: &Circuit,
        proposition: usize,
        depth: u32,
    ) -> Result<Verdict, AllocError>
        ensures kept { IfOk result (λ r. r ≡ Always → self.new.atoms.items ≡ self.old.atoms.items) }
        ensures always { IfOk result (λ r. r ≡ Always → (v : ℕ → Bool) → Agrees v self.old.atoms.items
            → holds v circuit.now.gates.items proposition ≡ true) }
        ensures fails { IfOk result (λ r. r ≡ Fails → (v : ℕ → Bool) → Agrees v self.new.atoms.items
            → holds v circuit.now.gates.items proposition ≡ false) }
    {
        find_known(circuit, self.atoms.as_slice(), &mut self.known)?;
        match known_at(self.known.as_slice(), proposition) {
            Some(true) => return Ok(Verdict::Always),
            Some(false) => return Ok(Verdict::Fails),
            None => {}
        }
        let cost = circuit.gates.len() as u64;
        if depth == 0 || self.steps < cost {
            return Ok(Verdict::Unknown);
        }
        self.steps -= cost;
        match open_atom(circuit, self.known.as_slice(), proposition) {
            Some(atom) => self.holds_either_way(circuit, proposition, atom, depth - 1),
            None => Ok(Verdict::Unknown),
        }
    }

    // The same, where nothing is supposed of the atom yet: whether it fails or holds.
    #[cycle(search)]
    fn holds_either_way(
        &mut self,
        circuit: &Circuit,
        proposition: usize,
        atom: usize,
        depth: u32,
    ) -> Result<Verdict, AllocError>
        ensures kept { IfOk result (λ r. r ≡ Always → self.new.atoms.items ≡ self.old.atoms.items) }
        ensures always { IfOk result (λ r. r ≡ Always → (v : ℕ → Bool) → Agrees v self.old.atoms.items
            → holds v circuit.now.gates.items proposition ≡ true) }
        ensures fails { IfOk result (λ r. r ≡ Fails → (v : ℕ → Bool) → Agrees v self.new.atoms.items
            → holds v circuit.now.gates.items proposition ≡ false) }
    {
        if atom >= self.atoms.len() || self.atoms[atom].is_some() {
            return Ok(Verdict::Unknown);
        }
        self.atoms[atom] = Some(false);
        let low = self.holds_where_supposed(circuit, proposition, depth)?;
        if low != Verdict::Always {
            return Ok(low);
        }
        self.atoms[atom] = Some(true);
        let high = self.holds_where_supposed(circuit, proposition, depth)?;
        if high != Verdict::Always {
            return Ok(high);
        }
        self.atoms[atom] = None;
        Ok(Verdict::Always)
    }
}

/// Whether a proposition always holds, by supposing its atoms to fail and to hold in turn; where it fails,
/// `supposed` says what was supposed of each atom. The budget is of parts that are looked at, and falls.
pub fn always_holds(
    alloc: Global,
    circuit: &Circuit,
    proposition: usize,
    atoms: usize,
    supposed: &mut Vec<Option<bool>>,
    steps: &mut u64,
) -> Result<Verdict, AllocError>
    ensures always { IfOk result (λ r. r ≡ Always → (v : ℕ → Bool)
        → holds v circuit.now.gates.items proposition ≡ true) }
    ensures fails { IfOk result (λ r. r ≡ Fails → (v : ℕ → Bool) → Agrees v supposed.new.items
        → holds v circuit.now.gates.items proposition ≡ false) }
{
    let mut search = Search {
        atoms: vec![in alloc; None; atoms]?,
        known: Vec::new(alloc),
        steps: *steps,
    };
    let verdict = search.holds_where_supposed(circuit, proposition, MAX_DEPTH)?;
    let Search {
        atoms,
        known,
        steps: left,
    } = search;
    drop(known);
    *supposed = atoms;
    *steps = left;
    Ok(verdict)
}
