//! Circuits: propositions that share their parts.

ghost use Rattle.std.specs.Prelude.{◌≡◌, ◌&&◌, ◌||◌, [], not, IfOk};
ghost use Rattle.propositions.specs.Circuits.{Adds, gate_holds, holds, values};

use std::alloc::{AllocError, Global};

/// A part of a circuit. Its operands are earlier parts, by number.
#[derive(Clone, Copy, Debug)]
pub enum Gate {
    /// It holds, or it does not.
    Constant(bool),
    /// It holds where the atom of this number does.
    Atom(usize),
    /// It holds where the operand does not.
    Negation(usize),
    /// It holds where both operands do.
    Both(usize, usize),
    /// It holds where some operand does.
    Either(usize, usize),
}

/// Propositions over numbered atoms, each named by the number of its last part.
#[derive(Debug, Drop)]
pub struct Circuit {
    /// The parts, operands first.
    pub gates: Vec<Gate>,
}

#[tactic(auto, unfolding(crate::specs::Circuits::holds))]
impl Circuit {
    /// A circuit of no propositions.
    pub fn new(alloc: Global) -> Circuit
        ensures { result.gates.items ≡ [] }
    {
        Circuit {
            gates: Vec::new(alloc),
        }
    }

    // One more proposition.
    #[tactic(auto, using(crate::proofs::Adding::adds))]
    fn push(&mut self, gate: Gate) -> Result<usize, AllocError>
        ensures { IfOk result (Adds self.old.gates.items self.new.gates.items
            (λ v. gate_holds v (values v self.old.gates.items) gate)) }
    {
        let number = self.gates.len();
        self.gates.push(gate)?;
        Ok(number)
    }

    /// The proposition that always holds, or never.
    pub fn constant(&mut self, value: bool) -> Result<usize, AllocError>
        ensures { IfOk result (Adds self.old.gates.items self.new.gates.items (λ v. value)) }
    {
        self.push(Gate::Constant(value))
    }

    /// The proposition that an atom holds.
    pub fn atom(&mut self, number: usize) -> Result<usize, AllocError>
        ensures { IfOk result (Adds self.old.gates.items self.new.gates.items (λ v. v number)) }
    {
        self.push(Gate::Atom(number))
    }

    /// The negation of a proposition.
    pub fn negation(&mut self, x: usize) -> Result<usize, AllocError>
        ensures { IfOk result (Adds self.old.gates.items self.new.gates.items
            (λ v. not (holds v self.old.gates.items x))) }
    {
        self.push(Gate::Negation(x))
    }

    /// The conjunction of two propositions.
    pub fn both(&mut self, x: usize, y: usize) -> Result<usize, AllocError>
        ensures { IfOk result (Adds self.old.gates.items self.new.gates.items
            (λ v. holds v self.old.gates.items x && holds v self.old.gates.items y)) }
    {
        self.push(Gate::Both(x, y))
    }

    /// The disjunction of two propositions.
    pub fn either(&mut self, x: usize, y: usize) -> Result<usize, AllocError>
        ensures { IfOk result (Adds self.old.gates.items self.new.gates.items
            (λ v. holds v self.old.gates.items x || holds v self.old.gates.items y)) }
    {
        self.push(Gate::Either(x, y))
    }
}
