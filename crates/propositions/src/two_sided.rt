//! Propositions in two: that something is true, and that it is false.

ghost use Rattle.std.specs.Prelude.{◌<◌, ◌&&◌, ◌||◌, false, not, length, IfOk};
ghost use Rattle.propositions.specs.Circuits.{Adds, holds};
ghost use Rattle.propositions.specs.TwoSided.{AddsTwo, AreWithin};

use crate::circuit::Circuit;
use std::alloc::AllocError;

/// The numbers of two propositions of a circuit: that something is true, and that it is false. Where it has no
/// value, both fail.
#[derive(Clone, Copy, Debug)]
pub struct TwoSided {
    /// That it is true.
    pub yes: usize,
    /// That it is false.
    pub no: usize,
}

impl Circuit {
    /// What is true or false.
    pub fn literal(&mut self, value: bool) -> Result<TwoSided, AllocError>
        ensures { IfOk result (AddsTwo self.old.gates.items self.new.gates.items (λ v. value) (λ v. not value)) }
    {
        let yes = self.constant(value)?;
        let no = self.constant(!value)?;
        Ok(TwoSided { yes, no })
    }

    /// What is neither true nor false.
    pub fn neither(&mut self) -> Result<TwoSided, AllocError>
        ensures { IfOk result (AddsTwo self.old.gates.items self.new.gates.items (λ v. false) (λ v. false)) }
    {
        let yes = self.constant(false)?;
        Ok(TwoSided { yes, no: yes })
    }

    /// `&&` of two.
    pub fn and(&mut self, x: TwoSided, y: TwoSided) -> Result<TwoSided, AllocError>
        requires left { AreWithin (length self.old.gates.items) x }
        requires right { AreWithin (length self.old.gates.items) y }
        ensures { IfOk result (AddsTwo self.old.gates.items self.new.gates.items
            (λ v. holds v self.old.gates.items x.yes && holds v self.old.gates.items y.yes)
            (λ v. holds v self.old.gates.items x.no || (holds v self.old.gates.items x.yes && holds v self.old.gates.items y.no))) }
    {
        let yes = self.both(x.yes, y.yes)?;
        let right = self.both(x.yes, y.no)?;
        let no = self.either(x.no, right)?;
        Ok(TwoSided { yes, no })
    }

    /// `||` of two.
    pub fn or(&mut self, x: TwoSided, y: TwoSided) -> Result<TwoSided, AllocError>
        requires left { AreWithin (length self.old.gates.items) x }
        requires right { AreWithin (length self.old.gates.items) y }
        ensures { IfOk result (AddsTwo self.old.gates.items self.new.gates.items
            (λ v. holds v self.old.gates.items x.yes || (holds v self.old.gates.items x.no && holds v self.old.gates.items y.yes))
            (λ v. holds v self.old.gates.items x.no && holds v self.old.gates.items y.no)) }
    {
        let right = self.both(x.no, y.yes)?;
        let yes = self.either(x.yes, right)?;
        let no = self.both(x.no, y.no)?;
        Ok(TwoSided { yes, no })
    }

    // One proposition where x is true, the other where it is false.
    fn chosen(&mut self, x: TwoSided, y: usize, z: usize) -> Result<usize, AllocError>
        requires test { AreWithin (length self.old.gates.items) x }
        requires third { z < length self.old.gates.items }
        ensures { IfOk result (Adds self.old.gates.items self.new.gates.items
            (λ v. (holds v self.old.gates.items x.yes && holds v self.old.gates.items y)
            || (holds v self.old.gates.items x.no && holds v self.old.gates.items z))) }
    {
        let first = self.both(x.yes, y)?;
        let second = self.both(x.no, z)?;
        self.either(first, second)
    }

    /// `if` x `then` y `else` z.
    pub fn choice(&mut self, x: TwoSided, y: TwoSided, z: TwoSided) -> Result<TwoSided, AllocError>
        requires test { AreWithin (length self.old.gates.items) x }
        requires second { AreWithin (length self.old.gates.items) y }
        requires third { AreWithin (length self.old.gates.items) z }
        ensures { IfOk result (AddsTwo self.old.gates.items self.new.gates.items
            (λ v. (holds v self.old.gates.items x.yes && holds v self.old.gates.items y.yes)
            || (holds v self.old.gates.items x.no && holds v self.old.gates.items z.yes))
            (λ v. (holds v self.old.gates.items x.yes && holds v self.old.gates.items y.no)
            || (holds v self.old.gates.items x.no && holds v self.old.gates.items z.no))) }
    {
        let yes = self.chosen(x, y.yes, z.yes)?;
        let no = self.chosen(x, y.no, z.no)?;
        Ok(TwoSided { yes, no })
    }

    /// What has a value where one proposition holds, and is true where the other holds, too.
    pub fn test(&mut self, value: usize, truth: usize) -> Result<TwoSided, AllocError>
        requires value { value < length self.old.gates.items }
        requires truth { truth < length self.old.gates.items }
        ensures { IfOk result (AddsTwo self.old.gates.items self.new.gates.items
            (λ v. holds v self.old.gates.items value && holds v self.old.gates.items truth)
            (λ v. holds v self.old.gates.items value && not (holds v self.old.gates.items truth))) }
    {
        let yes = self.both(value, truth)?;
        let fails = self.negation(truth)?;
        let no = self.both(value, fails)?;
        Ok(TwoSided { yes, no })
    }
}
