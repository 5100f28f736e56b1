//! Propositions of conditions.

ghost use Rattle.std.specs.Prelude.{◌≡◌, ◌<◌, ◌||◌, ◌&&◌, ℕ, Bool, true, false, not, length, IfOk};
ghost use Rattle.propositions.specs.Circuits.{holds};
ghost use Rattle.condition_truth.specs.Outlines.{outline, part_sides, is_sure, sides};
ghost use Rattle.condition_truth.specs.Outlined.{asked_of};
ghost use Rattle.condition_truth.specs.Truth.{is_value, is_yes};
ghost use Rattle.policy_core.specs.Eval.{eval};
ghost use Rattle.policy_expressions.specs.Tree.{mark_of};
ghost use Rattle.condition_compare.specs.Worlds.{World, answer_in};
ghost use Rattle.condition_compare.specs.Outlines.{AddsCondition, AddsOne, AddsSides, Says, state};
ghost use Rattle.condition_compare.specs.Decisions.{allows};

use crate::asked::{Asked, Atoms};
use crate::condition::Condition;
use crate::sort::{Sort, sort_of};
use crate::sure::is_sure;
use policy_expressions::{Expr, ExprKind, Literal, UnaryOp};
use propositions::{Circuit, TwoSided, Verdict, always_holds};
use schema_types::Type;
use std::alloc::{AllocError, Global};

/// Propositions, and what their atoms ask.
#[derive(Drop)]
pub(crate) struct Outliner<'a> {
    pub(crate) circuit: Circuit,
    pub(crate) atoms: Atoms<'a>,
}

impl<'a> Outliner<'a> {
    pub(crate) fn new(alloc: Global) -> Outliner<'a> {
        Outliner {
            circuit: Circuit::new(alloc),
            atoms: Atoms::new(alloc),
        }
    }

    // The proposition that what is asked is so.
    pub(crate) fn asked(&mut self, asked: Asked<'a>) -> Result<usize, AllocError>
        ensures { IfOk result (AddsOne (state self.old.circuit.gates.items self.old.atoms.asked.items)
            (state self.new.circuit.gates.items self.new.atoms.asked.items) (λ w. answer_in w asked.entry)) }
    {
        let number = self.atoms.number_of(asked)?;
        self.circuit.atom(number)
    }

    // The proposition that a part has a value.
    fn value(&mut self, e: &'a Expr<Option<Type>>) -> Result<usize, AllocError>
        ensures { IfOk result (AddsOne (state self.old.circuit.gates.items self.old.atoms.asked.items)
            (state self.new.circuit.gates.items self.new.atoms.asked.items)
            (λ w. is_sure e.now || is_value (eval e.now w.request w.store))) }
    {
        if is_sure(e) {
            self.circuit.constant(true)
        } else {
            self.asked(Asked::HasValue(e))
        }
    }

    // A part that has one truth value, where it has a value: the proposition of its side, and that of the other.
    fn one_sided(&mut self, e: &'a Expr<Option<Type>>) -> Result<(usize, usize), AllocError>
        ensures { IfOk result (λ r. AddsSides (state self.old.circuit.gates.items self.old.atoms.asked.items)
            (state self.new.circuit.gates.items self.new.atoms.asked.items)
            (λ w. sides (is_sure e.now || is_value (eval e.now w.request w.store)) false) (record { yes = r.0; no = r.1 })) }
    {
        let value = self.value(e)?;
        let never = self.circuit.constant(false)?;
        Ok((value, never))
    }

    // A part that is a boolean.
    fn boolean(&mut self, e: &'a Expr<Option<Type>>) -> Result<TwoSided, AllocError>
        ensures { IfOk result (AddsSides (state self.old.circuit.gates.items self.old.atoms.asked.items)
            (state self.new.circuit.gates.items self.new.atoms.asked.items)
            (λ w. sides ((is_sure e.now || is_value (eval e.now w.request w.store)) && is_yes (eval e.now w.request w.store))
            ((is_sure e.now || is_value (eval e.now w.request w.store)) && not (is_yes (eval e.now w.request w.store))))) }
    {
        let value = self.value(e)?;
        let truth = self.asked(Asked::Holds(e))?;
        self.circuit.test(value, truth)
    }

    // A part of a condition.
    fn part(&mut self, e: &'a Expr<Option<Type>>) -> Result<TwoSided, AllocError>
        ensures { IfOk result (AddsSides (state self.old.circuit.gates.items self.old.atoms.asked.items)
            (state self.new.circuit.gates.items self.new.atoms.asked.items)
            (λ w. part_sides (mark_of e.now).note (is_sure e.now || is_value (eval e.now w.request w.store)) (is_yes (eval e.now w.request w.store)))) }
    {
        match sort_of(e.data()) {
            Sort::True => {
                let (yes, no) = self.one_sided(e)?;
                Ok(TwoSided { yes, no })
            }
            Sort::False => {
                let (no, yes) = self.one_sided(e)?;
                Ok(TwoSided { yes, no })
            }
            Sort::Boolean => self.boolean(e),
            Sort::Other => self.circuit.neither(),
        }
    }

    /// The propositions that a condition is true, and that it is false.
    pub(crate) fn outline(&mut self, e: &'a Expr<Option<Type>>) -> Result<TwoSided, AllocError>
        ensures { IfOk result (AddsSides (state self.old.circuit.gates.items self.old.atoms.asked.items)
            (state self.new.circuit.gates.items self.new.atoms.asked.items)
            (λ w. outline (asked_of w.request w.store) e.now)) }
    {
        match e.kind() {
            ExprKind::Lit(Literal::Bool(value)) => self.circuit.literal(*value),
            ExprKind::Lit(_) => self.circuit.neither(),
            ExprKind::If(x, y, z) => {
                let test = self.outline(x)?;
                let second = self.outline(y)?;
                let third = self.outline(z)?;
                self.circuit.choice(test, second, third)
            }
            ExprKind::And(x, y) => {
                let left = self.outline(x)?;
                let right = self.outline(y)?;
                self.circuit.and(left, right)
            }
            ExprKind::Or(x, y) => {
                let left = self.outline(x)?;
                let right = self.outline(y)?;
                self.circuit.or(left, right)
            }
            ExprKind::UnaryApp(UnaryOp::Not, x) => {
                let operand = self.outline(x)?;
                Ok(TwoSided {
                    yes: operand.no,
                    no: operand.yes,
                })
            }
            _ => self.part(e),
        }
    }

    // That one permits, and that one forbids, with one condition more.
    fn with_condition(
        &mut self,
        permits: usize,
        forbids: usize,
        condition: &'a Condition,
    ) -> Result<(usize, usize), AllocError>
        requires permits { permits < length self.old.circuit.gates.items }
        requires forbids { forbids < length self.old.circuit.gates.items }
        ensures { IfOk result (AddsCondition (state self.old.circuit.gates.items self.old.atoms.asked.items)
            (state self.new.circuit.gates.items self.new.atoms.asked.items) permits forbids condition.now) }
    {
        let sides = self.outline(&condition.typed)?;
        if condition.permits {
            let more = self.circuit.either(permits, sides.yes)?;
            Ok((more, forbids))
        } else {
            let more = self.circuit.either(forbids, sides.yes)?;
            Ok((permits, more))
        }
    }

    /// The proposition that the decision by the conditions is Allow.
    pub(crate) fn decision(&mut self, conditions: &'a Vec<Condition>) -> Result<usize, AllocError>
        ensures { IfOk result (AddsOne (state self.old.circuit.gates.items self.old.atoms.asked.items)
            (state self.new.circuit.gates.items self.new.atoms.asked.items) (λ w. allows w conditions.now.items)) }
    {
        let mut permits = self.asked(Asked::SharedPermit)?;
        let mut forbids = self.asked(Asked::SharedForbid)?;
        for condition in conditions {
            let more = self.with_condition(permits, forbids, condition)?;
            permits = more.0;
            forbids = more.1;
        }
        let none_forbids = self.circuit.negation(forbids)?;
        self.circuit.both(permits, none_forbids)
    }

    /// The proposition that the second of two holds where the first does.
    pub(crate) fn follows(&mut self, first: usize, second: usize) -> Result<usize, AllocError>
        requires first { first < length self.old.circuit.gates.items }
        requires second { second < length self.old.circuit.gates.items }
        ensures { IfOk result (λ n. (f g : World → Bool)
            → Says (state self.old.circuit.gates.items self.old.atoms.asked.items) f first
            → Says (state self.old.circuit.gates.items self.old.atoms.asked.items) g second
            → AddsOne (state self.old.circuit.gates.items self.old.atoms.asked.items)
            (state self.new.circuit.gates.items self.new.atoms.asked.items) (λ w. not (f w) || g w) n) }
    {
        let fails = self.circuit.negation(first)?;
        self.circuit.either(fails, second)
    }

    /// Whether a proposition was found to hold always.
    pub(crate) fn always_holds(
        &self,
        alloc: Global,
        proposition: usize,
        steps: &mut u64,
    ) -> Result<bool, AllocError>
        ensures { IfOk result (λ b. b ≡ true → (v : ℕ → Bool)
            → holds v self.now.circuit.gates.items proposition ≡ true) }
    {
        let mut supposed = Vec::new(alloc);
        let atoms = self.atoms.asked.len();
        let verdict = always_holds(
            alloc,
            &self.circuit,
            proposition,
            atoms,
            &mut supposed,
            steps,
        )?;
        Ok(verdict == Verdict::Always)
    }
}
