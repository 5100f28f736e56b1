//! What is known of one expression.

ghost use Rattle.std.specs.Prelude.{◌≡◌, ◌↔◌, IfOk, IsTrue, fold, ◌++◌};
ghost use Rattle.policy_expressions.specs.Shape.{SameShape};
ghost use Rattle.typing_spec.specs.Capability.{Attribute, Tag, AreAlike, SameAccess, is_alike, access_fed, capability_fed, print_of};
ghost use Rattle.typing_spec.specs.AccessView.{access_of};

use crate::path::feed_path;
use policy_expressions::Expr;
use policy_values::Text;
use std::alloc::{AllocError, Global};
use std::hash::{DefaultHasher, Hash, Hasher};
use std::marker::Model;

/// That an expression has an attribute, or the tag that another expression names. Capabilities are equal
/// where their expressions have one shape: notes and places do not matter.
#[derive(Debug)]
pub struct Capability<'a> {
    on: &'a Expr<()>,
    what: Known<'a>,
    // A hash: most capabilities are reported apart by it.
    print: u64,
}

impl Drop for Capability<'_> {
    fn drop(self) {
        let Capability {
            on: _,
            what,
            print: _,
        } = self;
        drop(what);
    }
}

// What the expression has.
#[derive(Debug, Drop)]
pub(crate) enum Known<'a> {
    Attribute(Text),
    BorrowedTag(&'a Expr<()>),
    OwnedTag(Expr<()>),
}

impl<'a> Model for Capability<'a> {
    ghost use Rattle.typing_spec.specs.Capability.{Capability, coded_capability};

    ghost Value = { Capability };

    ghost coded = { coded_capability };

    ghost use Rattle.typing_spec.specs.AccessView.{access_of};

    ghost view = { λ a. record { on = a.on.now; what = access_of a.what } };

    ghost use Rattle.std.specs.Prelude.{◌≡◌};
    ghost use Rattle.typing_spec.specs.Capability.{print_of};

    ghost invariant = { λ a. a.print ≡ print_of (record { on = a.on.now; what = access_of a.what }) };
}

impl<'a> Capability<'a> {
    /// That the expression has an attribute.
    pub fn new_attribute(on_expr: &'a Expr<()>, attribute: Text) -> Capability<'a>
        ensures { result ≡ record { on = on_expr.now; what = Attribute attribute } }
    {
        new_capability(on_expr, Known::Attribute(attribute))
    }

    /// That the expression has the tag that another one names.
    pub fn new_borrowed_tag(on_expr: &'a Expr<()>, tag: &'a Expr<()>) -> Capability<'a>
        ensures { result ≡ record { on = on_expr.now; what = Tag tag.now } }
    {
        new_capability(on_expr, Known::BorrowedTag(tag))
    }

    /// That the expression has the tag that another one names, which the capability owns.
    pub fn new_owned_tag(on_expr: &'a Expr<()>, tag: Expr<()>) -> Capability<'a>
        ensures { result ≡ record { on = on_expr.now; what = Tag tag } }
    {
        new_capability(on_expr, Known::OwnedTag(tag))
    }

    // Equal capabilities have one print.
    pub(crate) fn print(&self) -> u64
        ensures { result ≡ print_of self.now }
    {
        self.print
    }

    /// An equal capability.
    pub fn try_clone(&self, alloc: Global) -> Result<Capability<'a>, AllocError>
        ensures { IfOk result (λ k. k ≡ self.now) }
    {
        let on = self.on;
        let what = copy_of(alloc, &self.what)?;
        let print = self.print;
        Ok(Capability { on, what, print })
    }
}

fn new_capability<'a>(on: &'a Expr<()>, what: Known<'a>) -> Capability<'a>
    ensures { result ≡ record { on = on.now; what = access_of what.entry } }
{
    let print = print_of(on, &what);
    Capability { on, what, print }
}

fn print_of(on: &Expr<()>, what: &Known<'_>) -> u64
    ensures { result ≡ print_of (record { on = on.now; what = access_of what.now }) }
{
    let mut state = DefaultHasher::new();
    feed(on, what, &mut state);
    state.finish()
}

fn copy_of<'a>(alloc: Global, what: &Known<'a>) -> Result<Known<'a>, AllocError>
    ensures { IfOk result (λ x. access_of x ≡ access_of what.now) }
{
    match what {
        Known::Attribute(name) => Ok(Known::Attribute(name.try_clone()?)),
        Known::BorrowedTag(tag) => Ok(Known::BorrowedTag(*tag)),
        Known::OwnedTag(tag) => Ok(Known::OwnedTag(tag.try_clone(alloc)?)),
    }
}

// Whether the capabilities are equal.
pub(crate) fn are_alike(k: &Capability<'_>, m: &Capability<'_>) -> bool
    ensures { result ≡ is_alike k.now m.now }
{
    is_same(k, m)
}

// The prints are compared first: they say most capabilities apart.
#[tactic(auto, using(crate::specs::CapabilityLaws::same_print))]
fn is_same(k: &Capability<'_>, m: &Capability<'_>) -> bool
    ensures { IsTrue result ↔ AreAlike k.now m.now }
{
    k.print == m.print && is_same_access(&k.what, &m.what) && k.on.same_shape(m.on)
}

fn is_same_access(x: &Known<'_>, y: &Known<'_>) -> bool
    ensures { IsTrue result ↔ SameAccess (access_of x.now) (access_of y.now) }
{
    match (x, y) {
        (Known::Attribute(m), Known::Attribute(n)) => same_text(m, n),
        (Known::BorrowedTag(k), Known::BorrowedTag(l)) => is_same_expr(k, l),
        (Known::BorrowedTag(k), Known::OwnedTag(l)) => is_same_expr(k, l),
        (Known::OwnedTag(k), Known::BorrowedTag(l)) => is_same_expr(k, l),
        (Known::OwnedTag(k), Known::OwnedTag(l)) => is_same_expr(k, l),
        _ => false,
    }
}

#[tactic(auto, using(crate::specs::BareLaws::same_depth))]
fn is_same_expr(x: &Expr<()>, y: &Expr<()>) -> bool
    ensures { IsTrue result ↔ SameShape x.now y.now }
{
    x.depth() == y.depth() && x.same_shape(y)
}

fn same_text(a: &Text, b: &Text) -> bool
    ensures { IsTrue result ↔ (a.now ≡ b.now) }
{
    *a == *b
}

impl<'a> PartialEq for Capability<'a> {
    ghost use Rattle.std.specs.Cmp.{partial_equiv_from_equiv};
    ghost use Rattle.typing_spec.specs.Capability.{is_alike};
    ghost use Rattle.typing_spec.specs.CapabilityLaws.{alike_equiv};

    ghost eq = { is_alike };

    ghost laws = { partial_equiv_from_equiv alike_equiv };

    fn eq(&self, other: &Capability<'a>) -> bool {
        are_alike(self, other)
    }
}

impl<'a> Eq for Capability<'a> {
    ghost use Rattle.typing_spec.specs.CapabilityLaws.{alike_equiv};

    ghost laws = { alike_equiv };
}

impl<'a> Hash for Capability<'a> {
    ghost use Rattle.typing_spec.specs.Capability.{capability_fed};
    ghost use Rattle.typing_spec.specs.CapabilityLaws.{hash_alike};

    ghost hash_input = { capability_fed };

    ghost respects_eq = { hash_alike };

    // Only what is cheap: the paths of the expressions, and the attribute.
    fn hash<H: Hasher>(&self, state: &mut H) {
        feed(self.on, &self.what, state);
    }
}

#[tactic(auto, using(policy_values::proofs::HashSteps::fold_both))]
fn feed<H: Hasher>(on: &Expr<()>, what: &Known<'_>, state: &mut H)
    ensures { state.new ≡
        fold H.write state.old (capability_fed (record { on = on.now; what = access_of what.now })) }
{
    feed_path(on, state);
    feed_known(what, state);
}

#[tactic(auto, using(policy_values::proofs::HashSteps::fold_both))]
fn feed_known<H: Hasher>(what: &Known<'_>, state: &mut H)
    ensures { state.new ≡ fold H.write state.old (access_fed (access_of what.now)) }
{
    match what {
        Known::Attribute(name) => {
            state.write_u8(0);
            name.hash(state);
        }
        Known::BorrowedTag(tag) => {
            state.write_u8(1);
            feed_path(tag, state);
        }
        Known::OwnedTag(tag) => {
            state.write_u8(1);
            feed_path(tag, state);
        }
    }
}
