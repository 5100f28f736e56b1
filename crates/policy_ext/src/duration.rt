//! Spans of time.

ghost use Rattle.std.specs.Prelude.{◌≡◌, ◌↔◌, pos, int_div, FitsSigned, ℤ, Some, IfOk, string_bytes};
ghost use Rattle.std.specs.Int.{w64};
ghost use Rattle.std.specs.Option.{option_map};
ghost use Rattle.std.specs.Fmt.{signed_decimal};
ghost use Rattle.policy_ext.specs.Duration.{IsDuration, units};
ghost use Rattle.policy_ext.specs.DurationReading.{cut_digits, strip, starts_new, part_at, part_of, sum_from, duration_of};

use crate::digits::{number, signed_number, split_minus};
use std::alloc::{AllocError, Global};
use std::marker::Model;

/// A span of time in milliseconds, negative where it goes back.
///
/// Contracts see it as its milliseconds, and durations are compared by them.
#[derive(Clone, Copy, Debug, PartialEq, Eq, PartialOrd, Ord, Hash)]
pub struct Duration {
    millis: i64,
}

impl Model for Duration {
    ghost use Rattle.std.specs.Prelude.{ℤ, FitsSigned};
    ghost use Rattle.std.specs.Int.{w64};

    ghost Value = { ℤ };

    ghost view = { λ d. d.millis };

    ghost inverse = { λ v. record { millis = v } };

    ghost invariant = { λ d. FitsSigned w64 d.millis };
}

impl Duration {
    /// The duration that the text stands for: perhaps `-`, then at least one of `Nd`, `Nh`, `Nm`, `Ns` and
    /// `Nms`, in this order and each at most once, `N` one or more digits. None where the text is none of a
    /// duration, or 64 signed bits do not hold the sum in milliseconds.
    pub fn read(text: &str) -> Option<Duration>
        ensures { (v : ℤ) → (result ≡ Some v) ↔ IsDuration text.now v }
    {
        from_number(milliseconds(text.as_bytes()))
    }

    /// The milliseconds, as `-93784005`. That is no text that [`read`](Duration::read) takes: it has no unit.
    pub fn text(&self, alloc: Global) -> Result<String, AllocError>
        ensures spelling { IfOk result (λ s. string_bytes s ≡ signed_decimal self.now) }
        ensures is_not_read { IfOk result (λ s. (v : ℤ) → IsDuration (string_bytes s) v → ⊥) }
    {
        written(alloc, self)
    }

    /// The duration of so many milliseconds.
    pub fn from_millis(millis: i64) -> Duration
        ensures { result ≡ millis }
    {
        Duration { millis }
    }

    /// The milliseconds.
    pub fn millis(&self) -> i64
        ensures { result ≡ self.now }
    {
        self.millis
    }

    /// The milliseconds, as [`millis`](Duration::millis).
    pub fn to_milliseconds(&self) -> i64
        ensures { result ≡ self.now }
    {
        self.millis
    }

    /// The whole seconds; what is left over is dropped, so the division is towards zero.
    pub fn to_seconds(&self) -> i64
        ensures { result ≡ int_div self.now (pos 1000) }
    {
        self.millis / 1000
    }

    /// The whole minutes, towards zero.
    pub fn to_minutes(&self) -> i64
        ensures { result ≡ int_div self.now (pos 60000) }
    {
        self.millis / 60000
    }

    /// The whole hours, towards zero.
    pub fn to_hours(&self) -> i64
        ensures { result ≡ int_div self.now (pos 3600000) }
    {
        self.millis / 3600000
    }

    /// The whole days of 24 hours, towards zero.
    pub fn to_days(&self) -> i64
        ensures { result ≡ int_div self.now (pos 86400000) }
    {
        self.millis / 86400000
    }
}

fn from_number(millis: Option<i64>) -> Option<Duration>
    ensures { result ≡ millis }
{
    millis.map(|millis| Duration { millis })
}

fn written(alloc: Global, duration: &Duration) -> Result<String, AllocError>
    ensures spelling { IfOk result (λ s. string_bytes s ≡ signed_decimal duration.now) }
    ensures fits { FitsSigned w64 duration.now }
{
    format!(in alloc; "{}", duration.millis)
}

fn milliseconds(text: &[u8]) -> Option<i64>
    ensures { result ≡ duration_of text.now }
{
    let (minus, body) = split_minus(text);
    if body.is_empty() {
        return None;
    }
    let n = sum(body)?;
    signed_number(minus, n)
}

fn sum(text: &[u8]) -> Option<u128>
    ensures { result ≡ sum_from units text.now 0 }
{
    let (days, rest) = part(b"d", text);
    let (hours, rest) = part(b"h", rest);
    let (minutes, rest) = part(b"m", rest);
    let (seconds, rest) = part(b"s", rest);
    let (millis, rest) = part(b"ms", rest);
    if rest.is_empty() {
        Some(
            days as u128 * 86400000
                + hours as u128 * 3600000
                + minutes as u128 * 60000
                + seconds as u128 * 1000
                + millis as u128,
        )
    } else {
        None
    }
}

// A number with these letters, and what follows; 0 where that unit does not come next.
fn part<'a>(letters: &[u8], text: &'a [u8]) -> (u64, &'a [u8])
    ensures { (result.0, result.1.now) ≡ part_of letters.now text.now }
{
    match try_part(letters, text) {
        Some((n, rest)) => (n, rest),
        None => (0, text),
    }
}

fn try_part<'a>(letters: &[u8], text: &'a [u8]) -> Option<(u64, &'a [u8])>
    ensures { option_map (λ p. (p.0, p.1.now)) result ≡ part_at letters.now text.now }
{
    let (digits, rest) = split_digits(text);
    let rest = without_unit(letters, rest)?;
    let n = number(10, digits)?;
    Some((n, rest))
}

// The digits in front, and the rest.
fn split_digits(text: &[u8]) -> (&[u8], &[u8])
    ensures { (result.0.now, result.1.now) ≡ cut_digits text.now }
{
    for i in 0..text.len() {
        if !text[i].is_ascii_digit() {
            return (&text[..i], &text[i..]);
        }
    }
    (text, &text[text.len()..])
}

// What follows the letters, where that is a digit or the end: so `m` is not taken from `ms`.
fn without_unit<'a>(letters: &[u8], text: &'a [u8]) -> Option<&'a [u8]>
    ensures { option_map (λ r. r.now) result ≡ strip letters.now text.now }
{
    let mut rest = text;
    for letter in letters {
        match rest {
            [b, more @ ..] => {
                if *b != *letter {
                    return None;
                }
                rest = more;
            }
            [] => return None,
        }
    }
    if is_new(rest) { Some(rest) } else { None }
}

// Whether a digit or the end comes next.
fn is_new(text: &[u8]) -> bool
    ensures { result ≡ starts_new text.now }
{
    match text {
        [] => true,
        [b, ..] => b.is_ascii_digit(),
    }
}
