//! Decimals.

ghost use Rattle.std.specs.Prelude.{◌≡◌, ◌^◌, ◌-◌, ◌≤◌, ◌↔◌, ℤ, Some, IfOk, string_bytes};
ghost use Rattle.policy_ext.specs.Decimal.{IsDecimal, decimal_text};
ghost use Rattle.policy_ext.specs.DecimalReading.{decimal_of};

use crate::digits::{cut_at, number, signed_number, split_minus};
use std::alloc::{AllocError, Global};
use std::marker::Model;

/// A number with four digits after the point, from -922337203685477.5808 to 922337203685477.5807.
///
/// Contracts see it as its ten-thousandths, and decimals are compared by them.
#[derive(Clone, Copy, Debug, PartialEq, Eq, PartialOrd, Ord, Hash)]
pub struct Decimal {
    ten_thousandths: i64,
}

impl Model for Decimal {
    ghost use Rattle.std.specs.Prelude.{ℤ, FitsSigned};
    ghost use Rattle.std.specs.Int.{w64};

    ghost Value = { ℤ };

    ghost view = { λ d. d.ten_thousandths };

    ghost inverse = { λ v. record { ten_thousandths = v } };

    ghost invariant = { λ d. FitsSigned w64 d.ten_thousandths };
}

impl Decimal {
    /// The decimal that the text stands for: perhaps `-`, one or more digits, `.`, and one to four digits.
    /// None where the text is none of a decimal, or 64 signed bits do not hold its ten-thousandths.
    pub fn read(text: &str) -> Option<Decimal>
        ensures { (v : ℤ) → (result ≡ Some v) ↔ IsDecimal text.now v }
    {
        from_number(ten_thousandths(text.as_bytes()))
    }

    /// The text with exactly four digits after the point, and no needless zero in front.
    /// [`read`](Decimal::read) gives the decimal back.
    pub fn text(&self, alloc: Global) -> Result<String, AllocError>
        ensures spelling { IfOk result (λ s. string_bytes s ≡ decimal_text self.now) }
        ensures is_read { IfOk result (λ s. IsDecimal (string_bytes s) self.now) }
    {
        written(alloc, self.ten_thousandths)
    }
}

fn from_number(ten_thousandths: Option<i64>) -> Option<Decimal>
    ensures { result ≡ ten_thousandths }
{
    ten_thousandths.map(|ten_thousandths| Decimal { ten_thousandths })
}

// The ten-thousandths that a text stands for.
fn ten_thousandths(text: &[u8]) -> Option<i64>
    ensures { result ≡ decimal_of text.now }
{
    let (minus, body) = split_minus(text);
    let (whole, part) = cut_at(b'.', body)?;
    if part.len() > 4 {
        return None;
    }
    let whole_number = number(10, whole)?;
    let part_number = number(10, part)?;
    signed_number(
        minus,
        whole_number as u128 * 10000 + part_number as u128 * scale(part.len()),
    )
}

// The ten-thousandths of one at the last of so many places.
fn scale(places: usize) -> u128
    requires { places ≤ 4 }
    ensures { result ≡ 10 ^ (4 - places) }
{
    match places {
        0 => 10000,
        1 => 1000,
        2 => 100,
        3 => 10,
        _ => 1,
    }
}

fn written(alloc: Global, ten_thousandths: i64) -> Result<String, AllocError>
    ensures { IfOk result (λ s. string_bytes s ≡ decimal_text ten_thousandths) }
{
    let size = ten_thousandths.unsigned_abs();
    let sign = if ten_thousandths < 0 { "-" } else { "" };
    let part = size % 10000;
    format!(in alloc;
        "{}{}.{}{}{}{}",
        sign,
        size / 10000,
        part / 1000,
        part / 100 % 10,
        part / 10 % 10,
        part % 10
    )
}
