//! Points in time.

ghost use Rattle.std.specs.Prelude.{◌≡◌, ◌↔◌, pos, ◌*ℤ◌, ◌+ℤ◌, ◌-ℤ◌, ◌≤ℤ◌, FitsSigned, SomeIff, ℤ, Some, IfOk, string_bytes};
ghost use Rattle.std.specs.Int.{w64};
ghost use Rattle.std.specs.Fmt.{signed_decimal};
ghost use Rattle.policy_ext.specs.DateTime.{IsDateTime, day_of, time_of};

use crate::Duration;
use crate::datetime_reading::milliseconds;
use std::alloc::{AllocError, Global};
use std::marker::Model;

/// A point in time, in milliseconds from 1970-01-01 in UTC.
///
/// Contracts see it as these milliseconds, and points in time are compared by them.
#[derive(Clone, Copy, Debug, PartialEq, Eq, PartialOrd, Ord, Hash)]
pub struct DateTimeValue {
    millis: i64,
}

impl Model for DateTimeValue {
    ghost use Rattle.std.specs.Prelude.{ℤ, FitsSigned};
    ghost use Rattle.std.specs.Int.{w64};

    ghost Value = { ℤ };

    ghost view = { λ d. d.millis };

    ghost inverse = { λ v. record { millis = v } };

    ghost invariant = { λ d. FitsSigned w64 d.millis };
}

impl DateTimeValue {
    /// The point in time that the text stands for: `YYYY-MM-DD`, or that and `Thh:mm:ss`, perhaps `.SSS`,
    /// then `Z`, `+hhmm` or `-hhmm`, an offset that is subtracted. Years are 0000 to 9999, the date is one of
    /// the calendar, hours go to 23, minutes and seconds to 59, also those of the offset. None for any
    /// other text.
    pub fn read(text: &str) -> Option<DateTimeValue>
        ensures { (v : ℤ) → (result ≡ Some v) ↔ IsDateTime text.now v }
    {
        from_number(milliseconds(text.as_bytes()))
    }

    /// The milliseconds from 1970-01-01, as `-62167219200000`. That is no text that
    /// [`read`](DateTimeValue::read) takes.
    pub fn text(&self, alloc: Global) -> Result<String, AllocError>
        ensures spelling { IfOk result (λ s. string_bytes s ≡ signed_decimal self.now) }
        ensures is_not_read { IfOk result (λ s. (v : ℤ) → IsDateTime (string_bytes s) v → ⊥) }
    {
        written(alloc, self)
    }

    /// The point in time so many milliseconds after 1970-01-01.
    pub fn from_millis(millis: i64) -> DateTimeValue
        ensures { result ≡ millis }
    {
        DateTimeValue { millis }
    }

    /// The milliseconds from 1970-01-01.
    pub fn millis(&self) -> i64
        ensures { result ≡ self.now }
    {
        self.millis
    }

    /// The point in time that is later by the duration. None where 64 signed bits do not hold it.
    pub fn offset(&self, d: &Duration) -> Option<DateTimeValue>
        ensures { SomeIff result (FitsSigned w64 (self.now +ℤ d.now)) (self.now +ℤ d.now) }
    {
        from_number(self.millis.checked_add(d.millis()))
    }

    /// How much later this is than the other. None where 64 signed bits do not hold it.
    pub fn duration_since(&self, other: &DateTimeValue) -> Option<Duration>
        ensures { SomeIff result (FitsSigned w64 (self.now -ℤ other.now)) (self.now -ℤ other.now) }
    {
        self.millis
            .checked_sub(other.millis)
            .map(Duration::from_millis)
    }

    /// The start of the day, so rounded down. None where 64 signed bits do not hold it.
    pub fn to_date(&self) -> Option<DateTimeValue>
        ensures { SomeIff result (FitsSigned w64 (day_of self.now *ℤ pos 86400000))
            (day_of self.now *ℤ pos 86400000) }
    {
        from_number(self.millis.div_euclid(86400000).checked_mul(86400000))
    }

    /// The time since the start of the day, from 0 to 86,399,999 milliseconds.
    pub fn to_time(&self) -> Duration
        ensures value { result ≡ time_of self.now }
        ensures low { pos 0 ≤ℤ result }
        ensures high { result ≤ℤ pos 86399999 }
    {
        Duration::from_millis(self.millis.rem_euclid(86400000))
    }
}

fn from_number(millis: Option<i64>) -> Option<DateTimeValue>
    ensures { result ≡ millis }
{
    millis.map(|millis| DateTimeValue { millis })
}

fn written(alloc: Global, value: &DateTimeValue) -> Result<String, AllocError>
    ensures spelling { IfOk result (λ s. string_bytes s ≡ signed_decimal value.now) }
    ensures fits { FitsSigned w64 value.now }
{
    format!(in alloc; "{}", value.millis)
}
