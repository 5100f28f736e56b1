//! How a point in time is read.

ghost use Rattle.std.specs.Prelude.{◌≡◌, ◌↔◌, ◌≤◌, IfSome, ℤ, Some, pos, ◌<◌, ◌^◌, ◌∷◌, unsigned_abs, ◌+ℤ◌, ◌-ℤ◌, ◌*ℤ◌};
ghost use Rattle.std.specs.Option.{option_map};
ghost use Rattle.jiff.specs.Words.{epoch_day};
ghost use Rattle.policy_ext.specs.DateTime.{IsDateTime};
ghost use Rattle.policy_ext.specs.DateTimeReading.{digits2, mark, up_to, date_at, IsDayOf, digits3, fraction_at, offset_of, zone_of, hms_at, clock_of, instant_of};

use jiff::civil;
use jiff::civil::Date;

/// The milliseconds from 1970-01-01 that a text stands for.
pub(crate) fn milliseconds(text: &[u8]) -> Option<i64>
    ensures { (v : ℤ) → (result ≡ Some v) ↔ IsDateTime text.now v }
{
    match date(text) {
        Some((year, month, day, rest)) => instant(day_of_date(year, month, day), clock(rest)),
        None => None,
    }
}

fn instant(day: Option<i32>, clock: Option<i64>) -> Option<i64>
    requires { IfSome clock (λ z. unsigned_abs z < 2 ^ 40) }
    ensures { result ≡ instant_of day clock }
{
    let day = day?;
    let millis = clock?;
    Some(from_epoch(day, millis))
}

// A number of two digits, and the rest.
fn two_digits(text: &[u8]) -> Option<(u32, &[u8])>
    ensures value { option_map (λ p. (p.0, p.1.now)) result ≡ digits2 text.now }
    ensures low { IfSome result (λ p. p.0 ≤ 99) }
{
    match text {
        [a, b, rest @ ..] => {
            if a.is_ascii_digit() && b.is_ascii_digit() {
                Some(((*a - b'0') as u32 * 10 + (*b - b'0') as u32, rest))
            } else {
                None
            }
        }
        _ => None,
    }
}

// What follows the byte.
fn after(byte: u8, text: &[u8]) -> Option<&[u8]>
    ensures { option_map (λ r. r.now) result ≡ mark byte text.now }
{
    match text {
        [b, rest @ ..] => { if *b == byte { Some(rest) } else { None } }
        [] => None,
    }
}

// The day number of the date, where the calendar has it.
fn day_of_date(year: u32, month: u32, day: u32) -> Option<i32>
    requires year_low { year ≤ 9999 }
    requires month_low { month ≤ 99 }
    requires day_low { day ≤ 99 }
    ensures { (n : ℤ) → (result ≡ Some n) ↔ IsDayOf year month day n }
{
    match Date::new(year as i16, month as i8, day as i8) {
        Ok(date) => Some(days_since_epoch(date)),
        Err(_) => None,
    }
}

// The days from 1970-01-01.
fn days_since_epoch(date: Date) -> i32
    ensures { result ≡ epoch_day date }
{
    let epoch = civil::date(1970, 1, 1);
    (date.duration_since(epoch).as_hours() / 24) as i32
}

// The year, month and day of YYYY-MM-DD, and the rest.
fn date(text: &[u8]) -> Option<(u32, u32, u32, &[u8])>
    ensures value { option_map (λ p. (p.0, p.1, p.2, p.3.now)) result ≡ date_at text.now }
    ensures low { IfSome result (λ p. (p.0 ≤ 9999) × (p.1 ≤ 99) × (p.2 ≤ 99)) }
{
    let (century, rest) = two_digits(text)?;
    let (year, rest) = two_digits(rest)?;
    let rest = after(b'-', rest)?;
    let (month, rest) = two_digits(rest)?;
    let rest = after(b'-', rest)?;
    let (day, rest) = two_digits(rest)?;
    Some((century * 100 + year, month, day, rest))
}

// A number of two digits up to `most`, and the rest.
fn two_to(most: u32, text: &[u8]) -> Option<(u32, &[u8])>
    ensures value { option_map (λ p. (p.0, p.1.now)) result ≡ up_to most (digits2 text.now) }
    ensures low { IfSome result (λ p. p.0 ≤ most) }
{
    let (n, rest) = two_digits(text)?;
    if n > most { None } else { Some((n, rest)) }
}

// A number of three digits, and the rest.
fn three_digits(text: &[u8]) -> Option<(u32, &[u8])>
    ensures value { option_map (λ p. (p.0, p.1.now)) result ≡ digits3 text.now }
    ensures low { IfSome result (λ p. p.0 ≤ 999) }
{
    match text {
        [a, rest @ ..] => {
            if !a.is_ascii_digit() {
                return None;
            }
            let (n, rest) = two_digits(rest)?;
            Some(((*a - b'0') as u32 * 100 + n, rest))
        }
        [] => None,
    }
}

// The milliseconds of a point and three digits, or none, and the rest.
fn fraction(text: &[u8]) -> Option<(u32, &[u8])>
    ensures value { option_map (λ p. (p.0, p.1.now)) result ≡ fraction_at text.now }
    ensures low { IfSome result (λ p. p.0 ≤ 999) }
{
    match text {
        [b, rest @ ..] => {
            if *b == b'.' {
                three_digits(rest)
            } else {
                Some((0, text))
            }
        }
        [] => Some((0, text)),
    }
}

// The minutes of hhmm with that sign, at the end.
fn offset(minus: bool, text: &[u8]) -> Option<i32>
    ensures value { result ≡ offset_of minus text.now }
    ensures low { IfSome result (λ z. unsigned_abs z ≤ 1439) }
{
    let (hours, rest) = two_to(23, text)?;
    let (minutes, rest) = two_to(59, rest)?;
    if !rest.is_empty() {
        return None;
    }
    let size = (hours * 60 + minutes) as i32;
    if minus { Some(-size) } else { Some(size) }
}

// The minutes of `Z`, `+hhmm` or `-hhmm`, at the end.
fn zone(text: &[u8]) -> Option<i32>
    ensures value { result ≡ zone_of text.now }
    ensures low { IfSome result (λ z. unsigned_abs z ≤ 1439) }
{
    match text {
        [b, rest @ ..] => {
            if *b == b'Z' {
                if rest.is_empty() { Some(0) } else { None }
            } else if *b == b'+' {
                offset(false, rest)
            } else if *b == b'-' {
                offset(true, rest)
            } else {
                None
            }
        }
        [] => None,
    }
}

// The seconds of hh:mm:ss, and the rest.
fn seconds(text: &[u8]) -> Option<(u32, &[u8])>
    ensures value { option_map (λ p. (p.0, p.1.now)) result ≡ hms_at text.now }
    ensures low { IfSome result (λ p. p.0 < 86400) }
{
    let (hours, rest) = two_to(23, text)?;
    let rest = after(b':', rest)?;
    let (minutes, rest) = two_to(59, rest)?;
    let rest = after(b':', rest)?;
    let (seconds, rest) = two_to(59, rest)?;
    Some(((hours * 60 + minutes) * 60 + seconds, rest))
}

fn clock_after(text: &[u8]) -> Option<i64>
    ensures value { result ≡ clock_of (84 ∷ text.now) }
    ensures low { IfSome result (λ z. unsigned_abs z < 2 ^ 40) }
{
    let (seconds, rest) = seconds(text)?;
    let (millis, rest) = fraction(rest)?;
    let offset = zone(rest)?;
    Some(from_day_start(seconds * 1000 + millis, offset))
}

// The milliseconds from the start of the day.
fn clock(text: &[u8]) -> Option<i64>
    ensures value { result ≡ clock_of text.now }
    ensures low { IfSome result (λ z. unsigned_abs z < 2 ^ 40) }
{
    match text {
        [b, rest @ ..] => { if *b == b'T' { clock_after(rest) } else { None } }
        [] => Some(0),
    }
}

fn from_day_start(millis: u32, offset: i32) -> i64
    requires millis_low { millis < 2 ^ 31 }
    requires offset_low { unsigned_abs offset ≤ 1439 }
    ensures value { result ≡ pos millis -ℤ offset *ℤ pos 60000 }
    ensures low { unsigned_abs result < 2 ^ 40 }
{
    millis as i64 - offset as i64 * 60000
}

fn from_epoch(day: i32, millis: i64) -> i64
    requires { unsigned_abs millis < 2 ^ 40 }
    ensures { result ≡ day *ℤ pos 86400000 +ℤ millis }
{
    day as i64 * 86400000 + millis
}
