//! Numbers, signs and separators in texts, byte by byte.

ghost use Rattle.std.specs.Prelude.{◌≡◌, ◌≤◌, IfSome};
ghost use Rattle.std.specs.Option.{option_map};
ghost use Rattle.policy_ext.specs.NumberReading.{number_of, cut, is_minus, without_minus, signed_of, plain_of};

/// The number that one or more digits write, where it has 64 bits.
pub(crate) fn number(radix: u32, digits: &[u8]) -> Option<u64>
    requires low { 2 ≤ radix }
    requires high { radix ≤ 36 }
    ensures { result ≡ number_of radix digits.now }
{
    if digits.is_empty() {
        return None;
    }
    let mut n: u64 = 0;
    for c in digits {
        let digit = char::from(*c).to_digit(radix)?;
        n = n.checked_mul(radix as u64)?.checked_add(digit as u64)?;
    }
    Some(n)
}

/// What stands before and after the first place of the byte.
pub(crate) fn cut_at(mark: u8, text: &[u8]) -> Option<(&[u8], &[u8])>
    ensures { option_map (λ p. (p.0.now, p.1.now)) result ≡ cut mark text.now }
{
    for i in 0..text.len() {
        if text[i] == mark {
            return Some((&text[..i], &text[i + 1..]));
        }
    }
    None
}

/// Whether a minus stands in front, and what follows it.
pub(crate) fn split_minus(text: &[u8]) -> (bool, &[u8])
    ensures minus { result.0 ≡ is_minus text.now }
    ensures rest { result.1.now ≡ without_minus text.now }
{
    match text {
        [b'-', rest @ ..] => (true, rest),
        _ => (false, text),
    }
}

/// The number with its sign, where it has 64 signed bits.
pub(crate) fn signed_number(minus: bool, n: u128) -> Option<i64>
    ensures { result ≡ signed_of minus n }
{
    if minus {
        if n > 1 << 63 {
            None
        } else {
            Some((n as i128).wrapping_neg() as i64)
        }
    } else {
        i64::try_from(n).ok()
    }
}

/// The number, up to `most`, of digits with no zero before others.
pub(crate) fn plain_number(most: u64, digits: &[u8]) -> Option<u64>
    ensures value { result ≡ plain_of most digits.now }
    ensures low { IfSome result (λ n. n ≤ most) }
{
    let n = number(10, digits)?;
    if n > most || (digits[0] == b'0' && digits.len() > 1) {
        None
    } else {
        Some(n)
    }
}
