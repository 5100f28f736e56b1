//! How an IP address is read.

ghost use Rattle.std.specs.Prelude.{◌≡◌, ◌≤◌, ◌<◌, ◌^◌, ◌*◌, IfSome, ℕ};
ghost use Rattle.std.specs.List.{slice_split};
ghost use Rattle.std.specs.Option.{option_map};
ghost use Rattle.policy_ext.specs.IpAddr.{width};
ghost use Rattle.policy_ext.specs.IpReading.{octet_at, ipv4_of, group_of, with_group_of, groups_of, cut_double, shortened_of, ipv6_of, address_of, HaveRoom, groups_after, no_groups, is_colon};

use crate::digits::{cut_at, number, plain_number};
use crate::ip_addr::Family;
use std::marker::Model;

// A number up to 255 and what follows the point after it.
fn octet(text: &[u8]) -> Option<(u64, &[u8])>
    ensures value { option_map (λ p. (p.0, p.1.now)) result ≡ octet_at text.now }
    ensures low { IfSome result (λ p. p.0 ≤ 255) }
{
    let (digits, rest) = cut_at(b'.', text)?;
    let n = plain_number(255, digits)?;
    Some((n, rest))
}

// The bits of an IPv4 address.
fn ipv4(text: &[u8]) -> Option<u128>
    ensures value { result ≡ ipv4_of text.now }
    ensures low { IfSome result (λ bits. bits < 2 ^ 32) }
{
    let (first, rest) = octet(text)?;
    let (second, rest) = octet(rest)?;
    let (third, rest) = octet(rest)?;
    let fourth = plain_number(255, rest)?;
    Some(((first as u128 * 256 + second as u128) * 256 + third as u128) * 256 + fourth as u128)
}

// Groups that were read: how many, and their number.
#[derive(Clone, Copy)]
struct Groups {
    count: u32,
    bits: u128,
}

impl Model for Groups {
    ghost Value = { ℕ × ℕ };

    ghost view = { λ g. (g.count, g.bits) };

    ghost inverse = { λ v. record { count = v.0; bits = v.1 } };

    ghost invariant = { λ g. HaveRoom g.count g.bits };
}

fn group(text: &[u8]) -> Option<u64>
    ensures value { result ≡ group_of text.now }
    ensures small { IfSome result (λ n. n < 65536) }
{
    if text.len() > 4 {
        None
    } else {
        number(16, text)
    }
}

// One more group.
fn with_group(read: Groups, text: &[u8]) -> Option<Groups>
    ensures { result ≡ with_group_of read text.now }
{
    if read.count == 8 {
        return None;
    }
    let n = group(text)?;
    Some(Groups {
        count: read.count + 1,
        bits: read.bits * 65536 + n as u128,
    })
}

// Groups joined by colons.
fn read_groups(text: &[u8]) -> Option<Groups>
    ensures { result ≡ groups_of text.now }
{
    if text.is_empty() {
        Some(Groups { count: 0, bits: 0 })
    } else {
        read_some_groups(text)
    }
}

fn read_some_groups(text: &[u8]) -> Option<Groups>
    ensures { result ≡ groups_after no_groups (slice_split is_colon text.now) }
{
    let mut read = Groups { count: 0, bits: 0 };
    let mut rest = text;
    while let Some((piece, more)) = cut_at(b':', rest) {
        read = with_group(read, piece)?;
        rest = more;
    }
    with_group(read, rest)
}

// What stands before and after the first `::`.
fn cut_at_double(text: &[u8]) -> Option<(&[u8], &[u8])>
    ensures { option_map (λ p. (p.0.now, p.1.now)) result ≡ cut_double text.now }
{
    for i in 0..text.len() {
        if let [b':', b':', rest @ ..] = &text[i..] {
            return Some((&text[..i], rest));
        }
    }
    None
}

// The number of groups with so many more, all 0, after them.
fn shifted(bits: u128, more: u32) -> u128
    requires { bits * 65536 ^ more < 2 ^ 128 }
    ensures { result ≡ bits * 65536 ^ more }
{
    let mut shifted = bits;
    for _i in 0..more {
        shifted *= 65536;
    }
    shifted
}

fn shortened(left: Groups, right: Groups) -> Option<u128>
    ensures { result ≡ shortened_of left right }
{
    if left.count + right.count >= 8 {
        return None;
    }
    Some(shifted(left.bits, 8 - left.count) + right.bits)
}

// The bits of an IPv6 address.
fn ipv6(text: &[u8]) -> Option<u128>
    ensures { result ≡ ipv6_of text.now }
{
    match cut_at_double(text) {
        Some((left, right)) => {
            let left = read_groups(left)?;
            let right = read_groups(right)?;
            shortened(left, right)
        }
        None => {
            let all = read_groups(text)?;
            if all.count == 8 { Some(all.bits) } else { None }
        }
    }
}

/// The family and the bits of an address.
pub(crate) fn address(text: &[u8]) -> Option<(Family, u128)>
    ensures value { result ≡ address_of text.now }
    ensures low { IfSome result (λ a. a.1 < 2 ^ width a.0) }
{
    match ipv4(text) {
        Some(bits) => Some((Family::V4, bits)),
        None => {
            let bits = ipv6(text)?;
            Some((Family::V6, bits))
        }
    }
}
