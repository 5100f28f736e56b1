//! Ranges of IP addresses.

ghost use Rattle.std.specs.Prelude.{◌≡◌, ◌≤◌, ◌<◌, ◌^◌, ◌-◌, ◌/◌, ◌%◌, ◌↔◌, Some, IsTrue, IfOk, string_bytes};
ghost use Rattle.policy_ext.specs.IpAddr.{Range, IsRange, FitsWidth, width};
ghost use Rattle.policy_ext.specs.IpReading.{range_of};
ghost use Rattle.policy_ext.specs.IpTests.{IsInRange, IsLoopback, IsMulticast, in_range, loopback, multicast, first_bits};
ghost use Rattle.policy_ext.specs.IpText.{range_text, address_text, four_groups};

use crate::digits::{cut_at, plain_number};
use crate::ip_reading::address;
use std::alloc::{AllocError, Global};
use std::marker::Model;

/// The family of an address.
#[derive(Clone, Copy, Debug, PartialEq, Eq, PartialOrd, Ord, Hash)]
pub enum Family {
    /// Addresses of 32 bits.
    V4,
    /// Addresses of 128 bits.
    V6,
}

/// A range of IP addresses: an address, and how many of its first bits count.
///
/// It holds the addresses of its family that share these bits. Two ranges are equal where family, address and
/// prefix are, so a range also keeps the bits that do not count; they are ordered by family (IPv4 first),
/// address and prefix.
#[derive(Clone, Copy, Debug, PartialEq, Eq, PartialOrd, Ord, Hash)]
pub struct IpAddr {
    family: Family,
    bits: u128,
    prefix: u32,
}

impl Model for IpAddr {
    ghost use Rattle.policy_ext.specs.IpAddr.{Range, FitsWidth};

    ghost Value = { Range };

    ghost view = { λ r. record { family = r.family; bits = r.bits; prefix = r.prefix } };

    ghost inverse = { λ v. record { family = v.family; bits = v.bits; prefix = v.prefix } };

    ghost invariant = { λ r. FitsWidth r.family r.bits r.prefix };
}

impl IpAddr {
    /// The range that the text stands for.
    ///
    /// IPv4 is four numbers up to 255 without needless zeros in front, joined by `.`; IPv6 is eight groups of
    /// one to four hexadecimal digits joined by `:`, where one `::` may stand for one or more groups of 0.
    /// Then perhaps `/n`, `n` up to 32 or 128 without needless zeros in front; without it all bits count.
    /// None for any other text.
    pub fn read(text: &str) -> Option<IpAddr>
        ensures { (v : Range) → (result ≡ Some v) ↔ IsRange text.now v }
    {
        range(text.as_bytes())
    }

    /// The text with its prefix: IPv4 as four numbers, IPv6 as eight groups in lower case without needless
    /// zeros in front and without `::`. [`read`](IpAddr::read) gives the range back.
    pub fn text(&self, alloc: Global) -> Result<String, AllocError>
        ensures spelling { IfOk result (λ s. string_bytes s ≡ range_text self.now) }
        ensures is_read { IfOk result (λ s. IsRange (string_bytes s) self.now) }
    {
        written(alloc, self)
    }

    /// Whether the addresses are of IPv4.
    pub fn is_ipv4(&self) -> bool
        ensures { IsTrue result ↔ (self.now.family ≡ Family.V4) }
    {
        self.family == Family::V4
    }

    /// Whether the addresses are of IPv6.
    pub fn is_ipv6(&self) -> bool
        ensures { IsTrue result ↔ (self.now.family ≡ Family.V6) }
    {
        self.family == Family::V6
    }

    /// Whether the range lies inside 127.0.0.0/8, or is `::1/128`.
    pub fn is_loopback(&self) -> bool
        ensures bits { result ≡ loopback self.now }
        ensures addresses { IsTrue result ↔ IsLoopback self.now }
    {
        let whole = IpAddr {
            family: Family::V4,
            bits: 0x7f00_0000,
            prefix: 8,
        };
        let one = IpAddr {
            family: Family::V6,
            bits: 1,
            prefix: 128,
        };
        self.is_in_range(&whole) || *self == one
    }

    /// Whether the range lies inside 224.0.0.0/4 or ff00::/8.
    pub fn is_multicast(&self) -> bool
        ensures bits { result ≡ multicast self.now }
        ensures addresses { IsTrue result ↔ IsMulticast self.now }
    {
        let ipv4 = IpAddr {
            family: Family::V4,
            bits: 0xe000_0000,
            prefix: 4,
        };
        let ipv6 = IpAddr {
            family: Family::V6,
            bits: 0xff << 120,
            prefix: 8,
        };
        self.is_in_range(&ipv4) || self.is_in_range(&ipv6)
    }

    /// Whether both are of one family, and each address of this range is one of the other.
    pub fn is_in_range(&self, other: &IpAddr) -> bool
        ensures bits { result ≡ in_range self.now other.now }
        ensures addresses { IsTrue result ↔ IsInRange self.now other.now }
    {
        shares_bits(self, other)
    }
}

// Whether the first bits that count for `wide` are the same, and count for `narrow` too.
fn shares_bits(narrow: &IpAddr, wide: &IpAddr) -> bool
    ensures value { result ≡ in_range narrow.now wide.now }
    ensures fits { wide.now.prefix ≤ width wide.now.family }
{
    narrow.family == wide.family
        && wide.prefix <= narrow.prefix
        && first_bits_of(wide.family, wide.prefix, narrow.bits)
            == first_bits_of(wide.family, wide.prefix, wide.bits)
}

// The first bits of an address, as many as `prefix` says.
fn first_bits_of(family: Family, prefix: u32, bits: u128) -> u128
    requires { prefix ≤ width family }
    ensures { result ≡ first_bits family prefix bits }
{
    bits.checked_shr(width_of(family) - prefix).unwrap_or(0)
}

fn width_of(family: Family) -> u32
    ensures { result ≡ width family }
{
    match family {
        Family::V4 => 32,
        Family::V6 => 128,
    }
}

fn range(text: &[u8]) -> Option<IpAddr>
    ensures { result ≡ range_of text.now }
{
    match cut_at(b'/', text) {
        Some((front, suffix)) => {
            let (family, bits) = address(front)?;
            let prefix = plain_number(width_of(family) as u64, suffix)?;
            Some(IpAddr {
                family,
                bits,
                prefix: prefix as u32,
            })
        }
        None => {
            let (family, bits) = address(text)?;
            Some(IpAddr {
                family,
                bits,
                prefix: width_of(family),
            })
        }
    }
}

fn written(alloc: Global, range: &IpAddr) -> Result<String, AllocError>
    ensures value { IfOk result (λ s. string_bytes s ≡ range_text range.now) }
    ensures fits { FitsWidth range.now.family range.now.bits range.now.prefix }
{
    let address = match range.family {
        Family::V4 => write_ipv4(alloc, range.bits)?,
        Family::V6 => write_ipv6(alloc, range.bits)?,
    };
    format!(in alloc; "{}/{}", address, range.prefix)
}

fn write_ipv4(alloc: Global, bits: u128) -> Result<String, AllocError>
    ensures { IfOk result (λ s. string_bytes s ≡ address_text Family.V4 bits) }
{
    let (first, second, third, fourth) = (
        bits / 16777216,
        bits / 65536 % 256,
        bits / 256 % 256,
        bits % 256,
    );
    format!(in alloc; "{}.{}.{}.{}", first, second, third, fourth)
}

fn write_ipv6(alloc: Global, bits: u128) -> Result<String, AllocError>
    ensures { IfOk result (λ s. string_bytes s ≡ address_text Family.V6 bits) }
{
    let front = write_four(alloc, bits / 18446744073709551616)?;
    let back = write_four(alloc, bits % 18446744073709551616)?;
    format!(in alloc; "{}:{}", front, back)
}

// The last four groups.
fn write_four(alloc: Global, bits: u128) -> Result<String, AllocError>
    ensures { IfOk result (λ s. string_bytes s ≡ four_groups bits) }
{
    let (first, second, third, fourth) = (
        last_group(bits / 281474976710656),
        last_group(bits / 4294967296),
        last_group(bits / 65536),
        last_group(bits),
    );
    format!(in alloc; "{:x}:{:x}:{:x}:{:x}", first, second, third, fourth)
}

fn last_group(bits: u128) -> u16
    ensures { result ≡ bits % 65536 }
{
    (bits % 65536) as u16
}
