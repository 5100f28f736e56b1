//! How values are written: as in Cedar, but of each set and each record five parts alone.

ghost use Rattle.std.specs.Prelude.{◌≡◌, ◌++◌, OnOk, codes, string_bytes};
ghost use Rattle.std.specs.Fmt.{signed_decimal};
ghost use Rattle.std.specs.List.{list_all};
ghost use Rattle.policy_ext.specs.Decimal.{decimal_text};
ghost use Rattle.policy_ext.specs.IpText.{range_text};
ghost use Rattle.policy_values.specs.Value.{set, rec, vals_of, fields_of};
ghost use Rattle.findings.specs.Texts.{string_text};
ghost use Rattle.conformance.specs.ValueText.{is_head, is_tail, is_component, key_text, truth_text, field_text, value_text, elements_text, further_elements, fields_text, further_fields};

use policy_ext::{Decimal, IpAddr};
use policy_values::{Quoted, Text, Value, ValueKind};
use std::alloc::{AllocError, Global};
use std::collections::BTreeMap;
use std::fmt::Write;

// How many parts of a set or a record are shown behind the first.
const FURTHER_PARTS: usize = 4;

#[cycle(write)]
fn write_value(alloc: Global, text: &mut String, v: &Value) -> Result<(), AllocError>
    ensures { OnOk result (string_bytes text.new ≡ string_bytes text.old ++ value_text v.now) }
{
    match v.kind() {
        ValueKind::Bool(b) => write_truth(text, *b),
        ValueKind::Long(n) => write_long(text, *n),
        ValueKind::String(s) => write_string(text, s),
        ValueKind::EntityUID(uid) => {
            write!(text, "{uid}")?;
            Ok(())
        }
        ValueKind::Set(items) => write_set(alloc, text, items),
        ValueKind::Record(fields) => write_record(alloc, text, fields),
        ValueKind::Decimal(d) => write_decimal(alloc, text, d),
        ValueKind::IpAddr(range) => write_range(alloc, text, range),
        ValueKind::DateTime(d) => {
            let millis = d.millis();
            write!(text, "datetime({millis})")?;
            Ok(())
        }
        ValueKind::Duration(d) => {
            let millis = d.millis();
            write!(text, "duration({millis})")?;
            Ok(())
        }
    }
}

fn write_truth(text: &mut String, b: bool) -> Result<(), AllocError>
    ensures { OnOk result (string_bytes text.new ≡ string_bytes text.old ++ truth_text b) }
{
    if b {
        text.push_str("true")
    } else {
        text.push_str("false")
    }
}

fn write_long(text: &mut String, n: i64) -> Result<(), AllocError>
    ensures { OnOk result (string_bytes text.new ≡ string_bytes text.old ++ signed_decimal n) }
{
    write!(text, "{n}")?;
    Ok(())
}

fn write_string(text: &mut String, s: &Text) -> Result<(), AllocError>
    ensures { OnOk result (string_bytes text.new ≡ string_bytes text.old ++ string_text s.now) }
{
    let quoted = Quoted(s);
    write!(text, "\"{quoted}\"")?;
    Ok(())
}

fn write_decimal(alloc: Global, text: &mut String, d: &Decimal) -> Result<(), AllocError>
    ensures { OnOk result (string_bytes text.new ≡ string_bytes text.old ++
        (codes "decimal(\"" ++ (decimal_text d.now ++ codes "\")"))) }
{
    let written = d.text(alloc)?;
    write!(text, "decimal(\"{written}\")")?;
    Ok(())
}

fn write_range(alloc: Global, text: &mut String, range: &IpAddr) -> Result<(), AllocError>
    ensures { OnOk result (string_bytes text.new ≡ string_bytes text.old ++
        (codes "ip(\"" ++ (range_text range.now ++ codes "\")"))) }
{
    let written = range.text(alloc)?;
    write!(text, "ip(\"{written}\")")?;
    Ok(())
}

#[cycle(write)]
fn write_set(alloc: Global, text: &mut String, items: &Vec<Value>) -> Result<(), AllocError>
    ensures { OnOk result (string_bytes text.new ≡ string_bytes text.old ++
        value_text (set (vals_of items.now.items))) }
{
    text.push_str("[")?;
    write_elements(alloc, text, items)?;
    text.push_str("]")
}

#[cycle(write)]
#[tactic(auto, using(crate::proofs::TextSizes::size_in))]
fn write_elements(alloc: Global, text: &mut String, items: &Vec<Value>) -> Result<(), AllocError>
    ensures { OnOk result (string_bytes text.new ≡ string_bytes text.old ++
        elements_text 4 (vals_of items.now.items)) }
{
    let mut is_first = true;
    let mut left = FURTHER_PARTS;
    for item in items {
        if is_first {
            is_first = false;
            write_value(alloc, text, item)?;
            continue;
        }
        if left == 0 {
            return text.push_str(", .. ");
        }
        left -= 1;
        text.push_str(", ")?;
        write_value(alloc, text, item)?;
    }
    Ok(())
}

/// Writes a record of these fields.
#[cycle(write)]
pub(crate) fn write_record(
    alloc: Global,
    text: &mut String,
    fields: &BTreeMap<Text, Value>,
) -> Result<(), AllocError>
    ensures { OnOk result (string_bytes text.new ≡ string_bytes text.old ++
        value_text (rec (fields_of fields.now.entries))) }
{
    text.push_str("{")?;
    write_fields(alloc, text, fields)?;
    text.push_str("}")
}

#[cycle(write)]
fn write_fields(
    alloc: Global,
    text: &mut String,
    fields: &BTreeMap<Text, Value>,
) -> Result<(), AllocError>
    ensures { OnOk result (string_bytes text.new ≡ string_bytes text.old ++
        fields_text 4 (fields_of fields.now.entries)) }
{
    let mut is_first = true;
    let mut left = FURTHER_PARTS;
    for (key, v) in fields.iter() {
        if is_first {
            is_first = false;
            write_field(alloc, text, key, v)?;
            continue;
        }
        if left == 0 {
            return text.push_str(", .. ");
        }
        left -= 1;
        text.push_str(", ")?;
        write_field(alloc, text, key, v)?;
    }
    Ok(())
}

#[cycle(write)]
fn write_field(alloc: Global, text: &mut String, key: &Text, v: &Value) -> Result<(), AllocError>
    ensures { OnOk result (string_bytes text.new ≡ string_bytes text.old ++
        field_text key.now (value_text v.now)) }
{
    write_key(text, key)?;
    text.push_str(": ")?;
    write_value(alloc, text, v)
}

fn write_key(text: &mut String, key: &Text) -> Result<(), AllocError>
    ensures { OnOk result (string_bytes text.new ≡ string_bytes text.old ++ key_text key.now) }
{
    if is_component(key.as_str().as_bytes()) {
        text.push_str(key.as_str())
    } else {
        write_string(text, key)
    }
}

fn is_component(word: &[u8]) -> bool
    ensures { result ≡ is_component word.now }
{
    match word {
        [] => false,
        [head, ..] => is_head(*head) && are_tails(word) && word != b"__cedar".as_slice(),
    }
}

fn are_tails(word: &[u8]) -> bool
    ensures { result ≡ list_all is_tail word.now }
{
    word.iter().all(|c| is_tail(*c))
}

fn is_head(c: u8) -> bool
    ensures { result ≡ is_head c }
{
    (97 <= c && c <= 122) || ((65 <= c && c <= 90) || c == 95)
}

fn is_tail(c: u8) -> bool
    ensures { result ≡ is_tail c }
{
    is_head(c) || (48 <= c && c <= 57)
}
