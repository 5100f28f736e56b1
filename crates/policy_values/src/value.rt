//! Values and their total order.

ghost use Rattle.std.specs.Prelude.{◌≡◌, IfOk};
ghost use Rattle.policy_values.specs.Sets.{elements_of, is_element};
ghost use Rattle.policy_values.specs.ValueView.{val_of};
ghost use Rattle.policy_values.specs.Value.{Val, truth, long, string, entity, set, rec, decimal, ip, datetime, duration, vals_of, fields_of};
ghost use Rattle.policy_values.specs.RangeOrder.{range_cmp};
ghost use Rattle.policy_values.specs.ValueOrder.{rank, val_cmp, vals_cmp, fields_cmp, set_of, Ascends, IsInOrder};

use crate::ascending::ascending_values;
use crate::{EntityUID, Text, push_entry};
use policy_ext::{DateTimeValue, Decimal, Duration, IpAddr};
use std::alloc::{AllocError, Global};
use std::cmp::Ordering;
use std::collections::BTreeMap;
use std::marker::Model;

/// A value. What is equal in Cedar is equal here: a set has no order and no repeats, so its elements are kept
/// ascending, each once.
///
/// Values are ordered by kind (booleans, longs, strings, ids, sets, records, decimals, ranges of IP
/// addresses, datetimes, durations), and inside a kind by content: texts by their bytes, ids by type and then
/// by eid, sets and records as the lists of their elements and of their fields, ranges by family, address
/// and prefix.
#[derive(Debug)]
#[cycle(value)]
pub struct Value {
    kind: ValueKind,
}

impl Drop for Value {
    #[cycle(value_drops)]
    fn drop(self) {
        let Value { kind } = self;
        drop(kind);
    }
}

/// What a value is.
#[derive(Debug, Drop)]
#[cycle(value)]
pub enum ValueKind {
    /// A truth value.
    Bool(bool),
    /// A whole number of 64 bits.
    Long(i64),
    /// A text.
    String(Text),
    /// The id of an entity, whether or not a store holds it.
    EntityUID(EntityUID),
    /// The elements of a set, ascending, each once.
    Set(Vec<Value>),
    /// The fields of a record under their keys.
    Record(BTreeMap<Text, Value>),
    /// A decimal.
    Decimal(Decimal),
    /// A range of IP addresses.
    IpAddr(IpAddr),
    /// A point in time.
    DateTime(DateTimeValue),
    /// A span of time.
    Duration(Duration),
}

impl Model for Value {
    ghost use Rattle.policy_values.specs.Value.{Val};
    ghost use Rattle.policy_values.specs.ValueCode.{coded_val};

    ghost Value = { Val };

    ghost coded = { coded_val };

    ghost use Rattle.policy_values.specs.ValueView.{val_of};

    ghost view = { λ a. val_of a.kind };

    ghost use Rattle.policy_values.specs.ValueOrder.{IsInOrder};

    ghost invariant = { λ a. IsInOrder (val_of a.kind) };

    ghost use Rattle.policy_values.specs.Value.{size_of};

    ghost size = { size_of };

    ghost use Rattle.policy_values.specs.ValueFalls.{falls};

    ghost size_decreases = { λ a h. falls a };
}

impl Value {
    /// A boolean.
    pub fn bool(b: bool) -> Value
        ensures { result ≡ truth b }
    {
        Value {
            kind: ValueKind::Bool(b),
        }
    }

    /// A long.
    pub fn long(n: i64) -> Value
        ensures { result ≡ long n }
    {
        Value {
            kind: ValueKind::Long(n),
        }
    }

    /// A string.
    pub fn string(text: Text) -> Value
        ensures { result ≡ string text }
    {
        Value {
            kind: ValueKind::String(text),
        }
    }

    /// The id of an entity.
    pub fn entity_uid(uid: EntityUID) -> Value
        ensures { result ≡ entity uid }
    {
        Value {
            kind: ValueKind::EntityUID(uid),
        }
    }

    /// The set of the elements of a list, whatever their order; repeats are kept once.
    pub fn set(items: Vec<Value>) -> Value
        ensures { result ≡ set (set_of items.items) }
    {
        Value {
            kind: ValueKind::Set(ascending_values(items)),
        }
    }

    /// The record of the fields of a map.
    pub fn record(fields: BTreeMap<Text, Value>) -> Value
        ensures { result ≡ rec (fields_of fields.entries) }
    {
        let _count = fields.len();
        Value {
            kind: ValueKind::Record(fields),
        }
    }

    /// A decimal.
    pub fn decimal(d: Decimal) -> Value
        ensures { result ≡ decimal d }
    {
        Value {
            kind: ValueKind::Decimal(d),
        }
    }

    /// A range of IP addresses.
    pub fn ip(range: IpAddr) -> Value
        ensures { result ≡ ip range }
    {
        Value {
            kind: ValueKind::IpAddr(range),
        }
    }

    /// A point in time.
    pub fn datetime(d: DateTimeValue) -> Value
        ensures { result ≡ datetime d }
    {
        Value {
            kind: ValueKind::DateTime(d),
        }
    }

    /// A span of time.
    pub fn duration(d: Duration) -> Value
        ensures { result ≡ duration d }
    {
        Value {
            kind: ValueKind::Duration(d),
        }
    }

    /// An equal value.
    pub fn try_clone(&self, alloc: Global) -> Result<Value, AllocError>
        ensures { IfOk result (λ v. v ≡ self.now) }
    {
        copy_of(alloc, self)
    }

    /// What the value is. The elements of a set ascend, and so do the keys of a record.
    pub fn kind(&self) -> &ValueKind
        ensures content { val_of result.now ≡ self.now }
        ensures in_order { IsInOrder self.now }
    {
        &self.kind
    }

    /// Whether the value is a set that has the element.
    pub fn has_element(&self, element: &Value) -> bool
        ensures { result ≡ is_element element.now (elements_of self.now) }
    {
        match &self.kind {
            ValueKind::Set(items) => is_among(items, element),
            _ => false,
        }
    }
}

impl PartialEq for Value {
    ghost use Rattle.std.specs.Ordering.{is_eq};
    ghost use Rattle.std.specs.Cmp.{partial_equiv_from_equiv};
    ghost use Rattle.std.proofs.lemmas.Cmp.{eq_by_cmp_equiv};
    ghost use Rattle.policy_values.specs.ValueOrder.{val_cmp};
    ghost use Rattle.policy_values.specs.ValueLaws.{val_cmp_total};

    ghost eq = { λ a b. is_eq (val_cmp a b) };

    ghost laws = { partial_equiv_from_equiv (eq_by_cmp_equiv val_cmp_total) };

    fn eq(&self, other: &Value) -> bool {
        compare(self, other) == Ordering::Equal
    }
}

impl Eq for Value {
    ghost use Rattle.std.proofs.lemmas.Cmp.{eq_by_cmp_equiv};
    ghost use Rattle.policy_values.specs.ValueLaws.{val_cmp_total};

    ghost laws = { eq_by_cmp_equiv val_cmp_total };
}

impl Ord for Value {
    ghost use Rattle.std.specs.Ordering.{is_eq, as_partial_cmp};
    ghost use Rattle.std.proofs.Common.{refl};
    ghost use Rattle.policy_values.specs.ValueOrder.{val_cmp};
    ghost use Rattle.policy_values.specs.ValueLaws.{val_cmp_total};

    ghost cmp = { val_cmp };

    ghost total = { val_cmp_total };

    ghost matches_partial_cmp = { λ a b. refl };

    ghost matches_eq = { λ a b. refl };

    fn cmp(&self, other: &Value) -> Ordering {
        compare(self, other)
    }
}

impl PartialOrd for Value {
    ghost use Rattle.std.specs.Ordering.{as_partial_cmp};
    ghost use Rattle.std.specs.Cmp.{partial_order_from_total};
    ghost use Rattle.policy_values.specs.ValueOrder.{val_cmp};
    ghost use Rattle.policy_values.specs.ValueLaws.{val_cmp_total};

    ghost partial_cmp = { as_partial_cmp val_cmp };

    ghost laws = { partial_order_from_total val_cmp_total };

    fn partial_cmp(&self, other: &Value) -> Option<Ordering> {
        Some(compare(self, other))
    }
}

// Whether a value is among those of an ascending list.
fn is_among(items: &Vec<Value>, element: &Value) -> bool
    requires { Ascends (vals_of items.now.items) }
    ensures { result ≡ is_element element.now (vals_of items.now.items) }
{
    match items.binary_search(element) {
        Ok(_) => true,
        Err(_) => false,
    }
}

// The place of a value's kind.
fn rank(v: &Value) -> u8
    ensures { result ≡ rank v.now }
{
    match &v.kind {
        ValueKind::Bool(_) => 0,
        ValueKind::Long(_) => 1,
        ValueKind::String(_) => 2,
        ValueKind::EntityUID(_) => 3,
        ValueKind::Set(_) => 4,
        ValueKind::Record(_) => 5,
        ValueKind::Decimal(_) => 6,
        ValueKind::IpAddr(_) => 7,
        ValueKind::DateTime(_) => 8,
        ValueKind::Duration(_) => 9,
    }
}

fn compare_ranges(a: &IpAddr, b: &IpAddr) -> Ordering
    ensures { result ≡ range_cmp a.now b.now }
{
    a.cmp(b)
}

#[cycle(compare)]
fn compare(a: &Value, b: &Value) -> Ordering
    ensures { result ≡ val_cmp a.now b.now }
{
    match (&a.kind, &b.kind) {
        (ValueKind::Bool(x), ValueKind::Bool(y)) => x.cmp(y),
        (ValueKind::Long(x), ValueKind::Long(y)) => x.cmp(y),
        (ValueKind::String(x), ValueKind::String(y)) => x.cmp(y),
        (ValueKind::EntityUID(x), ValueKind::EntityUID(y)) => x.cmp(y),
        (ValueKind::Set(x), ValueKind::Set(y)) => compare_all(x, y),
        (ValueKind::Record(x), ValueKind::Record(y)) => compare_fields(x, y),
        (ValueKind::Decimal(x), ValueKind::Decimal(y)) => x.cmp(y),
        (ValueKind::IpAddr(x), ValueKind::IpAddr(y)) => compare_ranges(x, y),
        (ValueKind::DateTime(x), ValueKind::DateTime(y)) => x.cmp(y),
        (ValueKind::Duration(x), ValueKind::Duration(y)) => x.cmp(y),
        _ => rank(a).cmp(&rank(b)),
    }
}

#[cycle(compare)]
fn compare_all(a: &Vec<Value>, b: &Vec<Value>) -> Ordering
    ensures { result ≡ vals_cmp (vals_of a.now.items) (vals_of b.now.items) }
{
    for (i, x) in a.iter().enumerate() {
        if i >= b.len() {
            return Ordering::Greater;
        }
        let first = compare(x, &b[i]);
        if first != Ordering::Equal {
            return first;
        }
    }
    if a.len() < b.len() {
        Ordering::Less
    } else {
        Ordering::Equal
    }
}

#[cycle(compare)]
fn compare_fields(a: &BTreeMap<Text, Value>, b: &BTreeMap<Text, Value>) -> Ordering
    ensures { result ≡ fields_cmp (fields_of a.now.entries) (fields_of b.now.entries) }
{
    let mut rest = b.iter();
    for (key, x) in a.iter() {
        match rest.next() {
            None => return Ordering::Greater,
            Some((other, y)) => {
                let first = key.cmp(other).then(compare(x, y));
                if first != Ordering::Equal {
                    return first;
                }
            }
        }
    }
    match rest.next() {
        None => Ordering::Equal,
        Some(_) => Ordering::Less,
    }
}

// The same value around a copy of what it holds.
fn like(v: &Value, kind: ValueKind) -> Value
    requires { val_of kind ≡ v.now }
    ensures { result ≡ v.now }
{
    let _kind = &v.kind;
    Value { kind }
}

#[cycle(copy)]
fn copy_of(alloc: Global, v: &Value) -> Result<Value, AllocError>
    ensures { IfOk result (λ copy. copy ≡ v.now) }
{
    match &v.kind {
        ValueKind::Bool(b) => Ok(Value::bool(*b)),
        ValueKind::Long(n) => Ok(Value::long(*n)),
        ValueKind::String(text) => Ok(Value::string(text.try_clone()?)),
        ValueKind::EntityUID(uid) => Ok(Value::entity_uid(uid.try_clone()?)),
        ValueKind::Set(items) => {
            let items = copy_of_all(alloc, items)?;
            Ok(like(v, ValueKind::Set(items)))
        }
        ValueKind::Record(fields) => {
            let fields = try_clone_fields(alloc, fields)?;
            Ok(like(v, ValueKind::Record(fields)))
        }
        ValueKind::Decimal(d) => Ok(Value::decimal(*d)),
        ValueKind::IpAddr(range) => Ok(Value::ip(*range)),
        ValueKind::DateTime(d) => Ok(Value::datetime(*d)),
        ValueKind::Duration(d) => Ok(Value::duration(*d)),
    }
}

#[cycle(copy)]
fn copy_of_all(alloc: Global, items: &Vec<Value>) -> Result<Vec<Value>, AllocError>
    ensures { IfOk result (λ copies. copies.items ≡ items.now.items) }
{
    let mut copies = Vec::new(alloc);
    for item in items {
        copies.push(copy_of(alloc, item)?)?;
    }
    Ok(copies)
}

/// An equal map of fields.
#[cycle(copy)]
pub fn try_clone_fields(
    alloc: Global,
    fields: &BTreeMap<Text, Value>,
) -> Result<BTreeMap<Text, Value>, AllocError>
    ensures { IfOk result (λ copies. copies.entries ≡ fields.now.entries) }
{
    let mut copies = BTreeMap::new(alloc);
    for (name, item) in fields.iter() {
        let name = name.try_clone()?;
        let item = copy_of(alloc, item)?;
        push_entry(&mut copies, name, item)?;
    }
    Ok(copies)
}
