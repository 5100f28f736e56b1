//! The hash of values.

ghost use Rattle.std.specs.Prelude.{◌≡◌, fold};
ghost use Rattle.policy_values.specs.Value.{vals_of, fields_of};
ghost use Rattle.policy_values.specs.ValueHash.{val_fed, vals_fed, fields_fed};

use crate::{Text, Value, ValueKind};
use std::collections::BTreeMap;
use std::hash::{Hash, Hasher};

impl Hash for Value {
    ghost use Rattle.policy_values.specs.ValueHash.{val_fed, alike_val};

    ghost hash_input = { val_fed };

    ghost respects_eq = { alike_val };

    fn hash<H: Hasher>(&self, state: &mut H) {
        feed(self, state);
    }
}

#[cycle(feed)]
#[tactic(auto, using(crate::proofs::HashSteps::fold_both))]
fn feed<H: Hasher>(v: &Value, state: &mut H)
    ensures { state.new ≡ fold H.write state.old (val_fed v.now) }
{
    match v.kind() {
        ValueKind::Bool(b) => {
            state.write_u8(0);
            b.hash(state);
        }
        ValueKind::Long(n) => {
            state.write_u8(1);
            n.hash(state);
        }
        ValueKind::String(text) => {
            state.write_u8(2);
            text.hash(state);
        }
        ValueKind::EntityUID(uid) => {
            state.write_u8(3);
            uid.hash(state);
        }
        ValueKind::Set(items) => {
            state.write_u8(4);
            feed_all(items, state);
        }
        ValueKind::Record(fields) => {
            state.write_u8(5);
            feed_fields(fields, state);
        }
        ValueKind::Decimal(d) => {
            state.write_u8(6);
            d.hash(state);
        }
        ValueKind::IpAddr(range) => {
            state.write_u8(7);
            range.hash(state);
        }
        ValueKind::DateTime(d) => {
            state.write_u8(8);
            d.hash(state);
        }
        ValueKind::Duration(d) => {
            state.write_u8(9);
            d.hash(state);
        }
    }
}

#[cycle(feed)]
#[tactic(auto, using(crate::proofs::HashSteps::fold_both))]
fn feed_all<H: Hasher>(items: &Vec<Value>, state: &mut H)
    ensures { state.new ≡ fold H.write state.old (vals_fed (vals_of items.now.items)) }
{
    for item in items {
        state.write_u8(1);
        feed(item, state);
    }
    state.write_u8(0);
}

#[cycle(feed)]
#[tactic(auto, using(crate::proofs::HashSteps::fold_both))]
fn feed_fields<H: Hasher>(fields: &BTreeMap<Text, Value>, state: &mut H)
    ensures { state.new ≡ fold H.write state.old (fields_fed (fields_of fields.now.entries)) }
{
    for (key, item) in fields.iter() {
        state.write_u8(1);
        key.hash(state);
        feed(item, state);
    }
    state.write_u8(0);
}
