//! The hash of types.

ghost use Rattle.std.specs.Prelude.{◌≡◌, ◌++◌, fold};
ghost use Rattle.std.specs.Hash as fed;
ghost use Rattle.schema_types.specs.TyView.{ty_of, kind_of, attrs_of};
ghost use Rattle.schema_types.specs.TyOrder.{place_of, open_place, rank};
ghost use Rattle.schema_types.specs.TyHash.{ty_fed, attrs_fed};

use crate::order::{open_place, place_of};
use crate::{Attributes, EntityRecordKind, Type, TypeKind};
use std::hash::{Hash, Hasher};

#[cycle(feed)]
#[tactic(auto, using(policy_values::proofs::HashSteps::fold_both))]
pub fn feed<H: Hasher>(t: &Type, state: &mut H)
    ensures { state.new ≡ fold H.write state.old (ty_fed t.now) }
{
    feed_type_kind(t.kind(), state);
}

#[cycle(feed)]
#[tactic(auto, using(policy_values::proofs::HashSteps::fold_both))]
pub fn feed_type_kind<H: Hasher>(k: &TypeKind, state: &mut H)
    ensures { state.new ≡ fold H.write state.old (ty_fed (ty_of k.now)) }
{
    match k {
        TypeKind::Never => state.write_u8(0),
        TypeKind::True => state.write_u8(1),
        TypeKind::False => state.write_u8(2),
        TypeKind::Primitive { primitive_type } => {
            state.write_u8(3);
            state.write_u8(place_of(*primitive_type));
        }
        TypeKind::Set { element_type: None } => state.write_u8(4),
        TypeKind::Set {
            element_type: Some(element),
        } => {
            state.write_u8(5);
            feed(element, state);
        }
        TypeKind::EntityOrRecord(kind) => feed_kind(kind, state),
        TypeKind::ExtensionType { name } => {
            state.write_u8(10);
            name.hash(state);
        }
    }
}

#[cycle(feed)]
#[tactic(auto, using(policy_values::proofs::HashSteps::fold_both))]
pub fn feed_kind<H: Hasher>(k: &EntityRecordKind, state: &mut H)
    ensures { state.new ≡ fold H.write state.old (ty_fed (kind_of k.now)) }
{
    match k {
        EntityRecordKind::Record {
            attrs,
            open_attributes,
        } => {
            state.write_u8(6);
            feed_attributes(attrs, state);
            state.write_u8(open_place(*open_attributes));
        }
        EntityRecordKind::AnyEntity => state.write_u8(7),
        EntityRecordKind::Entity(lub) => {
            state.write_u8(8);
            lub.hash(state);
        }
        EntityRecordKind::ActionEntity { name, attrs } => {
            state.write_u8(9);
            name.hash(state);
            feed_attributes(attrs, state);
        }
    }
}

#[cycle(feed)]
#[tactic(auto, using(policy_values::proofs::HashSteps::fold_both))]
pub fn feed_attributes<H: Hasher>(a: &Attributes, state: &mut H)
    ensures { state.new ≡ fold H.write state.old (attrs_fed a.now) }
{
    for (key, x) in a.entries().iter() {
        state.write_u8(1);
        key.hash(state);
        feed(&x.attr_type, state);
        x.is_required.hash(state);
    }
    state.write_u8(0);
}
