// The rules that the names of a schema keep, and those of the types inside.
ghost use Rattle.std.specs.Prelude.{◌≡◌, ◌&&◌, true, false, is_some, IsTrue, MatchResult, Contains};
ghost use Rattle.std.specs.Option.{option_copied, option_map_or};
ghost use Rattle.policy_values.specs.Least.{IsLeastIfAny};
ghost use Rattle.policy_values.specs.Uid.{text_cmp, uid_cmp};
ghost use Rattle.schema_core.specs.Kinds.{is_enum};
ghost use Rattle.schema_core.specs.Outline.{HasSoundNames, HasSoundTypes, IsDeclaredActionType, IsEmptyEnum, IsNoAction, IsTypeInside, IsUndeclaredType, IsListedEnum, IsBadType, IsBadContext, IsUnknownExtension};
ghost use Rattle.schema_core.specs.Faults.{IsNameFault, IsTypeFault};
ghost use Rattle.schema_core.specs.Listing.{listed_outline, kind_found};

use crate::SchemaFault;
use crate::inside::{
    are_held, is_held_kind, undeclared_in, undeclared_in_kind, unknown_in, unknown_in_kind,
};
use crate::listing::{Kinds, Listing};
use policy_values::{EntityType, EntityUID, Name, least_outside, least_unlisted, lower};

/// The first rule about names that is broken.
pub fn check_names(listing: &Listing) -> Result<(), SchemaFault>
    ensures { MatchResult result (λ _. HasSoundNames (listed_outline listing.now))
        (IsNameFault (listed_outline listing.now)) }
{
    if let Some(name) = first_action_type(listing) {
        return Err(SchemaFault::ActionTypeDeclared(name.clone()?));
    }
    if let Some(name) = first_empty_enum(listing) {
        return Err(SchemaFault::EmptyEnum(name.clone()?));
    }
    if let Some(uid) = first_no_action(listing) {
        return Err(SchemaFault::NotAnAction(uid.clone()?));
    }
    if let Some(name) = least_undeclared(listing) {
        return Err(SchemaFault::UndeclaredType(name.clone()?));
    }
    if let Some(uid) = least_unlisted(&listing.actions) {
        return Err(SchemaFault::UndeclaredAction(uid.clone()?));
    }
    Ok(())
}

/// The first rule about types inside that is broken.
pub fn check_types(listing: &Listing) -> Result<(), SchemaFault>
    ensures { MatchResult result (λ _. HasSoundTypes (listed_outline listing.now))
        (IsTypeFault (listed_outline listing.now)) }
{
    if let Some(name) = first_bad_type(listing) {
        return Err(SchemaFault::BadType(name.clone()?));
    }
    if let Some(uid) = first_bad_context(listing) {
        return Err(SchemaFault::BadContext(uid.clone()?));
    }
    if let Some(name) = least_unknown(listing) {
        return Err(SchemaFault::UnknownExtension(name.clone()?));
    }
    Ok(())
}

// The least type that has the basename of actions.
fn first_action_type(listing: &Listing) -> Option<&EntityType>
    ensures { IsLeastIfAny text_cmp
        (IsDeclaredActionType (listed_outline listing.now)) (option_copied result) }
{
    for name in listing.types.keys() {
        if name.is_action() {
            return Some(name);
        }
    }
    None
}

// The least action whose type has another basename.
fn first_no_action(listing: &Listing) -> Option<&EntityUID>
    ensures { IsLeastIfAny uid_cmp (IsNoAction (listed_outline listing.now)) (option_copied result) }
{
    for uid in listing.actions.keys() {
        if !uid.is_action() {
            return Some(uid);
        }
    }
    None
}

// The least enumerated type that lists no id.
fn first_empty_enum(listing: &Listing) -> Option<&EntityType>
    ensures { IsLeastIfAny text_cmp (IsEmptyEnum (listed_outline listing.now)) (option_copied result) }
{
    for (name, kind) in &listing.kinds {
        if kind.is_empty_enum() {
            return Some(name);
        }
    }
    None
}

// The least type that is named and not declared.
fn least_undeclared(listing: &Listing) -> Option<&EntityType>
    ensures { IsLeastIfAny text_cmp (IsUndeclaredType (listed_outline listing.now)) (option_copied result) }
{
    let at_types = least_unlisted(&listing.types);
    let principal = least_outside(&listing.types, &listing.principals);
    let resource = least_outside(&listing.types, &listing.resources);
    let inside = undeclared_inside(listing);
    lower(lower(at_types, lower(principal, resource)), inside)
}

// The same of those that are named in types.
fn undeclared_inside(listing: &Listing) -> Option<&EntityType>
    ensures { IsLeastIfAny text_cmp
        (λ q. ((listed_outline listing.now).has_type q ≡ false) × IsTypeInside (listed_outline listing.now) q)
        (option_copied result) }
{
    let mut low = None;
    for (_, kind) in &listing.kinds {
        low = undeclared_in_kind(low, &listing.types, kind);
    }
    for (_, context) in &listing.contexts {
        low = undeclared_in(low, &listing.types, context);
    }
    low
}

/// The least enumerated type that is listed at a type.
pub fn least_listed_enum(listing: &Listing) -> Option<&EntityType>
    ensures { IsLeastIfAny text_cmp (IsListedEnum (listed_outline listing.now)) (option_copied result) }
{
    let mut low = None;
    for (_, set) in &listing.types {
        for name in set.as_set() {
            if is_enum_at(&listing.kinds, name) {
                low = lower(low, Some(name));
            }
        }
    }
    low
}

// Whether the type is enumerated.
fn is_enum_at(kinds: &Kinds, name: &EntityType) -> bool
    ensures { result ≡ option_map_or is_enum (kind_found kinds.now.entries name.now) false }
{
    match kinds.get(name) {
        Some(kind) => kind.is_enum(),
        None => false,
    }
}

// The least type whose attributes or tags hold a type that no schema holds.
fn first_bad_type(listing: &Listing) -> Option<&EntityType>
    ensures { IsLeastIfAny text_cmp (IsBadType (listed_outline listing.now)) (option_copied result) }
{
    for (name, kind) in &listing.kinds {
        if !is_held_kind(kind) {
            return Some(name);
        }
    }
    None
}

// The least action whose context holds such a type.
fn first_bad_context(listing: &Listing) -> Option<&EntityUID>
    ensures { IsLeastIfAny uid_cmp (IsBadContext (listed_outline listing.now)) (option_copied result) }
{
    for (uid, context) in &listing.contexts {
        if !are_held(context) {
            return Some(uid);
        }
    }
    None
}

// The least extension type that is named and that there is not.
fn least_unknown(listing: &Listing) -> Option<&Name>
    ensures { IsLeastIfAny text_cmp (IsUnknownExtension (listed_outline listing.now)) (option_copied result) }
{
    let mut low = None;
    for (_, kind) in &listing.kinds {
        low = unknown_in_kind(low, kind);
    }
    for (_, context) in &listing.contexts {
        low = unknown_in(low, context);
    }
    low
}
