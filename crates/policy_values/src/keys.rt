//! Texts, types and ids are keys: values that compare equal are equal.

ghost use Rattle.std.proofs.lemmas.Map.Lookups.{exact_bytes};
ghost use Rattle.policy_values.specs.Uid.{exact_uid, copied_uid};

use crate::{EntityType, EntityUID, Key, Text};

impl Key for Text {
    ghost exact = { exact_bytes };

    ghost copies = { λ x y h. h };
}

impl Key for EntityType {
    ghost exact = { exact_bytes };

    ghost copies = { λ x y h. h };
}

impl Key for EntityUID {
    ghost exact = { exact_uid };

    ghost copies = { copied_uid };
}
