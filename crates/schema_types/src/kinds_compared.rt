//! Kinds of types are compared and hashed as the types that are of them.

use crate::hash::{feed_kind, feed_type_kind};
use crate::order::{compare_kinds, compare_type_kinds};
use crate::{EntityRecordKind, TypeKind};
use std::cmp::Ordering;
use std::hash::{Hash, Hasher};

impl PartialEq for TypeKind {
    ghost use Rattle.std.specs.Ordering.{is_eq};
    ghost use Rattle.std.specs.Cmp.{partial_equiv_from_equiv};
    ghost use Rattle.std.proofs.lemmas.Cmp.{eq_by_cmp_equiv};
    ghost use Rattle.schema_types.specs.KindOrder.{type_kind_cmp, type_kind_cmp_total};

    ghost eq = { λ j k. is_eq (type_kind_cmp j k) };

    ghost laws = { partial_equiv_from_equiv (eq_by_cmp_equiv type_kind_cmp_total) };

    fn eq(&self, other: &TypeKind) -> bool {
        compare_type_kinds(self, other) == Ordering::Equal
    }
}

impl Eq for TypeKind {
    ghost use Rattle.std.proofs.lemmas.Cmp.{eq_by_cmp_equiv};
    ghost use Rattle.schema_types.specs.KindOrder.{type_kind_cmp_total};

    ghost laws = { eq_by_cmp_equiv type_kind_cmp_total };
}

impl Ord for TypeKind {
    ghost use Rattle.std.specs.Ordering.{is_eq, as_partial_cmp};
    ghost use Rattle.std.proofs.Common.{refl};
    ghost use Rattle.schema_types.specs.KindOrder.{type_kind_cmp, type_kind_cmp_total};

    ghost cmp = { type_kind_cmp };

    ghost total = { type_kind_cmp_total };

    ghost matches_partial_cmp = { λ j k. refl };

    ghost matches_eq = { λ j k. refl };

    fn cmp(&self, other: &TypeKind) -> Ordering {
        compare_type_kinds(self, other)
    }
}

impl PartialOrd for TypeKind {
    ghost use Rattle.std.specs.Ordering.{as_partial_cmp};
    ghost use Rattle.std.specs.Cmp.{partial_order_from_total};
    ghost use Rattle.schema_types.specs.KindOrder.{type_kind_cmp, type_kind_cmp_total};

    ghost partial_cmp = { as_partial_cmp type_kind_cmp };

    ghost laws = { partial_order_from_total type_kind_cmp_total };

    fn partial_cmp(&self, other: &TypeKind) -> Option<Ordering> {
        Some(compare_type_kinds(self, other))
    }
}

impl Hash for TypeKind {
    ghost use Rattle.schema_types.specs.KindOrder.{type_kind_fed, alike_type_kind};

    ghost hash_input = { type_kind_fed };

    ghost respects_eq = { alike_type_kind };

    fn hash<H: Hasher>(&self, state: &mut H) {
        feed_type_kind(self, state);
    }
}

impl PartialEq for EntityRecordKind {
    ghost use Rattle.std.specs.Ordering.{is_eq};
    ghost use Rattle.std.specs.Cmp.{partial_equiv_from_equiv};
    ghost use Rattle.std.proofs.lemmas.Cmp.{eq_by_cmp_equiv};
    ghost use Rattle.schema_types.specs.KindOrder.{kind_cmp, kind_cmp_total};

    ghost eq = { λ j k. is_eq (kind_cmp j k) };

    ghost laws = { partial_equiv_from_equiv (eq_by_cmp_equiv kind_cmp_total) };

    fn eq(&self, other: &EntityRecordKind) -> bool {
        compare_kinds(self, other) == Ordering::Equal
    }
}

impl Eq for EntityRecordKind {
    ghost use Rattle.std.proofs.lemmas.Cmp.{eq_by_cmp_equiv};
    ghost use Rattle.schema_types.specs.KindOrder.{kind_cmp_total};

    ghost laws = { eq_by_cmp_equiv kind_cmp_total };
}

impl Ord for EntityRecordKind {
    ghost use Rattle.std.specs.Ordering.{is_eq, as_partial_cmp};
    ghost use Rattle.std.proofs.Common.{refl};
    ghost use Rattle.schema_types.specs.KindOrder.{kind_cmp, kind_cmp_total};

    ghost cmp = { kind_cmp };

    ghost total = { kind_cmp_total };

    ghost matches_partial_cmp = { λ j k. refl };

    ghost matches_eq = { λ j k. refl };

    fn cmp(&self, other: &EntityRecordKind) -> Ordering {
        compare_kinds(self, other)
    }
}

impl PartialOrd for EntityRecordKind {
    ghost use Rattle.std.specs.Ordering.{as_partial_cmp};
    ghost use Rattle.std.specs.Cmp.{partial_order_from_total};
    ghost use Rattle.schema_types.specs.KindOrder.{kind_cmp, kind_cmp_total};

    ghost partial_cmp = { as_partial_cmp kind_cmp };

    ghost laws = { partial_order_from_total kind_cmp_total };

    fn partial_cmp(&self, other: &EntityRecordKind) -> Option<Ordering> {
        Some(compare_kinds(self, other))
    }
}

impl Hash for EntityRecordKind {
    ghost use Rattle.schema_types.specs.KindOrder.{kind_fed, alike_kind};

    ghost hash_input = { kind_fed };

    ghost respects_eq = { alike_kind };

    fn hash<H: Hasher>(&self, state: &mut H) {
        feed_kind(self, state);
    }
}
