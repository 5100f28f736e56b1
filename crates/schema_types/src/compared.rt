//! Types are compared and hashed as their plain trees.

use crate::hash::{feed, feed_attributes};
use crate::order::{compare, compare_attributes};
use crate::{Attributes, Type};
use std::cmp::Ordering;
use std::hash::{Hash, Hasher};

impl PartialEq for Type {
    ghost use Rattle.std.specs.Ordering.{is_eq};
    ghost use Rattle.std.specs.Cmp.{partial_equiv_from_equiv};
    ghost use Rattle.std.proofs.lemmas.Cmp.{eq_by_cmp_equiv};
    ghost use Rattle.schema_types.specs.TyOrder.{ty_cmp};
    ghost use Rattle.schema_types.specs.TyLaws.{ty_cmp_total};

    ghost eq = { λ a b. is_eq (ty_cmp a b) };

    ghost laws = { partial_equiv_from_equiv (eq_by_cmp_equiv ty_cmp_total) };

    fn eq(&self, other: &Type) -> bool {
        compare(self, other) == Ordering::Equal
    }
}

impl Eq for Type {
    ghost use Rattle.std.proofs.lemmas.Cmp.{eq_by_cmp_equiv};
    ghost use Rattle.schema_types.specs.TyLaws.{ty_cmp_total};

    ghost laws = { eq_by_cmp_equiv ty_cmp_total };
}

impl Ord for Type {
    ghost use Rattle.std.specs.Ordering.{is_eq, as_partial_cmp};
    ghost use Rattle.std.proofs.Common.{refl};
    ghost use Rattle.schema_types.specs.TyOrder.{ty_cmp};
    ghost use Rattle.schema_types.specs.TyLaws.{ty_cmp_total};

    ghost cmp = { ty_cmp };

    ghost total = { ty_cmp_total };

    ghost matches_partial_cmp = { λ a b. refl };

    ghost matches_eq = { λ a b. refl };

    fn cmp(&self, other: &Type) -> Ordering {
        compare(self, other)
    }
}

impl PartialOrd for Type {
    ghost use Rattle.std.specs.Ordering.{as_partial_cmp};
    ghost use Rattle.std.specs.Cmp.{partial_order_from_total};
    ghost use Rattle.schema_types.specs.TyOrder.{ty_cmp};
    ghost use Rattle.schema_types.specs.TyLaws.{ty_cmp_total};

    ghost partial_cmp = { as_partial_cmp ty_cmp };

    ghost laws = { partial_order_from_total ty_cmp_total };

    fn partial_cmp(&self, other: &Type) -> Option<Ordering> {
        Some(compare(self, other))
    }
}

impl PartialEq for Attributes {
    ghost use Rattle.std.specs.Ordering.{is_eq};
    ghost use Rattle.std.specs.Cmp.{partial_equiv_from_equiv};
    ghost use Rattle.std.proofs.lemmas.Cmp.{eq_by_cmp_equiv};
    ghost use Rattle.schema_types.specs.TyOrder.{attrs_cmp};
    ghost use Rattle.schema_types.specs.TyLaws.{attrs_cmp_total};

    ghost eq = { λ a b. is_eq (attrs_cmp a b) };

    ghost laws = { partial_equiv_from_equiv (eq_by_cmp_equiv attrs_cmp_total) };

    fn eq(&self, other: &Attributes) -> bool {
        compare_attributes(self, other) == Ordering::Equal
    }
}

impl Eq for Attributes {
    ghost use Rattle.std.proofs.lemmas.Cmp.{eq_by_cmp_equiv};
    ghost use Rattle.schema_types.specs.TyLaws.{attrs_cmp_total};

    ghost laws = { eq_by_cmp_equiv attrs_cmp_total };
}

impl Ord for Attributes {
    ghost use Rattle.std.specs.Ordering.{is_eq, as_partial_cmp};
    ghost use Rattle.std.proofs.Common.{refl};
    ghost use Rattle.schema_types.specs.TyOrder.{attrs_cmp};
    ghost use Rattle.schema_types.specs.TyLaws.{attrs_cmp_total};

    ghost cmp = { attrs_cmp };

    ghost total = { attrs_cmp_total };

    ghost matches_partial_cmp = { λ a b. refl };

    ghost matches_eq = { λ a b. refl };

    fn cmp(&self, other: &Attributes) -> Ordering {
        compare_attributes(self, other)
    }
}

impl PartialOrd for Attributes {
    ghost use Rattle.std.specs.Ordering.{as_partial_cmp};
    ghost use Rattle.std.specs.Cmp.{partial_order_from_total};
    ghost use Rattle.schema_types.specs.TyOrder.{attrs_cmp};
    ghost use Rattle.schema_types.specs.TyLaws.{attrs_cmp_total};

    ghost partial_cmp = { as_partial_cmp attrs_cmp };

    ghost laws = { partial_order_from_total attrs_cmp_total };

    fn partial_cmp(&self, other: &Attributes) -> Option<Ordering> {
        Some(compare_attributes(self, other))
    }
}

impl Hash for Type {
    ghost use Rattle.schema_types.specs.TyHash.{ty_fed};
    ghost use Rattle.schema_types.specs.HashLaws.{alike_ty};

    ghost hash_input = { ty_fed };

    ghost respects_eq = { alike_ty };

    fn hash<H: Hasher>(&self, state: &mut H) {
        feed(self, state);
    }
}

impl Hash for Attributes {
    ghost use Rattle.schema_types.specs.TyHash.{attrs_fed};
    ghost use Rattle.schema_types.specs.HashLaws.{alike_attrs};

    ghost hash_input = { attrs_fed };

    ghost respects_eq = { alike_attrs };

    fn hash<H: Hasher>(&self, state: &mut H) {
        feed_attributes(self, state);
    }
}
