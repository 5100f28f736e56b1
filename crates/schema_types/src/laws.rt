//! Laws of types.

ghost use Rattle.schema_types.specs.Laws.{OrderIsExact, AttributeOrderIsExact, HashAgrees, AttributeHashAgrees};

/// Types that compare equal are the same type, and only these do.
pub fn order_is_exact()
    ensures { OrderIsExact }
{}

/// Attributes that compare equal are the same, and only these do.
pub fn attribute_order_is_exact()
    ensures { AttributeOrderIsExact }
{}

/// Types that are equal have the same hash.
pub fn hash_agrees()
    ensures { HashAgrees }
{}

/// Attributes that are equal have the same hash.
pub fn attribute_hash_agrees()
    ensures { AttributeHashAgrees }
{}
