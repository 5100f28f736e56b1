//! Attributes made of a map, and gone through.

ghost use Rattle.std.specs.Prelude.{◌≡◌, IfOk};
ghost use Rattle.schema_types.specs.Ty.{record_of};
ghost use Rattle.schema_types.specs.Required.{required_attrs};

use crate::{AttributeType, Attributes, OpenTag, Type};
use policy_values::{Text, push_entry};
use std::alloc::{AllocError, Global};
use std::collections::{BTreeMap, btree_map};

impl Type {
    /// The type of records whose attributes have the types of a map and have to be there.
    pub fn record_with_required_attributes(
        alloc: Global,
        attrs: BTreeMap<Text, Type>,
        open_attributes: OpenTag,
    ) -> Result<Type, AllocError>
        ensures { IfOk result (λ t. t ≡ record_of (required_attrs attrs.entries) open_attributes) }
    {
        let attrs = Attributes::with_required_attributes(alloc, attrs)?;
        Ok(Type::record(attrs, open_attributes))
    }
}

impl Attributes {
    /// The attributes of the types of a map. All of them have to be there.
    pub fn with_required_attributes(
        alloc: Global,
        attrs: BTreeMap<Text, Type>,
    ) -> Result<Attributes, AllocError>
        ensures { IfOk result (λ a. a ≡ required_attrs attrs.entries) }
    {
        let mut made = BTreeMap::new(alloc);
        for (key, attr_type) in attrs {
            push_entry(&mut made, key, AttributeType::required_attribute(attr_type))?;
        }
        Attributes::with_attributes(alloc, made)
    }
}

impl<'a> IntoIterator for &'a Attributes {
    ghost use Rattle.schema_types.specs.TyView.{attrs_of};

    type Item = (&'a Text, &'a AttributeType);

    type IntoIter = btree_map::Iter<'a, Text, AttributeType>;

    ghost into_iter_gives = { λ a entries. attrs_of entries ≡ a.now };

    fn into_iter(self) -> btree_map::Iter<'a, Text, AttributeType> {
        self.iter()
    }
}
