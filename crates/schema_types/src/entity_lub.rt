//! Unions of entity types.

ghost use Rattle.std.specs.Prelude.{◌≡◌, ◌↔◌, ◌∷◌, [], IfOk, IsTrue, option_copied};
ghost use Rattle.std.specs.List.Sorted.{IsStrictlySortedBy};
ghost use Rattle.policy_values.specs.Uid.{text_cmp};
ghost use Rattle.schema_types.specs.Names.{texts_cmp, has_name, AreAmong, AreApart, union, only_name};

use policy_values::EntityType;
use std::alloc::{AllocError, Global};
use std::cmp::Ordering;
use std::collections::{BTreeSet, btree_set};
use std::hash::{Hash, Hasher};
use std::marker::Model;
use std::rc::Rc;

/// One or more entity types: the type of the entities of any of them. They are kept ascending, each once.
/// A copy shares them.
#[derive(Debug)]
pub struct EntityLUB {
    lub_elements: Rc<BTreeSet<EntityType>>,
}

impl Drop for EntityLUB {
    fn drop(self) {
        let EntityLUB { lub_elements } = self;
        drop(lub_elements);
    }
}

impl Model for EntityLUB {
    ghost use Rattle.std.specs.Prelude.{List, ℕ};

    ghost Value = { List (List ℕ) };

    ghost view = { λ l. l.lub_elements.value.keys };

    ghost use Rattle.std.specs.BTreeSet.{IsOrdered};
    ghost use Rattle.policy_values.specs.Uid.{text_cmp};

    ghost invariant = { λ l. IsOrdered text_cmp l.lub_elements.value };
}

impl EntityLUB {
    /// The union of one type alone.
    pub fn single_entity(alloc: Global, entity_type: EntityType) -> Result<EntityLUB, AllocError>
        ensures { IfOk result (λ l. l ≡ entity_type ∷ []) }
    {
        let mut names = BTreeSet::new(alloc);
        names.insert(entity_type)?;
        let lub_elements = Rc::new(alloc, names)?;
        Ok(EntityLUB { lub_elements })
    }

    /// The type, where it is one alone.
    pub fn get_single_entity(&self) -> Option<&EntityType>
        ensures { option_copied result ≡ only_name self.now }
    {
        let mut names = self.iter();
        let first = names.next();
        match names.next() {
            Some(_) => None,
            None => first,
        }
    }

    /// The type, where it is one alone.
    pub fn into_single_entity(self) -> Result<Option<EntityType>, AllocError>
        ensures { IfOk result (λ name. name ≡ only_name self) }
    {
        match self.get_single_entity() {
            Some(entity_type) => Ok(Some(entity_type.try_clone()?)),
            None => Ok(None),
        }
    }

    /// Whether the type is among the types.
    pub fn contains(&self, entity_type: &EntityType) -> bool
        ensures { result ≡ has_name self.now entity_type.now }
    {
        self.lub_elements.as_ref().contains(entity_type)
    }

    /// The types, ascending.
    pub fn iter(&self) -> btree_set::Iter<'_, EntityType>
        ensures value { result ≡ self.now }
        ensures ascending { IsStrictlySortedBy text_cmp self.now }
    {
        self.lub_elements.as_ref().iter()
    }

    /// Whether each type is among the other's.
    pub fn is_subtype(&self, other: &EntityLUB) -> bool
        ensures { IsTrue result ↔ AreAmong self.now other.now }
    {
        self.lub_elements
            .as_ref()
            .is_subset(other.lub_elements.as_ref())
    }

    /// Whether no type is among the other's.
    pub fn is_disjoint(&self, other: &EntityLUB) -> bool
        ensures { IsTrue result ↔ AreApart self.now other.now }
    {
        self.lub_elements
            .as_ref()
            .is_disjoint(other.lub_elements.as_ref())
    }

    /// The types of both.
    pub fn least_upper_bound(
        &self,
        alloc: Global,
        other: &EntityLUB,
    ) -> Result<EntityLUB, AllocError>
        ensures { IfOk result (λ l. l ≡ union self.now other.now) }
    {
        let mut names = self.lub_elements.as_ref().clone()?;
        for entity_type in other.iter() {
            names.insert(entity_type.try_clone()?)?;
        }
        let lub_elements = Rc::new(alloc, names)?;
        Ok(EntityLUB { lub_elements })
    }

    /// An equal union, which shares the types.
    pub fn try_clone(&self) -> Result<EntityLUB, AllocError>
        ensures { IfOk result (λ l. l ≡ self.now) }
    {
        let lub_elements = self.lub_elements.clone()?;
        Ok(EntityLUB { lub_elements })
    }
}

impl PartialEq for EntityLUB {
    ghost use Rattle.std.specs.Ordering.{is_eq};
    ghost use Rattle.std.specs.Cmp.{partial_equiv_from_equiv};
    ghost use Rattle.std.proofs.lemmas.Cmp.{eq_by_cmp_equiv};
    ghost use Rattle.schema_types.specs.Names.{texts_cmp};
    ghost use Rattle.schema_types.specs.NameLaws.{texts_cmp_total};

    ghost eq = { λ a b. is_eq (texts_cmp a b) };

    ghost laws = { partial_equiv_from_equiv (eq_by_cmp_equiv texts_cmp_total) };

    fn eq(&self, other: &EntityLUB) -> bool {
        self.cmp(other) == Ordering::Equal
    }
}

impl Eq for EntityLUB {
    ghost use Rattle.std.proofs.lemmas.Cmp.{eq_by_cmp_equiv};
    ghost use Rattle.schema_types.specs.NameLaws.{texts_cmp_total};

    ghost laws = { eq_by_cmp_equiv texts_cmp_total };
}

impl Ord for EntityLUB {
    ghost use Rattle.std.specs.Ordering.{is_eq, as_partial_cmp};
    ghost use Rattle.std.proofs.Common.{refl};
    ghost use Rattle.schema_types.specs.Names.{texts_cmp};
    ghost use Rattle.schema_types.specs.NameLaws.{texts_cmp_total};

    ghost cmp = { texts_cmp };

    ghost total = { texts_cmp_total };

    ghost matches_partial_cmp = { λ a b. refl };

    ghost matches_eq = { λ a b. refl };

    fn cmp(&self, other: &EntityLUB) -> Ordering {
        self.lub_elements.as_ref().cmp(other.lub_elements.as_ref())
    }
}

impl PartialOrd for EntityLUB {
    ghost use Rattle.std.specs.Ordering.{as_partial_cmp};
    ghost use Rattle.std.specs.Cmp.{partial_order_from_total};
    ghost use Rattle.schema_types.specs.Names.{texts_cmp};
    ghost use Rattle.schema_types.specs.NameLaws.{texts_cmp_total};

    ghost partial_cmp = { as_partial_cmp texts_cmp };

    ghost laws = { partial_order_from_total texts_cmp_total };

    fn partial_cmp(&self, other: &EntityLUB) -> Option<Ordering> {
        Some(self.cmp(other))
    }
}

impl Hash for EntityLUB {
    ghost use Rattle.schema_types.specs.Names.{texts_fed};
    ghost use Rattle.schema_types.specs.NameLaws.{alike_texts};

    ghost hash_input = { texts_fed };

    ghost respects_eq = { alike_texts };

    fn hash<H: Hasher>(&self, state: &mut H) {
        self.lub_elements.as_ref().hash(state);
    }
}
