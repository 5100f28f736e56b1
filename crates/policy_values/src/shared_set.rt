//! Sets of keys that several owners hold.
ghost use Rattle.std.specs.Prelude.{◌≡◌, IfOk};

use std::alloc::{AllocError, Global};
use std::collections::BTreeSet;
use std::marker::Model;
use std::rc::Rc;

/// A set of keys. A copy shares them.
#[derive(Debug, Drop)]
pub struct SharedSet<K: Ord> {
    set: Rc<BTreeSet<K>>,
}

impl<K: Ord> Model for SharedSet<K> {
    ghost use Rattle.std.specs.BTreeSet.{BTreeSet};

    ghost Value = { BTreeSet K };

    ghost view = { λ s. s.set.value };
}

impl<K: Ord + Drop> SharedSet<K> {
    /// The set, to be shared.
    pub fn new(alloc: Global, set: BTreeSet<K>) -> Result<SharedSet<K>, AllocError>
        ensures { IfOk result (λ s. s ≡ set) }
    {
        let set = Rc::new(alloc, set)?;
        Ok(SharedSet { set })
    }

    /// The set, borrowed.
    pub fn as_set(&self) -> &BTreeSet<K>
        ensures { result.now ≡ self.now }
    {
        self.set.as_ref()
    }

    /// An equal set, which shares the keys.
    pub fn try_clone(&self) -> Result<SharedSet<K>, AllocError>
        ensures { IfOk result (λ s. s ≡ self.now) }
    {
        let set = self.set.clone()?;
        Ok(SharedSet { set })
    }
}
