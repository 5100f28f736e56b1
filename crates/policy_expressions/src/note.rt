//! What stands at a node of an expression.

ghost use Rattle.std.specs.Prelude.{◌≡◌, IfOk};

use std::alloc::{AllocError, Global};

/// A note at a node of an expression that can be copied with it.
pub trait Note: Drop {
    /// An equal note.
    fn try_copy(&self, alloc: Global) -> Result<Self, AllocError>
        ensures { IfOk result (λ copy. copy ≡ self.now) };
}

impl Note for () {
    fn try_copy(&self, _alloc: Global) -> Result<(), AllocError> {
        Ok(())
    }
}

impl<N: Note> Note for Option<N> {
    fn try_copy(&self, alloc: Global) -> Result<Option<N>, AllocError> {
        match self {
            None => Ok(None),
            Some(note) => Ok(Some(note.try_copy(alloc)?)),
        }
    }
}
