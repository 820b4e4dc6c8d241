ghost use Rattle.std.specs.Prelude.{◌≡◌, IfOk};

use std::alloc::{AllocError, Global};
use std::marker::Model;
use std::rc::Rc;

/// A value with several owners, which none changes, seen as the value. A clone is one more owner: it copies no byte and
/// takes no memory, and is refused only where owners can't be counted any more.
pub struct Shared<T: Drop> {
    owned: Rc<T>,
}

/// Written out, so that it is proved once and not wherever one is dropped.
impl<T: Drop> Drop for Shared<T> {
    fn drop(self) {
        let Shared { owned: _ } = self;
    }
}

impl<T: Drop> Model for Shared<T> {
    ghost Value = { T };

    ghost view = { λ s. s.owned.value };
}

impl<T: Drop> Shared<T> {
    /// The first owner of a value. `AllocError` is the only refusal.
    pub fn new(alloc: Global, value: T) -> Result<Self, AllocError>
        ensures { IfOk result (λ shared. shared ≡ value) }
    {
        let owned = Rc::new(alloc, value)?;
        Ok(Shared { owned })
    }

    /// The value.
    pub fn get(&self) -> &T
        ensures { result.now ≡ self.now }
    {
        &self.owned
    }
}

impl<T: Drop> Clone for Shared<T> {
    ghost is_clone = { λ shared copy. copy ≡ shared };

    fn clone(&self) -> Result<Shared<T>, AllocError> {
        let owned = self.owned.clone()?;
        Ok(Shared { owned })
    }
}
