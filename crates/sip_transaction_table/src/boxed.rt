ghost use Rattle.std.specs.Prelude.{◌≡◌, IfOk};
ghost use Rattle.std.specs.Borrow.{Lends, sem};
ghost use Rattle.sip_transaction_table.specs.contracts.boxed.Boxed.{the_row};

use std::alloc::{AllocError, Global};
use std::marker::Model;

/// A value in memory of its own, seen as the value: who moves it moves an address.
#[derive(Drop)]
pub struct Boxed<T: Drop> {
    owned: Box<T>,
}

impl<T: Drop> Model for Boxed<T> {
    ghost use Rattle.std.specs.Prelude.{◌≡◌};

    ghost Value = { T };

    ghost view = { λ h. h.owned.value };
}

impl<T: Drop> Boxed<T> {
    /// A value, moved to memory of its own. `AllocError` is the only refusal.
    pub fn new(alloc: Global, value: T) -> Result<Self, AllocError>
        ensures { IfOk result (λ held. held ≡ value) }
    {
        let owned = Box::new(alloc, value)?;
        Ok(Boxed { owned })
    }

    /// The value.
    pub fn get(&self) -> &T
        ensures { result.now ≡ self.now }
    {
        &self.owned
    }

    /// The value, which may be changed. Takes no memory.
    pub fn get_mut(&mut self) -> &mut T
        ensures* writes_back { sem 𝓛 (Lends (the_row T.row) T.row self.entry result (λ value. value)) }
        ensures value { result.now ≡ self.old }
    {
        self.owned.as_mut()
    }

    /// The value, taken out of its memory.
    pub fn into_value(self) -> T
        ensures { result ≡ self }
    {
        Box::into_inner(self.owned)
    }
}
