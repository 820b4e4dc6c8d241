ghost use Rattle.std.specs.Prelude.{◌≡◌, ◌++◌, [], ◌∷◌, IfOk, OnOk, OnErr};
ghost use Rattle.std.specs.Borrow.{Lends, sem, Array};
ghost use Rattle.sip_text.specs.contracts.items.Items.{the_row};
ghost use Rattle.sip_text.specs.Items.{written};

use std::alloc::{AllocError, Global};
use std::marker::Model;

/// Items of one kind in their order, seen as the list of them.
#[derive(Clone)]
pub struct Items<T: Drop> {
    list: Vec<T>,
}

/// Written out, so that it is proved once and not wherever some are dropped.
impl<T: Drop> Drop for Items<T> {
    #[inline]
    fn drop(self) {
        let Items { list: _ } = self;
    }
}

impl<T: Drop> Model for Items<T> {
    ghost use Rattle.std.specs.Prelude.{List};

    ghost Value = { List T };

    ghost view = { λ i. i.list.items };
}

impl<T: Drop> Items<T> {
    /// No item. Takes no memory.
    #[inline]
    pub fn new(alloc: Global) -> Self
        ensures { result ≡ [] }
    {
        Items {
            list: Vec::new(alloc),
        }
    }

    /// No item, and room for so many.
    #[inline]
    pub fn with_room(alloc: Global, room: usize) -> Result<Self, AllocError>
        ensures { IfOk result (λ items. items ≡ []) }
    {
        Ok(Items {
            list: Vec::with_capacity(alloc, room)?,
        })
    }

    /// Adds an item at the end.
    #[inline]
    pub fn push(&mut self, item: T) -> Result<(), AllocError>
        ensures ok { OnOk result (self.new ≡ self.old ++ item ∷ []) }
        ensures err { OnErr result (self.new ≡ self.old) }
    {
        self.list.push(item)?;
        Ok(())
    }

    /// The items.
    #[inline]
    pub fn as_slice(&self) -> &[T]
        ensures { result.now ≡ self.now }
    {
        self.list.as_slice()
    }

    /// The items, each of which may be changed.
    #[inline]
    pub fn as_mut_slice(&mut self) -> &mut [T]
        ensures* writes_back { sem 𝓛 (Lends (the_row T.row) (Array T.row 0) self.entry result (written self.old)) }
        ensures value { result.now ≡ self.old }
    {
        self.list.as_mut_slice()
    }
}
