ghost use Rattle.std.specs.Prelude.{◌≡◌, ◌≤◌, length};

use std::marker::Model;

/// What is to be done, in order: at most three actions, which lie in the value itself.
#[derive(Drop)]
pub struct Actions<A: Copy + Default> {
    room: [A; 3],
    count: usize,
}

impl<A: Copy + Default> Model for Actions<A> {
    ghost use Rattle.std.specs.Prelude.{◌≤◌, List, take};

    ghost Value = { List A };

    ghost view = { λ a. take a.count a.room };

    ghost invariant = { λ a. a.count ≤ 3 };
}

impl<A: Copy + Default> Actions<A> {
    /// These actions.
    pub fn of(actions: &[A]) -> Self
        requires { length actions.now ≤ 3 }
        ensures { result ≡ actions.now }
    {
        let mut room = [A::default(); 3];
        room[..actions.len()].copy_from_slice(actions);
        Actions {
            room,
            count: actions.len(),
        }
    }

    /// The actions.
    pub fn as_slice(&self) -> &[A]
        ensures { result.now ≡ self.now }
    {
        &self.room[..self.count]
    }
}
