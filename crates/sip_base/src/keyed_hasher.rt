ghost use Rattle.std.specs.Prelude.{◌≡◌};
ghost use Rattle.sip_base.specs.KeyedHasher.{fed_first};

use crate::word_hasher::WordHasher;
use std::hash::{BuildHasher, Hasher};
use std::marker::Model;

/// Makes the hashers of a map whose keys peers choose. Each was fed a secret first, so a peer that doesn't
/// know it can't choose keys that collide cheaply. Seen as the hasher that it makes.
#[derive(Drop)]
pub struct KeyedHasher {
    initial: WordHasher,
}

impl Model for KeyedHasher {
    ghost use Rattle.sip_base.specs.declared.word_hasher.WordHasher.{WordHasher};

    ghost Value = { WordHasher };

    ghost view = { λ k. k.initial };
}

impl KeyedHasher {
    /// Hashers under this secret.
    pub fn new(keys: u128) -> Self
        ensures { result ≡ fed_first keys }
    {
        let mut initial = WordHasher::new();
        initial.write_u128(keys);
        KeyedHasher { initial }
    }
}

impl BuildHasher for KeyedHasher {
    type Hasher = WordHasher;

    ghost build_hasher = { λ initial. initial };

    fn build_hasher(&self) -> WordHasher {
        self.initial
    }
}
