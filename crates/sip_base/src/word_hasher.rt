//! The hash under a secret for maps whose keys peers choose: `KeyedHasher` begins it with its secret.
ghost use Rattle.std.specs.Prelude.{◌≡◌, fold};
ghost use Rattle.sip_base.specs.WordHasher as sip;

use std::hash::Hasher;

/// SipHash-1-3 over whole words: each write is words of its own, eight bytes in each, the lowest first. Bytes that are left
/// behind whole words are in a last word, which is that of the last eight bytes; fewer bytes in all are one word, the last
/// the lowest. So a text is told from another only where its length goes before it.
#[derive(Clone, Copy)]
pub struct WordHasher {
    v0: u64,
    v1: u64,
    v2: u64,
    v3: u64,
}

/// A word with one byte more.
#[tactic(auto, unfolding(crate::specs::WordHasher::with_byte))]
fn with_byte(word: u64, byte: u8) -> u64
    ensures { result ≡ sip.with_byte word byte }
{
    word.wrapping_mul(256).wrapping_add(u64::from(byte))
}

/// The word of a few bytes.
fn word_of(bytes: &[u8]) -> u64
    ensures { result ≡ fold sip.with_byte 0 bytes.now }
{
    bytes.iter().fold(0, |word, byte| with_byte(word, *byte))
}

/// The word of the last eight bytes, or of all where there are fewer.
#[tactic(auto, using(crate::proofs::Words::long, crate::proofs::Words::short))]
fn last_word(bytes: &[u8]) -> u64
    ensures { result ≡ sip.last_word bytes.now }
{
    match bytes.last_chunk::<8>() {
        Some(word) => u64::from_le_bytes(*word),
        None => word_of(bytes),
    }
}

impl WordHasher {
    /// A hasher to which nothing was written.
    #[tactic(auto, unfolding(crate::specs::WordHasher::initial))]
    pub fn new() -> Self
        ensures { result ≡ sip.initial }
    {
        WordHasher {
            v0: 0x736f_6d65_7073_6575,
            v1: 0x646f_7261_6e64_6f6d,
            v2: 0x6c79_6765_6e65_7261,
            v3: 0x7465_6462_7974_6573,
        }
    }

    fn round(&mut self)
        ensures { self.new ≡ sip.round self.old }
    {
        self.v0 = self.v0.wrapping_add(self.v1);
        self.v2 = self.v2.wrapping_add(self.v3);
        self.v1 = self.v1.rotate_left(13) ^ self.v0;
        self.v3 = self.v3.rotate_left(16) ^ self.v2;
        self.v0 = self.v0.rotate_left(32);
        self.v2 = self.v2.wrapping_add(self.v1);
        self.v0 = self.v0.wrapping_add(self.v3);
        self.v1 = self.v1.rotate_left(17) ^ self.v2;
        self.v3 = self.v3.rotate_left(21) ^ self.v0;
        self.v2 = self.v2.rotate_left(32);
    }

    fn write_word(&mut self, word: u64)
        ensures { self.new ≡ sip.write_word self.old word }
    {
        self.v3 ^= word;
        self.round();
        self.v0 ^= word;
    }
}

impl Hasher for WordHasher {
    ghost write = { sip.write };

    ghost finish = { sip.finish };

    fn finish(&self) -> u64 {
        let mut state = *self;
        state.v2 ^= 0xff;
        state.round();
        state.round();
        state.round();
        state.v0 ^ state.v1 ^ state.v2 ^ state.v3
    }

    #[tactic(auto, using(crate::proofs::Words::whole, crate::proofs::Words::a_word, crate::proofs::Words::last_is))]
    fn write(&mut self, bytes: &[u8]) {
        let mut rest = bytes;
        while let Some((word, behind)) = rest.split_first_chunk::<8>() {
            self.write_word(u64::from_le_bytes(*word));
            rest = behind;
        }
        if !rest.is_empty() {
            self.write_word(last_word(bytes));
        }
    }

    #[tactic(auto, using(crate::proofs::Words::is_number))]
    fn write_u64(&mut self, number: u64) {
        self.write_word(number);
    }

    #[tactic(auto, using(crate::proofs::Words::is_number))]
    fn write_usize(&mut self, number: usize) {
        self.write_word(number as u64);
    }
}
