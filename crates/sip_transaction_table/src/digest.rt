ghost use Rattle.std.specs.Prelude.{◌≡◌, fold};
ghost use Rattle.sip_base.specs.WordHasher as sip;
ghost use Rattle.sip_transaction_table.specs.Digest.{text_fed, sender_fed, named_digest, digest_of};

use crate::TransactionKey;
use sip_base::{KeyedHasher, WordHasher};
use std::hash::{BuildHasher, Hasher};

/// Feeds a text after its length, so that no text runs into the next one.
fn feed(state: &mut WordHasher, text: &[u8])
    ensures { state.new ≡ fold sip.write state.old (text_fed text.now) }
{
    state.write_usize(text.len());
    state.write(text);
}

/// A hasher that was fed the secret, and then the branch and the sent-by of a key.
fn feed_sender(secret: &KeyedHasher, key: &TransactionKey) -> WordHasher
    ensures { result ≡ fold sip.write secret.now (sender_fed key.now.branch key.now.host key.now.port) }
{
    let mut state = secret.build_hasher();
    feed(&mut state, key.branch.as_slice());
    feed(&mut state, key.host.as_slice());
    state.write_u64(u64::from(key.port));
    state
}

/// As which number each key is filed that a CANCEL with this key names.
#[tactic(auto, unfolding(crate::specs::Digest::sender_digest))]
pub(crate) fn named_digest(secret: &KeyedHasher, cancel: &TransactionKey) -> u64
    ensures { result ≡ named_digest secret.now cancel.now }
{
    feed_sender(secret, cancel).finish()
}

/// A key as a number, under a secret. Its method counts only where it is CANCEL: so a CANCEL's own key is told from what it names.
#[tactic(auto, unfolding(crate::specs::Digest::digest_of, crate::specs::Digest::sender_digest))]
pub(crate) fn digest_of(secret: &KeyedHasher, key: &TransactionKey) -> u64
    ensures { result ≡ digest_of secret.now key.now }
{
    let mut state = feed_sender(secret, key);
    if key.is_method(b"CANCEL") {
        feed(&mut state, key.method.as_slice());
        return state.finish();
    }
    state.finish()
}
