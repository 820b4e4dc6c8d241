ghost use Rattle.std.specs.Prelude.{◌≡◌, ◌↔◌, ◌++◌, ℕ, true, List, Some, codes, IsSome};
ghost use Rattle.sip_message_form.specs.declared.message.Message.{Message};
ghost use Rattle.sip_header.specs.declared.via.Via.{Via};
ghost use Rattle.sip_transaction_table.specs.declared.key.TransactionKey.{TransactionKey};
ghost use Rattle.sip_transaction_table.specs.Key.{key_of, same_key};
ghost use Rattle.model_laws.specs.Keys.{SaysOnTop, AreOneTransaction};

/// A request is known by its transaction alone: a key is the same as itself, whichever of two comes first, and through
/// a third; it is no other key; and two requests have the same key exactly where RFC 3261 17.2.3 takes them for one
/// transaction: the branch byte by byte, the host of sent-by without case, its port, and the method, where an ACK counts
/// as its INVITE. Each request has a key whose top Via has a branch with the magic cookie.
pub fn keys_are_told_apart()
    ensures itself { (key : TransactionKey) → same_key key key ≡ true }
    ensures turned { (left right : TransactionKey) → same_key left right ≡ true → same_key right left ≡ true }
    ensures joined { (left middle right : TransactionKey) → same_key left middle ≡ true → same_key middle right ≡ true
        → same_key left right ≡ true }
    ensures equal { (left right : TransactionKey) → (same_key left right ≡ true) ↔ (left ≡ right) }
    ensures requests { (m other : Message) (method other_method : List ℕ) (via other_via : Via) (branch other_branch : List ℕ)
        (left right : TransactionKey)
        → SaysOnTop m method via branch → SaysOnTop other other_method other_via other_branch → key_of m ≡ Some left → key_of other ≡ Some right
        → (same_key left right ≡ true) ↔ AreOneTransaction method via branch other_method other_via other_branch }
    ensures has_key { (m : Message) (method : List ℕ) (via : Via) (branch rest : List ℕ) → SaysOnTop m method via branch → branch
        ≡ codes "z9hG4bK" ++ rest → IsSome (key_of m) }
{}
