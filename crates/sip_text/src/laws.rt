ghost use Rattle.std.specs.Prelude.{◌≡◌, ◌<◌, ◌^◌, ◌↔◌, ℕ, List, decimal, Some, None, true, false, AllPairs};
ghost use Rattle.sip_text.specs.Escapes.{unescaped, unquoted};
ghost use Rattle.sip_text.specs.Lists.{cut};
ghost use Rattle.sip_text.specs.EscapedText.{IsEscaped};
ghost use Rattle.sip_text.specs.ListText.{IsList};
ghost use Rattle.sip_text.specs.QuotedText.{IsQuoted};
ghost use Rattle.sip_text.specs.Cuts.{IsParted, parts_at};
ghost use Rattle.sip_text.specs.Numbers.{plain_decimal_of};
ghost use Rattle.sip_text.specs.Words.{is_same_text};
ghost use Rattle.sip_text.specs.Distinct.{order_without_case, all_differ};
ghost use Rattle.std.specs.Cmp.{IsTotalOrder};
ghost use Rattle.std.specs.declared.cmp.Ordering.TheVariants.{Equal};

/// The items that `cut_list` gives are what stands between the commas of the list, and it refuses
/// what is no list (RFC 3261 7.3.1).
pub fn items_are_between_commas()
    ensures items { (text : List ℕ) (items : List (List ℕ)) → (cut text ≡ Some items) ↔ IsList text items }
    ensures refused { (text : List ℕ) → (cut text ≡ None) ↔ ((items : List (List ℕ)) → IsList text items → ⊥) }
{}

/// What `unescape` reads is text of single bytes and escapes `%HH`, and it refuses all other text
/// (RFC 3261 25.1, `escaped`).
pub fn escapes_are_pieces()
    ensures bytes { (text bytes : List ℕ) → (unescaped text ≡ Some bytes) ↔ IsEscaped text bytes }
    ensures refused { (text : List ℕ) → (unescaped text ≡ None) ↔ ((bytes : List ℕ) → IsEscaped text bytes → ⊥) }
{}

/// What `unquote` reads is text of single bytes and pairs between quotes, and it refuses all other
/// text (RFC 3261 25.1, `quoted-string`).
pub fn quotes_are_pieces()
    ensures bytes { (text bytes : List ℕ) → (unquoted text ≡ Some bytes) ↔ IsQuoted text bytes }
    ensures refused { (text : List ℕ) → (unquoted text ≡ None) ↔ ((bytes : List ℕ) → IsQuoted text bytes → ⊥) }
{}

/// What stands between the bytes of one kind outside quoted text are the parts that make up a text, and no
/// others do.
pub fn parts_make_up_a_text()
    ensures parted { (mark : ℕ) (text : List ℕ) → IsParted mark text (parts_at mark text) }
    ensures only { (mark : ℕ) (text : List ℕ) (parts : List (List ℕ)) → IsParted mark text parts → parts ≡ parts_at mark text }
{}

/// The decimal text of each number below 2^64 is read as that number, and no other text without leading
/// zeros is (RFC 3261 25.1, `1*DIGIT`).
pub fn numbers_are_read()
    ensures read { (number : ℕ) → number < 2 ^ 64 → plain_decimal_of (decimal number) ≡ Some number }
    ensures written { (text : List ℕ) (number : ℕ) → plain_decimal_of text ≡ Some number → text ≡ decimal number }
{}

/// Texts stand in one order without case, in which those and only those are equal that are the same text
/// (RFC 3261 7.3.1), and a list of texts differs exactly where no two of its places hold the same one.
pub fn texts_are_in_order()
    ensures order { IsTotalOrder order_without_case }
    ensures equal { (left right : List ℕ) → (order_without_case left right ≡ Equal) ↔ (is_same_text left right ≡ true) }
    ensures differ { (texts : List (List ℕ)) → (all_differ texts ≡ true) ↔ AllPairs (λ left right. is_same_text left right ≡ false) texts }
{}
