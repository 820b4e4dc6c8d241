ghost use Rattle.std.specs.Prelude.{◌≡◌, ◌<◌, ◌≤◌, ◌↔◌, List, ℕ, length, Option, Some, None};
ghost use Rattle.sip_message_form.specs.Text.{text_of};
ghost use Rattle.sip_message.specs.Says.{Says, IsWithinLimits, IsHead, IsContent};
ghost use Rattle.sip_message.specs.Reading.{with_body, limited, within_limits, reading_of, parts_of, fault_of};
ghost use Rattle.sip_message.specs.Body.{is_short};
ghost use Rattle.sip_message_fields.specs.declared.field.Field.{Field};
ghost use Rattle.sip_message_form.specs.declared.message.Start.{Start};
ghost use Rattle.sip_message_form.specs.declared.message.Message.{Message};
ghost use Rattle.sip_message_form.specs.declared.error.ReadError.TheVariants.{TooLong, NotSip, BadField};

/// No two messages are said by one text.
pub fn one_message()
    ensures { (bytes : List ℕ) (m n : Message) → Says bytes m → Says bytes n → m ≡ n }
{}

/// What is written of a message that some bytes say within the limits says that message, within the limits.
pub fn written_again()
    ensures { (bytes : List ℕ) (m : Message) → Says bytes m → IsWithinLimits bytes m → Says (text_of m) m × IsWithinLimits (text_of m) m }
{}

/// Which refusal applies to bytes: none exactly where they say a message within the limits; `TooLong` to what is
/// over the limit of a datagram, whatever else it is; then `NotSip` exactly to what has no head; then `BadField`
/// exactly to a head without contents; and then the limits and the length of the body decide.
pub fn refusals()
    ensures none { (bytes : List ℕ) → (fault_of bytes ≡ None) ↔ ((m : Message) × Says bytes m × IsWithinLimits bytes m) }
    ensures too_long { (bytes : List ℕ) → 65507 < length bytes → fault_of bytes ≡ Some TooLong }
    ensures not_sip { (bytes : List ℕ) → length bytes ≤ 65507
        → (fault_of bytes ≡ Some NotSip) ↔ ((start : Start) (lines : List (List ℕ)) (rest : List ℕ) → ¬ IsHead bytes start lines rest) }
    ensures bad_field { (bytes : List ℕ) (start : Start) (lines : List (List ℕ)) (rest : List ℕ) → length bytes ≤ 65507
        → IsHead bytes start lines rest → (fault_of bytes ≡ Some BadField) ↔ ((fields : List Field) (n : Option ℕ) → ¬ IsContent lines fields n) }
    ensures limits { (bytes : List ℕ) (start : Start) (lines : List (List ℕ)) (rest : List ℕ) (fields : List Field) (n : Option ℕ)
        → length bytes ≤ 65507 → IsHead bytes start lines rest → IsContent lines fields n → reading_of bytes
        ≡ limited (is_short n rest) (with_body start fields n rest) }
{}

/// What is read of bytes is what their parts say, within the last limits.
pub fn limits_come_last()
    ensures { (bytes : List ℕ) → reading_of bytes ≡ within_limits (parts_of bytes) }
{}
