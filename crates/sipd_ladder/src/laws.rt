ghost use Rattle.std.specs.Prelude.{◌≡◌, ℕ, List, Err};
ghost use Rattle.sip_message.specs.Reading.{reading_of};
ghost use Rattle.sip_message_form.specs.declared.error.ReadError.TheVariants.{ShortBody};
ghost use Rattle.sip_message_form.specs.declared.message.Message.{Message};
ghost use Rattle.sipd_ladder.specs.Saying.{word_in, word_said};

/// A datagram of whose body not all came says of a call what its message says, as a whole one does.
pub fn short_body_is_of_its_call()
    ensures { (call_id bytes : List ℕ) (m : Message) → reading_of bytes ≡ Err (ShortBody m) → word_in call_id bytes ≡ word_said call_id m }
{}
