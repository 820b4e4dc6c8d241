ghost use Rattle.std.specs.Prelude.{◌≡◌, ◌↔◌, ℕ, Bool, List, [], Some, None, Ok, Err};
ghost use Rattle.std.specs.Result.{result_ok};
ghost use Rattle.sip_header.specs.CoreFields.{core_of};
ghost use Rattle.sip_message_form.specs.declared.message.Message.{Message};
ghost use Rattle.sip_message_form.specs.declared.message.Start.TheVariants.{Request};
ghost use Rattle.sip_route.specs.declared.own.Own.{Own};
ghost use Rattle.sip_validate.specs.declared.checked.Checked.{Checked};
ghost use Rattle.sip_validate.specs.declared.refused.Refused.{Refused};
ghost use Rattle.sip_validate.specs.Refusal.{refusal_of};
ghost use Rattle.sip_validate.specs.Checked.{checked_of, validation_of};

/// A request may be served exactly where no row of the table applies, and its core fields, its way and the Request-URI
/// that is left are what was read of it. Another is refused with the first row's status, and with no other.
pub fn first_row_refuses()
    ensures served { (own : Own) (m : Message) (short : Bool) (checked : Checked)
        → ((validation_of own m short ≡ Ok checked) ↔ ((refusal_of own m short ≡ None) × (checked_of own m ≡ Some checked))) }
    ensures refused { (own : Own) (m : Message) (short : Bool) (method uri version : List ℕ) (status : ℕ) (extra : List ℕ)
        → m.start ≡ Request method uri version
        → ((validation_of own m short ≡ Err (Refused.Status status extra)) ↔ (refusal_of own m short ≡ Some (status, extra))) }
{}

/// A request whose core fields can't be read is a bad one.
pub fn unread_is_refused()
    ensures bad { (own : Own) (m : Message) (short : Bool) (method uri version : List ℕ) → m.start ≡ Request method uri version
        → result_ok (core_of m) ≡ None → refusal_of own m short ≡ Some (400, []) }
{}
