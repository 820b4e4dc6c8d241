ghost use Rattle.std.specs.Prelude.{◌≡◌, [], ◌∷◌, IfOk};
ghost use Rattle.sip_edit_response.specs.Extras;

use sip_dialog_updates::state::Server;
use sip_edit_response::denial_warning;
use sip_message_fields::Fields;
use std::alloc::{AllocError, Global};

/// The fields of a 403: the Warning that names the rule that denies (RFC 3261 20.43, in this project's profile).
/// `AllocError` is the only refusal.
pub fn denial_fields(alloc: Global, server: &Server, rule: u32) -> Result<Fields, AllocError>
    ensures { IfOk result (λ fields. fields ≡ Extras.denial_warning server.now.config.own rule ∷ []) }
{
    let mut fields = Fields::new(alloc);
    fields.push(denial_warning(alloc, &server.config.own, rule)?)?;
    Ok(fields)
}
