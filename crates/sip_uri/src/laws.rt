ghost use Rattle.std.specs.Prelude.{◌≡◌, List, ℕ, Some, Ok};
ghost use Rattle.sip_text.specs.Escapes.{unescaped};
ghost use Rattle.sip_uri.specs.Uri.{text_of, IsValid};
ghost use Rattle.sip_uri.specs.Reading.{reading_of};
ghost use Rattle.sip_uri.specs.Aor.{aor_of};

use crate::uri::Uri;
use crate::user::UserInfo;

/// What is written of a URI that was read, and of any URI of the grammar, is read back equal.
pub fn written_again()
    ensures was_read { (bytes : List ℕ) (uri : Uri) → reading_of bytes ≡ Ok uri → reading_of (text_of uri) ≡ Ok uri }
    ensures valid { (uri : Uri) → IsValid uri → reading_of (text_of uri) ≡ Ok uri }
{}

/// Every escape in the user of a URI of the grammar is good, so its address of record has what the user
/// says.
pub fn valid_user_is_unescaped()
    ensures { (uri : Uri) (info : UserInfo) → IsValid uri → uri.userinfo ≡ Some info → unescaped info.user ≡ Some (aor_of uri).user }
{}
