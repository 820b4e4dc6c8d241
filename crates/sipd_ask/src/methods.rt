ghost use Rattle.std.specs.Prelude.{◌≡◌};
ghost use Rattle.sipd_ask.specs.Methods;

/// Whether a letter of a method is a small one. Takes no memory.
pub(crate) fn has_small_letter(method: &[u8]) -> bool
    ensures { result ≡ Methods.has_small_letter method.now }
{
    method.iter().any(|byte| byte.is_ascii_lowercase())
}
