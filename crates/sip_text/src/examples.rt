ghost use Rattle.std.specs.Prelude.{◌≡◌, [], ◌∷◌, Some, None, codes};
ghost use Rattle.sip_text.specs.Escapes.{unescaped, unquoted};
ghost use Rattle.sip_text.specs.Lists.{cut};

/// A comma in quotes or brackets parts nothing, and no item may be empty.
pub fn list_example()
    ensures items { cut (codes "a, \"b,\\\"\" ,<c,\">") ≡ Some (codes "a" ∷ codes "\"b,\\\"\"" ∷ codes "<c,\">" ∷ []) }
    ensures empty { cut (codes "a,,b") ≡ None }
    ensures left_open { cut (codes "a, <b") ≡ None }
{}

/// `%41b` stands for `Ab`.
pub fn unescape_example()
    ensures some { unescaped (codes "%41b") ≡ Some (codes "Ab") }
    ensures none { unescaped (codes "%4") ≡ None }
{}

/// `"a\"b"` says `a"b`.
pub fn unquote_example()
    ensures { unquoted (codes "\"a\\\"b\"") ≡ Some (codes "a\"b") }
{}
