ghost use Rattle.std.specs.Prelude.{◌≡◌, IfOk};

use sip_text::{Bytes, Items};
use std::alloc::{AllocError, Global};

/// Texts, copied.
pub fn copy_texts(alloc: Global, texts: &[Bytes]) -> Result<Items<Bytes>, AllocError>
    ensures { IfOk result (λ copies. copies ≡ texts.now) }
{
    let mut copies = Items::new(alloc);
    for text in texts {
        copies.push(Bytes::copy(alloc, text.as_slice())?)?;
    }
    Ok(copies)
}
