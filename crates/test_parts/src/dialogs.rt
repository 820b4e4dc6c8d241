use sip_dialog::{DialogError, DialogId, Dialogs, InviteAnswer};
use sip_text::Items;
use sip_uri::Addr;
use std::alloc::{AllocError, Global};

const CALLED: Addr = Addr {
    ip: [127, 0, 0, 1],
    port: 5082,
};

/// The name of a dialog: one Call-ID and one From tag, and a To tag of this number.
fn name(alloc: Global, number: u16) -> Result<DialogId, AllocError> {
    DialogId::of(alloc, b"k1", b"f1", number.to_be_bytes().as_slice())
}

/// Learns a dialog from a 200 to an INVITE that came at the same moment.
fn learn(alloc: Global, dialogs: &mut Dialogs, number: u16, now: u64) -> Result<(), DialogError> {
    let mut addresses = Items::new(alloc);
    addresses.push(CALLED)?;
    let answer = InviteAnswer {
        id: name(alloc, number)?,
        number: 4,
        arrived_at: now,
        is_success: true,
        addresses,
    };
    dialogs.learn(answer, now)
}

/// 4,096 dialogs, from 100,000 on.
fn full(alloc: Global) -> Result<Dialogs, DialogError> {
    let mut dialogs = Dialogs::new(alloc, 7);
    for number in 0..4_096u16 {
        learn(alloc, &mut dialogs, number, 100_000)?;
    }
    Ok(dialogs)
}

/// Whether a request of the first dialog is in it.
fn has_first(alloc: Global, dialogs: &Dialogs, now: u64) -> bool {
    match name(alloc, 0) {
        Ok(first) => dialogs.allows(&first, CALLED, now),
        Err(_) => false,
    }
}

/// Whether one more is refused as one too many, and the first one stays; twelve hours later it is learnt.
fn is_full(alloc: Global, dialogs: &mut Dialogs) -> bool {
    let refused = learn(alloc, dialogs, 4_096, 228_000);
    let stays = has_first(alloc, dialogs, 228_000);
    let later = learn(alloc, dialogs, 4_096, 43_300_000);
    matches!(refused, Err(DialogError::Full)) && stays && later.is_ok()
}

pub(crate) fn dialogs_full(alloc: Global) -> bool {
    match full(alloc) {
        Ok(mut dialogs) => is_full(alloc, &mut dialogs),
        Err(_) => false,
    }
}
