//! Which calls stand, and what taught where their dialogs lead (RFC 3261 12).
use crate::marks::Marks;
use crate::seen::{Method, SeenMessage};
use sip_base::KeyedHasher;
use sip_text::same_bytes;
use sip_uri::{Addr, addr_text};
use std::alloc::{AllocError, Global};
use std::collections::HashMap;

/// For how long a dialog is known without a request, in milliseconds.
const KNOWN: u64 = 43_200_000;

/// What is known of a call.
struct KnownCall {
    /// The number of the INVITE with which it began, the last one that came before it was answered.
    first: u64,
    /// Whether an answer began a dialog.
    begun: bool,
    /// Whether a 2xx did.
    confirmed: bool,
    /// When a BYE in it was answered with a 2xx.
    ended: Option<u64>,
    /// The number of the last request, and when it came.
    last: u64,
    last_at: u64,
    /// The numbers of the messages that said something new of where it leads.
    lessons: Vec<u64>,
    /// What was said of that, each with who said it.
    said: Vec<Vec<u8>>,
}

/// Written out, so that it is proved once and not wherever one is dropped.
impl Drop for KnownCall {
    fn drop(self) {
        let KnownCall {
            first: _,
            begun: _,
            confirmed: _,
            ended: _,
            last: _,
            last_at: _,
            lessons: _,
            said: _,
        } = self;
    }
}

impl KnownCall {
    /// Whether a dialog of it may be known at a moment, or was at one from which on nothing is left out.
    fn stands(&self, begin: u64, now: u64) -> bool {
        if !self.confirmed {
            return false;
        }
        if now >= self.last_at.saturating_add(KNOWN) {
            return false;
        }
        match self.ended {
            Some(ended) => begin <= ended,
            None => true,
        }
    }

    /// Whether it may come to stand, or does.
    fn may_stand(&self, begin: u64, now: u64) -> bool {
        if begin <= self.last_at {
            return true;
        }
        self.stands(begin, now)
    }
}

/// Whether a status is one of a success.
fn is_success(status: u16) -> bool {
    if status < 200 {
        return false;
    }
    status < 300
}

/// Whether something was said before.
fn was_said(said: &[Vec<u8>], lesson: &[u8]) -> bool {
    for earlier in said {
        if same_bytes(earlier.as_slice(), lesson) {
            return true;
        }
    }
    false
}

/// What is said of where a dialog leads, and who says it.
fn lesson_from(alloc: Global, seen: &SeenMessage, from: Addr) -> Result<Vec<u8>, AllocError> {
    let source = addr_text(alloc, from)?;
    let mut lesson = Vec::from_slice(alloc, source.as_slice())?;
    lesson.push(b'\n')?;
    lesson.extend_from_slice(seen.lesson.as_slice())?;
    Ok(lesson)
}

/// A message says where a dialog leads.
fn learn(
    alloc: Global,
    call: &mut KnownCall,
    seen: &SeenMessage,
    number: u64,
    from: Addr,
) -> Result<(), AllocError> {
    if seen.lesson.is_empty() {
        return Ok(());
    }
    let lesson = lesson_from(alloc, seen, from)?;
    if was_said(call.said.as_slice(), lesson.as_slice()) {
        return Ok(());
    }
    call.said.push(lesson)?;
    call.lessons.push(number)?;
    Ok(())
}

/// An answer to an INVITE came.
fn invite_answered(
    alloc: Global,
    call: &mut KnownCall,
    seen: &SeenMessage,
    status: u16,
    number: u64,
    from: Addr,
) -> Result<(), AllocError> {
    if status >= 300 {
        return Ok(());
    }
    if !seen.has_to_tag {
        return Ok(());
    }
    call.begun = true;
    if status >= 200 {
        call.confirmed = true;
        call.lessons.push(number)?;
    }
    learn(alloc, call, seen, number, from)
}

/// The calls by Call-ID, which peers choose.
#[derive(Drop)]
pub(crate) struct Calls {
    alloc: Global,
    rows: HashMap<Vec<u8>, KnownCall, KeyedHasher>,
}

impl Calls {
    /// None yet, under a secret. Takes no memory.
    pub(crate) fn new(alloc: Global, keys: u128) -> Self {
        Calls {
            alloc,
            rows: HashMap::with_hasher(alloc, KeyedHasher::new(keys)),
        }
    }

    /// An INVITE outside a dialog came.
    pub(crate) fn invited(
        &mut self,
        seen: &SeenMessage,
        number: u64,
        at: u64,
    ) -> Result<(), AllocError> {
        if let Some(call) = self.rows.get_mut(seen.call_id.as_slice()) {
            if !call.begun {
                call.first = number;
            }
            call.last = number;
            call.last_at = at;
            return Ok(());
        }
        let call = KnownCall {
            first: number,
            begun: false,
            confirmed: false,
            ended: None,
            last: number,
            last_at: at,
            lessons: Vec::new(self.alloc),
            said: Vec::new(self.alloc),
        };
        let call_id = Vec::from_slice(self.alloc, seen.call_id.as_slice())?;
        self.rows.insert(call_id, call)?;
        Ok(())
    }

    /// Another request of a call came.
    pub(crate) fn went_on(
        &mut self,
        seen: &SeenMessage,
        number: u64,
        at: u64,
        from: Addr,
    ) -> Result<(), AllocError> {
        let alloc = self.alloc;
        let Some(call) = self.rows.get_mut(seen.call_id.as_slice()) else {
            return Ok(());
        };
        call.last = number;
        call.last_at = at;
        if seen.has_to_tag {
            learn(alloc, call, seen, number, from)?;
        }
        Ok(())
    }

    /// An answer came.
    pub(crate) fn answered(
        &mut self,
        seen: &SeenMessage,
        status: u16,
        number: u64,
        at: u64,
        from: Addr,
    ) -> Result<(), AllocError> {
        let alloc = self.alloc;
        let Some(call) = self.rows.get_mut(seen.call_id.as_slice()) else {
            return Ok(());
        };
        match seen.method {
            Method::Invite => invite_answered(alloc, call, seen, status, number, from),
            Method::Bye if is_success(status) => {
                call.ended = Some(at);
                Ok(())
            }
            _ => Ok(()),
        }
    }

    /// Marks what taught the dialogs that may be known at a moment, where nothing from another moment on is left out.
    pub(crate) fn mark(&self, begin: u64, now: u64, marks: &mut Marks) {
        for call in self.rows.values() {
            if call.stands(begin, now) {
                marks.mark(call.first);
                marks.mark(call.last);
                marks.mark_all(call.lessons.as_slice());
            }
        }
    }

    /// Forgets the calls that stand no more.
    pub(crate) fn forget(&mut self, begin: u64, now: u64) {
        self.rows.retain(|_id, call| call.may_stand(begin, now));
    }
}
