use sip_audit::Record;
use sip_dialog_updates::DialogUpdates;
use sip_event::Packet;
use sip_fork::NewRow;
use sip_text::Items;

/// What a step sends, records and opens, and what the dialogs learn of it, made before anything changes.
#[derive(Drop)]
pub struct AnswerDraft {
    /// The packets that go, in their order.
    pub packets: Items<Packet>,
    /// What is recorded, in its order.
    pub records: Items<Record>,
    /// The request that is open from then on, behind all others, if one is, where it is to stand.
    pub opened: Option<NewRow>,
    /// What the dialogs learn, in its order.
    pub updates: DialogUpdates,
}
