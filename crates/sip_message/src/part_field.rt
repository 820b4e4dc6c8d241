use sip_message_fields::{ViewName, ViewPiece};

/// A field as it stands in a datagram: its name, and its value as a part of the datagram, or joined where its line
/// has a fold.
#[derive(Drop)]
pub struct PartField<'a> {
    pub name: ViewName<'a>,
    pub value: ViewPiece<'a>,
}
