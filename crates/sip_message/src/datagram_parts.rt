use crate::part_field::PartField;
use sip_message_form::ViewStart;

/// A datagram taken apart: its first line, its fields, its body, and whether that is shorter than Content-Length says.
#[derive(Drop)]
pub struct DatagramParts<'a> {
    pub start: ViewStart<'a>,
    pub fields: Vec<PartField<'a>>,
    pub body: &'a [u8],
    pub is_short: bool,
}
