use crate::file_fault::FileFault;
use sip_text::Bytes;

/// What a look at the file of a configuration came to.
#[derive(Drop)]
pub enum Look {
    /// Nothing new: there was no look, since none is due; or the file holds what is in force, or what was refused last; or it can't be
    /// read as before.
    Nothing,
    /// Other bytes, seen for the first time: they may be half written.
    Unsettled,
    /// Other bytes than those in force and those refused last, which two looks in a row saw alike, a second apart at least. They are to be
    /// taken or refused; else they are read anew, and offered again.
    Settled(Bytes),
    /// The file can't be read, and that wasn't so before. What was in force stays.
    Unread(FileFault),
}
