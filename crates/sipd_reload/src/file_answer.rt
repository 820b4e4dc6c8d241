use crate::file_fault::FileFault;
use crate::stamp::Stamp;
use sip_text::Bytes;

/// What a file answered.
#[derive(Drop)]
pub enum FileAnswer {
    /// Its stamp, where it was asked for that.
    Stamped(Result<Stamp, FileFault>),
    /// Its bytes, where it was asked for those.
    Gave(Result<Bytes, FileFault>),
}
