use crate::file_fault::FileFault;
use crate::stamp::Stamp;
use sip_text::Bytes;

/// What stands under a file's name for a while: what asking for its stamp and for its bytes comes to.
#[derive(Drop)]
pub struct FileState {
    pub stamp: Result<Stamp, FileFault>,
    pub bytes: Result<Bytes, FileFault>,
}
