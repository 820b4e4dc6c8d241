ghost use Rattle.sipd_reload.specs.Watch.{Sees};

use crate::file_fault::FileFault;
use crate::seen::Seen;
use crate::stamp::Stamp;
use crate::watched_file::WatchedFile;
use sip_text::Bytes;

/// What a look sees of a file.
#[derive(Drop)]
pub enum Sight {
    /// It couldn't be looked at, or read.
    Failed(FileFault),
    /// It wasn't read: it holds what it held at two looks.
    Same,
    /// It holds these bytes.
    Held { stamp: Stamp, bytes: Bytes },
}

/// Looks at a file of which this is known: asks for its stamp, and then for its bytes where they are to be read.
pub(crate) fn sight_of<F: WatchedFile>(file: &mut F, seen: &Seen) -> Sight
    ensures { Sees seen.now (F.told file.old) (F.told file.new) result }
{
    let stamp = match file.stamp() {
        Ok(stamp) => stamp,
        Err(fault) => return Sight::Failed(fault),
    };
    if !seen.is_read(&stamp) {
        return Sight::Same;
    }
    match file.read() {
        Ok(bytes) => Sight::Held { stamp, bytes },
        Err(fault) => Sight::Failed(fault),
    }
}
