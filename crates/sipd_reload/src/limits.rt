ghost use Rattle.std.specs.Prelude.{◌≡◌, ◌≤◌, IfOk};
ghost use Rattle.sipd_reload.specs.File as Definitions;
ghost use Rattle.sipd_reload.specs.File.{most_bytes};

use crate::file_fault::FileFault;
use crate::stamp::Stamp;

/// The most bytes that are read of a configuration.
pub const MOST_BYTES: usize = 16_777_216;

/// A stamp, unless its file is longer than is read.
pub(crate) fn short_stamp(stamp: Result<Stamp, FileFault>) -> Result<Stamp, FileFault>
    ensures stamp { result ≡ Definitions.short_stamp stamp }
    ensures short { IfOk result (λ stamp. stamp.length ≤ most_bytes) }
{
    match stamp {
        Ok(stamp) if stamp.length <= MOST_BYTES as u64 => Ok(stamp),
        Ok(_) => Err(FileFault::TooLong),
        Err(fault) => Err(fault),
    }
}
