ghost use Rattle.std.specs.Prelude.{◌≤◌, List, Option, length, IfOk};
ghost use Rattle.sipd_reload.specs.File.{GrewBy, most_bytes};
ghost use Rattle.sipd_reload.specs.declared.file_answer.FileAnswer.{FileAnswer};
ghost use Rattle.sipd_reload.specs.declared.file_answer.FileAnswer.TheVariants.{Stamped, Gave};

use crate::file_fault::FileFault;
use crate::stamp::Stamp;
use sip_text::Bytes;

/// The file of a configuration, which others change. It may tell what it answered, oldest first.
pub trait WatchedFile: Drop {
    ghost told: { Self → Option (List FileAnswer) };

    /// What tells whether it was changed. Refusals: `Gone`, `TooLong`, `Device`, `NoMemory`.
    fn stamp(&mut self) -> Result<Stamp, FileFault>
        ensures tells { GrewBy (Stamped result) (told self.old) (told self.new) }
        ensures short { IfOk result (λ stamp. stamp.length ≤ most_bytes) };

    /// All its bytes. Refusals: `Gone`, `TooLong`, `Device`, `NoMemory`.
    fn read(&mut self) -> Result<Bytes, FileFault>
        ensures tells { GrewBy (Gave result) (told self.old) (told self.new) }
        ensures short { IfOk result (λ bytes. length bytes ≤ most_bytes) };
}
