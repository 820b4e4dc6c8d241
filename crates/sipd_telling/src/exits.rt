ghost use Rattle.std.specs.Prelude.{◌≡◌};
ghost use Rattle.sipd_telling.specs.Exits;

use sip_retell::RetellError;
use sipd_exit::{DeviceFault, Exit};
use sipd_old_record::line_of_file;

/// How the program ends where a record isn't told further, of which so many lines behind the first one were read. The listener's own fault is
/// one of a device.
pub(crate) fn exit_of_retell(e: RetellError, lines: u64) -> Exit
    ensures { result ≡ Exits.exit_of_retell e lines }
{
    match e {
        RetellError::NoMemory => Exit::Memory,
        RetellError::Damaged(line)
        | RetellError::TooLong(line)
        | RetellError::NoConfiguration(line, _)
        | RetellError::OtherFrame(line, _) => Exit::Script(line_of_file(line)),
        RetellError::Step => Exit::Script(line_of_file(lines)),
        RetellError::Read | RetellError::Listener => Exit::Device(DeviceFault::Other),
    }
}
