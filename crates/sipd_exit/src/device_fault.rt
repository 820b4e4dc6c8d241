ghost use Rattle.std.specs.Prelude.{◌≡◌};
ghost use Rattle.sipd_exit.specs.Exits.{fault_of};

use std::fmt;
use std::io::ErrorKind;

/// Which fault of the system it was.
#[derive(Clone, Copy, Debug, PartialEq, Eq)]
pub enum DeviceFault {
    /// The port is another program's.
    PortTaken,
    /// The address isn't this machine's.
    NoSuchAddress,
    /// The port is below 1024, and the program hasn't the right to it.
    NoRightToPort,
    /// There is no file of that name.
    NoFile,
    /// The file may not be read.
    NoRightToRead,
    /// The disk, or what its user may take of it, is full.
    DiskFull,
    /// Nobody reads the output any more.
    OutputClosed,
    /// Any other.
    Other,
}

impl DeviceFault {
    /// Which fault an error of this kind is.
    pub fn of_kind(kind: ErrorKind) -> DeviceFault
        ensures { result ≡ fault_of kind }
    {
        match kind {
            ErrorKind::AddrInUse => DeviceFault::PortTaken,
            ErrorKind::AddrNotAvailable => DeviceFault::NoSuchAddress,
            ErrorKind::NotFound => DeviceFault::NoFile,
            ErrorKind::PermissionDenied => DeviceFault::NoRightToRead,
            ErrorKind::StorageFull => DeviceFault::DiskFull,
            ErrorKind::QuotaExceeded => DeviceFault::DiskFull,
            ErrorKind::BrokenPipe => DeviceFault::OutputClosed,
            _ => DeviceFault::Other,
        }
    }

    /// What is said of it, in a line; nothing of any other.
    fn words(self) -> &'static str {
        match self {
            DeviceFault::PortTaken => "sipd: port taken\n",
            DeviceFault::NoSuchAddress => "sipd: no such address\n",
            DeviceFault::NoRightToPort => "sipd: no right to the port\n",
            DeviceFault::NoFile => "sipd: no file\n",
            DeviceFault::NoRightToRead => "sipd: no right to read\n",
            DeviceFault::DiskFull => "sipd: disk full\n",
            DeviceFault::OutputClosed => "sipd: output closed\n",
            DeviceFault::Other => "",
        }
    }
}

impl fmt::Display for DeviceFault {
    fn fmt<W: fmt::Write>(&self, f: &mut fmt::Formatter<W>) -> fmt::Result {
        f.write_str(self.words())
    }
}
