ghost use Rattle.std.specs.Prelude.{◌≡◌};
ghost use Rattle.sipd_reload.specs.File as Definitions;

/// What tells whether a file was changed without reading it.
#[derive(Clone, Copy, Debug)]
pub struct Stamp {
    /// Which file has the name: a file that is put in the place of another one is another one.
    pub inode: u64,
    /// When it was changed last: the seconds since 1970, 0 before that.
    pub seconds: u64,
    /// And the nanoseconds of that second.
    pub nanoseconds: u64,
    /// How many bytes it has.
    pub length: u64,
}

/// Whether two stamps are the same.
pub(crate) fn same_stamp(left: &Stamp, right: &Stamp) -> bool
    ensures { result ≡ Definitions.same_stamp left.now right.now }
{
    left.inode == right.inode
        && left.seconds == right.seconds
        && left.nanoseconds == right.nanoseconds
        && left.length == right.length
}
