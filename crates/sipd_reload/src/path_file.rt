ghost use Rattle.std.specs.Prelude.{◌≡◌, ◌≤◌, None, Ok, Err, IfOk, length};
ghost use Rattle.std.specs.Fs.{metadata_len, file_type, IsFile};
ghost use Rattle.sipd_reload.specs.File.{most_bytes};

use crate::file_fault::FileFault;
use crate::limits::short_stamp;
use crate::reading::read_configuration_file;
use crate::stamp::Stamp;
use crate::watched_file::WatchedFile;
use sip_text::Bytes;
use std::fs;
use std::fs::Metadata;
use std::os::unix::fs::MetadataExt;
use std::rt::Files;

/// The file that a path names when it is asked: another one may have been put in its place. What is no regular file is refused by
/// `stamp` alone, which a watch asks first. It tells nothing of what it answers, since what a file holds no clause can say.
#[derive(Drop)]
pub struct PathFile<'a, R> {
    rt: &'a R,
    path: &'a str,
}

impl<'a, R> PathFile<'a, R> {
    /// The file of this path, whatever it is by then.
    pub fn new(rt: &'a R, path: &'a str) -> Self {
        PathFile { rt, path }
    }
}

/// The stamp of a file of which the system says this. What is no regular file isn't read: reading it may take for ever.
fn stamp_of(found: &Metadata) -> Result<Stamp, FileFault>
    ensures length { IfOk result (λ stamp. stamp.length ≡ metadata_len found.now) }
    ensures plain { IfOk result (λ _. IsFile (file_type found.now)) }
    ensures short { IfOk result (λ stamp. stamp.length ≤ most_bytes) }
{
    if !found.is_file() {
        return Err(FileFault::Device);
    }
    short_stamp(Ok(Stamp {
        inode: found.ino(),
        seconds: u64::try_from(found.ctime()).unwrap_or(0),
        nanoseconds: u64::try_from(found.ctime_nsec()).unwrap_or(0),
        length: found.len(),
    }))
}

impl<'a, R: Files + AllocGlobal> WatchedFile for PathFile<'a, R> {
    ghost told = { λ _. None };

    fn stamp(&mut self) -> Result<Stamp, FileFault>
        ensures short { IfOk result (λ stamp. stamp.length ≤ most_bytes) }
    {
        match fs::metadata(self.rt, self.path) {
            Ok(found) => stamp_of(&found),
            Err(e) => Err(FileFault::of_kind(e.kind())),
        }
    }

    fn read(&mut self) -> Result<Bytes, FileFault>
        ensures short { IfOk result (λ bytes. length bytes ≤ most_bytes) }
    {
        match fs::File::open(self.rt, self.path) {
            Ok(mut file) => read_configuration_file(self.rt.alloc(), &mut file),
            Err(e) => Err(FileFault::of_kind(e.kind())),
        }
    }
}
