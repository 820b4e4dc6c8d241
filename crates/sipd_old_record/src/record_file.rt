//! The file of a record as the system has it: made for its owner alone, marked in its first word, and looked at whether it is still there.
//! What is written into it is in `sip_journal`.
use sip_journal::RecordMark;
use sip_record_sealed::{Digesting, Unsealing, seal_line};
use sipd_exit::RecordSync;
use std::alloc::Global;
use std::fs::{OpenFile, OpenOptions};
use std::io::{BufReader, ErrorKind, Read, Seek, SeekFrom, Write};
use std::os::unix::fs::OpenOptionsExt;
use std::rt::{Clock, Files};
use std::time::Instant;
use std::{fs, io};

/// The permissions of a record: its owner's alone, since it holds messages and what phones prove their users with.
const OWNERS: u32 = 0o600;

/// For how many milliseconds at least what was written stands there without a digest.
const HALF_MINUTE: u128 = 30_000;

/// The file of a record, into which events are written behind what it holds.
pub struct RecordFile<'a, R: Files> {
    rt: &'a R,
    /// By which name its file is found.
    path: String,
    /// What is written to it goes to the file's end, wherever that is.
    file: R::File,
    /// What writes over the file's first word.
    marks: R::File,
    /// How many bytes were written.
    written: u64,
    /// How many of them stand in front of the end of the last line with a digest.
    sealed: u64,
    /// When that was written.
    sealed_at: Option<Instant>,
    /// The digest in that line.
    sealed_as: Option<[u8; 32]>,
    /// When what is written is put on the disk.
    sync: RecordSync,
    /// How many bytes were put there.
    synced: u64,
    /// What was written, as it is digested.
    digesting: Digesting,
    /// Whether that ends a line.
    ends_line: bool,
    /// Whether it was seen that its name doesn't find them.
    lost: bool,
}

/// Written out, so that it is proved once and not wherever one is dropped.
impl<'a, R: Files> Drop for RecordFile<'a, R> {
    fn drop(self) {
        let RecordFile {
            rt: _,
            path: _,
            file: _,
            marks: _,
            written: _,
            sealed: _,
            sealed_at: _,
            sealed_as: _,
            sync: _,
            synced: _,
            digesting: _,
            ends_line: _,
            lost: _,
        } = self;
    }
}

/// A new file for its owner alone, which is written at its end; one that is there is never written over.
pub fn new_file<R: Files>(rt: &R, path: &str) -> io::Result<R::File> {
    OpenOptions::new()
        .append(true)
        .create_new(true)
        .mode(OWNERS)
        .open(rt, path)
}

/// What writes over the first bytes of a file that is there.
fn marks_of<R: Files>(rt: &R, path: &str) -> io::Result<R::File> {
    OpenOptions::new().write(true).open(rt, path)
}

/// Writes a mark in the place of a file's first word, and has the system put it on the disk.
fn write_mark<F: Write + Seek + OpenFile>(file: &mut F, mark: RecordMark) -> io::Result<()> {
    file.seek(SeekFrom::Start(0))?;
    file.write_all(&mark.front())?;
    file.flush()?;
    file.sync_all()
}

/// Writes a mark in the place of the first word of the record that has this name. What is no regular file isn't opened, since a named pipe
/// would wait for who reads it: `Unsupported`.
pub fn mark_file<R: Files>(rt: &R, path: &str, mark: RecordMark) -> io::Result<()> {
    if !fs::metadata(rt, path)?.is_file() {
        return Err(io::Error::from(ErrorKind::Unsupported));
    }
    let mut file = marks_of(rt, path)?;
    write_mark(&mut file, mark)
}

impl<'a, R: Files> RecordFile<'a, R> {
    /// A new file that begins with a line; one that is there is never written over. Until it is named what is written is put on the disk when
    /// that is asked for.
    pub fn create(rt: &'a R, path: String, line: &[u8]) -> io::Result<Self> {
        let file = new_file(rt, path.as_str())?;
        let marks = marks_of(rt, path.as_str())?;
        let mut made = RecordFile {
            rt,
            path,
            file,
            marks,
            written: 0,
            sealed: 0,
            sealed_at: None,
            sealed_as: None,
            sync: RecordSync::Never,
            synced: 0,
            digesting: Digesting::new(),
            ends_line: false,
            lost: false,
        };
        made.write_all(line)?;
        Ok(made)
    }

    /// How many bytes were written.
    pub fn size(&self) -> u64 {
        self.written
    }

    /// By which name it is found from now on, and when what is written is put on the disk.
    pub fn rename(&mut self, path: String, sync: RecordSync) {
        self.path = path;
        self.sync = sync;
    }

    /// Has the system put on the disk what was written.
    pub fn sync(&mut self) -> io::Result<()> {
        self.file.flush()?;
        self.file.sync_all()?;
        self.synced = self.written;
        Ok(())
    }

    /// The same of what was written since it did that last, where it is to do so by itself.
    fn sync_rest(&mut self) -> io::Result<()> {
        if self.synced == self.written {
            return Ok(());
        }
        self.file.sync_data()?;
        self.synced = self.written;
        Ok(())
    }

    /// The same, where that is asked for with each event.
    fn sync_each(&mut self) -> io::Result<()> {
        match self.sync {
            RecordSync::Each => self.sync_rest(),
            RecordSync::Second | RecordSync::Never => Ok(()),
        }
    }

    /// The same, where that is asked for each second, or with each event.
    pub fn sync_if_asked(&mut self) -> io::Result<()> {
        match self.sync {
            RecordSync::Each | RecordSync::Second => self.sync_rest(),
            RecordSync::Never => Ok(()),
        }
    }

    /// The digest in its last line, where that holds one.
    pub fn end_digest(&self) -> Option<[u8; 32]> {
        if self.written == self.sealed {
            self.sealed_as
        } else {
            None
        }
    }

    /// Writes the digest of all that was written, unless that stands there already, or a line isn't whole.
    pub fn seal(&mut self) -> io::Result<()> {
        if self.written == self.sealed || !self.ends_line {
            return Ok(());
        }
        let digest = self.digesting.digest()?;
        self.write_all(&seal_line(&digest))?;
        self.sealed = self.written;
        self.sealed_as = Some(digest);
        self.file.flush()
    }

    /// Looks whether what its name finds is as long as what was written: a file that was taken away, changed for another or cut isn't.
    pub fn is_lost(&mut self) -> bool {
        self.lost = match fs::metadata(self.rt, self.path.as_str()) {
            Ok(found) => found.len() != self.written,
            Err(_) => true,
        };
        self.lost
    }

    /// Whether that was seen when it was looked at last.
    pub fn was_lost(&self) -> bool {
        self.lost
    }

    /// Writes a mark in the place of its first word, whatever its name is by now.
    pub fn mark(&mut self, mark: RecordMark) -> io::Result<()> {
        write_mark(&mut self.marks, mark)
    }
}

impl<'a, R: Files> Write for RecordFile<'a, R> {
    fn write(&mut self, bytes: &[u8]) -> io::Result<usize> {
        let taken = self.file.write(bytes)?;
        self.written = self.written.saturating_add(taken as u64);
        if let Some(part) = bytes.get(..taken) {
            self.note(part);
        }
        Ok(taken)
    }

    /// Where that is asked for with each event, what was written is on the disk behind it.
    fn flush(&mut self) -> io::Result<()> {
        self.file.flush()?;
        self.sync_each()
    }
}

impl<'a, R: Files> RecordFile<'a, R> {
    /// Bytes that were written.
    fn note(&mut self, bytes: &[u8]) {
        self.digesting.take(bytes);
        if let Some(last) = bytes.last() {
            self.ends_line = *last == b'\n';
        }
    }
}

impl<'a, R: Files + Clock> RecordFile<'a, R> {
    /// Whether the last digest was written so lately that no other one is needed.
    fn is_sealed_lately(&self) -> bool {
        let Some(at) = self.sealed_at else {
            return false;
        };
        match at.elapsed(self.rt) {
            Ok(passed) => passed.as_millis() < HALF_MINUTE,
            Err(_) => false,
        }
    }

    /// Writes a digest, where something was written since the last one, and that one isn't of the last half minute.
    pub fn seal_if_due(&mut self) -> io::Result<()> {
        if self.written == self.sealed || self.is_sealed_lately() {
            return Ok(());
        }
        self.seal()?;
        self.sealed_at = Instant::now(self.rt).ok();
        Ok(())
    }
}

/// Reads a file up to its end.
fn read_out<I: Read>(reader: &mut I) -> io::Result<()> {
    let mut part = [0u8; 4096];
    for _ in 0..u64::MAX {
        if reader.read(&mut part)? == 0 {
            return Ok(());
        }
    }
    Ok(())
}

/// What is known of a record's file behind which nothing more is written.
#[derive(Clone, Copy)]
pub struct SealedFile {
    /// The digest in its last line; none, where it ends in the front of a line.
    pub digest: Option<[u8; 32]>,
    /// Whether it held none before.
    pub was_unsealed: bool,
}

/// Writes a line at the end of a file, and has the system put it on the disk.
fn write_end<R: Files>(rt: &R, path: &str, line: &[u8]) -> io::Result<()> {
    let mut end = OpenOptions::new().append(true).open(rt, path)?;
    end.write_all(line)?;
    end.flush()?;
    end.sync_all()
}

/// Writes behind what a record's file holds the digest of that, unless it ends with one, or in the front of a line. `InvalidData`, where it disagrees
/// with one before. What is no regular file isn't opened: `Unsupported`.
pub fn seal_file<R: Files>(rt: &R, alloc: Global, path: &str) -> io::Result<SealedFile> {
    if !fs::metadata(rt, path)?.is_file() {
        return Err(io::Error::from(ErrorKind::Unsupported));
    }
    let reader = BufReader::new(alloc, fs::File::open(rt, path)?)?;
    let mut file = Unsealing::new(alloc, reader)?;
    read_out(&mut file)?;
    let was_unsealed = file.seals() == 0;
    if !file.wants_seal() {
        return Ok(SealedFile {
            digest: file.end_digest(),
            was_unsealed,
        });
    }
    let digest = file.digest()?;
    write_end(rt, path, &seal_line(&digest))?;
    Ok(SealedFile {
        digest: Some(digest),
        was_unsealed,
    })
}
