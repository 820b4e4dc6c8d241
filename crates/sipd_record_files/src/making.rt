//! The files of a start: made under the names of parts, and given their own names once they are whole and on the disk.
//! Which names a start in a folder has is said in `record_folder`.
ghost use Rattle.std.specs.Prelude.{◌≡◌, false, Err, Ok, IfErr, IfOk, option_map, string_bytes};
ghost use Rattle.std.specs.IoError.{error_kind};
ghost use Rattle.sipd_exit.specs.declared.exit.Exit.TheVariants.{Memory};
ghost use Rattle.sipd_record_files.specs.Places;
ghost use Rattle.sipd_record_files.specs.Unmade.{IsUnmade};

use crate::record_folder::files_in;
use sip_journal::{OnFault, RecordHead, Recorder, head_text};
use sip_record_sealed::{Follows, follows_line};
use sipd_exit::{Exit, RecordFault, RecordPlace, RecordSync, Stated};
use sipd_old_record::{RecordFile, new_file};
use std::fs::OpenFile;
use std::io::{ErrorKind, Write};
use std::rt::{Clock, Files};
use std::{fs, io};

/// A file that a start makes, which has the name of a part until all that it is to begin with stands in it.
pub struct NewFile {
    pub path: String,
    pub part: String,
}

/// Written out, so that it is proved once and not wherever one is dropped.
impl Drop for NewFile {
    fn drop(self) {
        let NewFile { path: _, part: _ } = self;
    }
}

/// The files of a start that records: the new record; a copy of the configuration, in a folder of records; and the record from which
/// the server goes on, if there is one.
pub struct RecordFiles {
    pub record: NewFile,
    pub copy: Option<NewFile>,
    pub old: Option<String>,
}

/// Written out, so that it is proved once and not wherever one is dropped.
impl Drop for RecordFiles {
    fn drop(self) {
        let RecordFiles {
            record: _,
            copy: _,
            old: _,
        } = self;
    }
}

/// A copy of a text.
pub fn copy_of<R: AllocGlobal>(rt: &R, text: &str) -> Result<String, Exit>
    ensures same { IfOk result (λ copy. string_bytes copy ≡ text.now) }
    ensures refused { IfErr result (λ exit. exit ≡ Memory) }
{
    Ok(String::from_str(rt.alloc(), text)?)
}

/// The file of a record that is named, and of the one from which it goes on.
fn named_place<R: AllocGlobal>(
    rt: &R,
    path: &str,
    resume: &Option<String>,
) -> Result<RecordFiles, Exit>
    ensures { IfOk result (Places.IsNamedPlace path.now (option_map (λ old. string_bytes old) resume.now)) }
{
    let record = NewFile {
        path: copy_of(rt, path)?,
        part: format!(in rt.alloc(); "{path}.part")?,
    };
    let old = match resume {
        Some(old) => Some(copy_of(rt, old.as_str())?),
        None => None,
    };
    Ok(RecordFiles {
        record,
        copy: None,
        old,
    })
}

/// The files of a start in a folder of records. Their parts have the same names at each start, so that what one left that was ended
/// is taken away by the next.
fn folder_place<R: Files + Clock + AllocGlobal>(rt: &R, folder: &str) -> Result<RecordFiles, Exit>
    ensures { IfOk result (Places.IsFolderPlace folder.now) }
{
    let files = made(files_in(rt, folder))?;
    let record = NewFile {
        path: files.path,
        part: format!(in rt.alloc(); "{folder}/new.part")?,
    };
    let copy = NewFile {
        path: files.copy,
        part: format!(in rt.alloc(); "{folder}/new.toml.part")?,
    };
    Ok(RecordFiles {
        record,
        copy: Some(copy),
        old: files.newest,
    })
}

/// The files of a start.
pub fn place_of<R: Files + Clock + AllocGlobal>(
    rt: &R,
    wanted: &RecordPlace,
) -> Result<RecordFiles, Exit>
    ensures { IfOk result (Places.IsPlaceOf wanted.now) }
{
    match wanted {
        RecordPlace::File { path, resume } => named_place(rt, path.as_str(), resume),
        RecordPlace::Folder(folder) => folder_place(rt, folder.as_str()),
    }
}

/// What a recorder does where an event can't be written.
fn on_fault(fault: RecordFault) -> OnFault
    ensures { result ≡ Places.on_fault fault }
{
    match fault {
        RecordFault::GoOn => OnFault::GoOn,
        RecordFault::End => OnFault::End,
    }
}

/// Why a file of a record isn't made: its name can't be had; or it can't be written, as anything might not be.
fn exit_of_making(e: io::Error) -> Exit
    ensures exit { result ≡ Places.exit_of_making (error_kind e) }
    ensures unmade { IsUnmade result }
{
    match e.kind() {
        ErrorKind::OutOfMemory => Exit::Memory,
        ErrorKind::AlreadyExists
        | ErrorKind::NotFound
        | ErrorKind::PermissionDenied
        | ErrorKind::NotADirectory
        | ErrorKind::IsADirectory
        | ErrorKind::ReadOnlyFilesystem
        | ErrorKind::FilesystemLoop
        | ErrorKind::InvalidFilename
        | ErrorKind::InvalidInput
        | ErrorKind::Unsupported => Exit::NewRecord,
        _ => Exit::Recording,
    }
}

/// What came of a call on a file of a record.
fn made<V: Drop>(outcome: io::Result<V>) -> Result<V, Exit>
    ensures same { IfOk result (λ value. outcome ≡ Ok value) }
    ensures done { IfOk outcome (λ value. result ≡ Ok value) }
    ensures refused { IfErr outcome (λ e. result ≡ Err (Places.exit_of_making (error_kind e))) }
    ensures unmade { IfErr result IsUnmade }
{
    match outcome {
        Ok(value) => Ok(value),
        Err(e) => Err(exit_of_making(e)),
    }
}

/// Refuses a record whose name a file has.
pub fn check_free<R: Files>(rt: &R, place: &RecordFiles) -> Result<(), Exit>
    ensures { IfErr result IsUnmade }
{
    if made(fs::exists(rt, place.record.path.as_str()))? {
        Err(Exit::NewRecord)
    } else {
        Ok(())
    }
}

/// Writes the configuration beside its record, for its owner alone.
fn write_copy<R: Files>(rt: &R, path: &str, bytes: &[u8]) -> io::Result<()> {
    let mut file = new_file(rt, path)?;
    file.write_all(bytes)?;
    file.flush()?;
    file.sync_all()
}

/// A new file that has the first line of a record, and behind that which record it follows, where it follows one.
fn begin_part<'a, R: Files + AllocGlobal>(
    rt: &'a R,
    path: &str,
    head: &RecordHead,
    follows: Option<&Follows>,
) -> Result<RecordFile<'a, R>, Exit>
    ensures { IfErr result IsUnmade }
{
    let line = head_text(rt.alloc(), head)?;
    let path = copy_of(rt, path)?;
    let mut file = made(RecordFile::create(rt, path, line.as_slice()))?;
    let Some(follows) = follows else {
        return Ok(file);
    };
    let line = follows_line(rt.alloc(), follows)?;
    made(file.write_all(line.as_slice()))?;
    Ok(file)
}

/// A recorder into a new file that has the first line of a record, and behind that which record it follows, where it follows one. It hasn't its name
/// yet; one that is there is never written over.
pub fn make_part<'a, R: Files + AllocGlobal>(
    rt: &'a R,
    place: &RecordFiles,
    head: &RecordHead,
    stated: &Stated,
    fault: RecordFault,
    follows: Option<&Follows>,
) -> Result<Recorder<RecordFile<'a, R>>, Exit>
    ensures whole { IfOk result (λ recorder. recorder.has_failed ≡ false) }
    ensures on_fault { IfOk result (λ recorder. recorder.on_fault ≡ Places.on_fault fault) }
    ensures refused { IfErr result IsUnmade }
{
    remove_part(rt, place);
    if let Some(copy) = &place.copy {
        made(write_copy(rt, copy.part.as_str(), stated.bytes.as_slice()))?;
    }
    let file = begin_part(rt, place.record.part.as_str(), head, follows)?;
    Ok(Recorder::new(rt.alloc(), file, on_fault(fault))?)
}

/// The folder in which a file is.
pub fn folder_of(path: &str) -> &str {
    match path.rsplit_once('/') {
        Some((folder, _)) if !folder.is_empty() => folder,
        Some(_) => "/",
        None => ".",
    }
}

/// Has the system put the names of a folder on the disk, where it can.
fn sync_folder<R: Files>(rt: &R, path: &str) {
    if let Ok(folder) = fs::File::open(rt, folder_of(path)) {
        let _ = folder.sync_all();
    }
}

/// Gives a part its name, unless a file has that.
fn name_file<R: Files>(rt: &R, file: &NewFile) -> Result<(), Exit>
    ensures { IfErr result IsUnmade }
{
    made(fs::hard_link(rt, file.part.as_str(), file.path.as_str()))?;
    let _ = fs::remove_file(rt, file.part.as_str());
    Ok(())
}

/// Gives the copy of the configuration its name, and then the record; or none of them.
fn name_files<R: Files>(rt: &R, place: &RecordFiles) -> Result<(), Exit>
    ensures { IfErr result IsUnmade }
{
    let Some(copy) = &place.copy else {
        return name_file(rt, &place.record);
    };
    name_file(rt, copy)?;
    let named = name_file(rt, &place.record);
    if named.is_err() {
        let _ = fs::remove_file(rt, copy.path.as_str());
    }
    named
}

/// Gives a record its name once what was written of it is on the disk, unless a file has that name; what is written from then on is put there when
/// that is asked for.
pub fn name_part<R: Files + AllocGlobal>(
    rt: &R,
    place: &RecordFiles,
    file: &mut RecordFile<'_, R>,
    sync: RecordSync,
) -> Result<(), Exit>
    ensures { IfErr result IsUnmade }
{
    let path = copy_of(rt, place.record.path.as_str())?;
    made(file.sync())?;
    name_files(rt, place)?;
    sync_folder(rt, path.as_str());
    file.rename(path, sync);
    Ok(())
}

/// Takes away what a start left of files that haven't their names.
pub fn remove_part<R: Files>(rt: &R, place: &RecordFiles) {
    let _ = fs::remove_file(rt, place.record.part.as_str());
    if let Some(copy) = &place.copy {
        let _ = fs::remove_file(rt, copy.part.as_str());
    }
}
