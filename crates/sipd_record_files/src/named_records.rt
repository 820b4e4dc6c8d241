//! The files of records that are named, one by one or by their folder.
ghost use Rattle.std.specs.Prelude.{◌≡◌, ◌++◌, ◌∷◌, [], codes, map, string_bytes, IfOk, OnOk};
ghost use Rattle.sipd_record_files.specs.Named.{AddsFiles, AreNamed};
ghost use Rattle.sipd_record_files.specs.RecordNames;

use crate::making::copy_of;
use crate::record_folder::{name_of, numbers_in};
use sipd_exit::Exit;
use std::fs;
use std::rt::Files;

/// Whether a path finds a folder.
pub fn is_folder<R: Files>(rt: &R, path: &str) -> bool {
    match fs::metadata(rt, path) {
        Ok(found) => found.is_dir(),
        Err(_) => false,
    }
}

/// Adds the name of a record in a folder.
fn push_name<R: AllocGlobal>(
    rt: &R,
    folder: &str,
    number: u64,
    files: &mut Vec<String>,
) -> Result<(), Exit>
    ensures { OnOk result (map string_bytes files.new.items ≡ map string_bytes files.old.items ++ RecordNames.name_of folder.now number (codes "record") ∷ []) }
{
    let name = name_of(rt, folder, number, "record")?;
    files.push(name)?;
    Ok(())
}

/// Adds the names of records in a folder.
fn push_names<R: AllocGlobal>(
    rt: &R,
    folder: &str,
    numbers: &[u64],
    files: &mut Vec<String>,
) -> Result<(), Exit>
    ensures { OnOk result (map string_bytes files.new.items ≡ map string_bytes files.old.items
        ++ map (λ n. RecordNames.name_of folder.now n (codes "record")) numbers.now) }
{
    for number in numbers {
        push_name(rt, folder, *number, files)?;
    }
    Ok(())
}

/// Adds what a folder names: its records, in the order of their numbers.
fn push_folder<R: Files + AllocGlobal>(
    rt: &R,
    folder: &str,
    files: &mut Vec<String>,
) -> Result<(), Exit>
    ensures { OnOk result (AddsFiles folder.now (map string_bytes files.old.items) (map string_bytes files.new.items)) }
{
    let numbers = numbers_in(rt, folder, b"record")?;
    push_names(rt, folder, numbers.as_slice(), files)
}

/// Adds a name as it is.
fn push_path<R: AllocGlobal>(rt: &R, path: &str, files: &mut Vec<String>) -> Result<(), Exit>
    ensures { OnOk result (map string_bytes files.new.items ≡ map string_bytes files.old.items ++ path.now ∷ []) }
{
    let name = copy_of(rt, path)?;
    files.push(name)?;
    Ok(())
}

/// Adds what a path names: a file, or the records of a folder.
fn push_files<R: Files + AllocGlobal>(
    rt: &R,
    path: &str,
    files: &mut Vec<String>,
) -> Result<(), Exit>
    ensures { OnOk result (AddsFiles path.now (map string_bytes files.old.items) (map string_bytes files.new.items)) }
{
    if is_folder(rt, path) {
        return push_folder(rt, path, files);
    }
    push_path(rt, path, files)
}

/// The files of records that are named: each as it is, and in the place of a folder its records, in the order of their numbers. Which of them finds
/// a folder, and what stands in it, no clause can say.
pub fn record_files<R: Files + AllocGlobal>(rt: &R, paths: &[String]) -> Result<Vec<String>, Exit>
    ensures { IfOk result (λ files. AreNamed (map string_bytes paths.now) (map string_bytes files.items)) }
{
    let mut files = Vec::new(rt.alloc());
    for path in paths {
        push_files(rt, path.as_str(), &mut files)?;
    }
    Ok(files)
}
