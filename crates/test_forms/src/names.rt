use std::alloc::{AllocError, Global};
use std::fs::DirEntry;
use std::rt::Files;
use std::{fs, io};

/// Adds a word to a list.
pub(crate) fn push_word(
    alloc: Global,
    words: &mut Vec<String>,
    word: &str,
) -> Result<(), AllocError> {
    words.push(String::from_str(alloc, word)?)?;
    Ok(())
}

/// Adds the name of the run that a file is of.
fn push_name<R: Files + AllocGlobal + Drop>(
    alloc: Global,
    names: &mut Vec<String>,
    entry: io::Result<DirEntry<R>>,
) -> io::Result<()> {
    let entry = entry?;
    match entry.file_name().rsplit_once('.') {
        Some((name, _)) => Ok(push_word(alloc, names, name)?),
        None => Ok(()),
    }
}

/// Adds the names of the runs that a folder's files are of, in the order of its listing.
fn push_names<R: Files + AllocGlobal + Clone + Drop>(
    rt: &R,
    names: &mut Vec<String>,
    folder: &str,
) -> io::Result<()> {
    for entry in fs::read_dir(rt, folder)? {
        push_name(rt.alloc(), names, entry)?;
    }
    Ok(())
}

/// The names of the runs of a folder, each once and in order.
pub fn names_in<R: Files + AllocGlobal + Clone + Drop>(
    rt: &R,
    folder: &str,
) -> io::Result<Vec<String>> {
    let mut names = Vec::new(rt.alloc());
    push_names(rt, &mut names, folder)?;
    names.sort()?;
    names.dedup();
    Ok(names)
}
