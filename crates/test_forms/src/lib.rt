//! The forms of tests: what a call gives is lent to a predicate, and dropped here alone; a line for each case; and the files of
//! a stored run.
#![tactic(auto)]

mod damage;
pub mod names;
pub mod stored;

use std::io;

/// Whether a value is given, and is right.
pub fn gives<T: Drop, E: Drop, F: FnOnce(&T) -> bool>(given: Result<T, E>, is_right: F) -> bool
    requires { F.IsAlwaysCallable is_right }
{
    match given {
        Ok(value) => is_right(&value),
        Err(_) => false,
    }
}

/// Whether a reading says something, and the right thing.
pub fn says<T: Drop, E: Drop, F: FnOnce(&T) -> bool>(
    said: Result<Option<T>, E>,
    is_right: F,
) -> bool
    requires { F.IsAlwaysCallable is_right }
{
    match said {
        Ok(Some(value)) => is_right(&value),
        Ok(None) => false,
        Err(_) => false,
    }
}

/// Whether a reading says nothing, with ample memory.
pub fn says_nothing<T: Drop, E: Drop>(said: Result<Option<T>, E>) -> bool {
    matches!(said, Ok(None))
}

/// Whether this text is given.
pub fn gives_text<E: Drop>(given: Result<String, E>, wanted: &str) -> bool {
    match given {
        Ok(text) => text.as_str() == wanted,
        Err(_) => false,
    }
}

/// Prints whether the case of this name holds.
pub fn tell<R: Print>(rt: &R, name: &str, holds: bool) -> io::Result<()> {
    if holds {
        println!(rt; "{name} holds")
    } else {
        println!(rt; "{name} FAILS")
    }
}
