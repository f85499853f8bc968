//! What is said to people on standard error. Nothing else depends on it: where it can't be written, the run is the same.
use crate::files::Unread;
use std::alloc::Global;
use std::io;

/// Says what failed, and why, in the system's words.
pub fn say_failure<R: Eprint>(rt: &R, alloc: Global, program: &str, what: &str, error: io::Error) {
    let _said = match format!(in alloc; "{error}") {
        Ok(text) => {
            let cause = without_number(text.as_str());
            eprintln!(rt; "{program}: {what}: {cause}")
        }
        Err(_) => eprintln!(rt; "{program}: {what}: {error}"),
    };
}

/// Says which file could not be read, and why.
pub fn say_unread<R: Eprint>(rt: &R, alloc: Global, program: &str, unread: &Unread) {
    let name = match &unread.name {
        Some(name) => name.as_str(),
        None => "a file",
    };
    say_failure(rt, alloc, program, name, unread.error);
}

/// The text of an error without the number that the system has for it.
fn without_number(text: &str) -> &str {
    match text.split_once(" (os error ") {
        Some((cause, _)) => cause,
        None => text,
    }
}
