//! What the program says to people on standard error, by how the run ended. Nothing else depends on it: where it can't be
//! written, status and output are the same.
use rip_cli::Status;
use rip_real::{Unread, say_failure, say_unread};
use std::alloc::Global;
use std::io;

/// The program's name in what it says.
const PROGRAM: &str = "ripley";

/// The forms of its arguments.
const FORMS: &str =
    "check PAGE APP | replay PAGE APP TRACE [--turns=N] | serve PAGE APP ADDRESS [--turns=N] | drive PAGE APP GESTURES | generate N";

/// What is known of how a run ended: why files, output, random words and door failed, where they did.
#[derive(Drop)]
pub struct Ending<'a> {
    pub file: Option<&'a Unread>,
    pub output: Option<io::Error>,
    pub random: Option<io::Error>,
    pub door: Option<io::Error>,
}

/// Says how the run ended that the arguments ask for, unless all was done. What is wrong with input that is refused is said
/// by `diagnostics`.
pub fn say_end<R: Eprint>(
    rt: &R,
    alloc: Global,
    words: &[String],
    status: Status,
    ending: &Ending<'_>,
) {
    let _said = match status {
        Status::Read | Status::BadInput => Ok(()),
        Status::BadWords => eprintln!(rt; "{PROGRAM}: no such arguments; they are {FORMS}"),
        Status::TurnsSpent => {
            eprintln!(rt;
                "{PROGRAM}: the turns are spent, and not all is done: give more by --turns=N"
            )
        }
        Status::Outside => {
            say_outside(rt, alloc, words, ending);
            Ok(())
        }
        Status::NoMemory => say_no_memory(rt),
    };
}

/// Says that memory ran out.
pub fn say_no_memory<R: Eprint>(rt: &R) -> io::Result<()> {
    eprintln!(rt; "{PROGRAM}: out of memory: give it more, or lower the limits of the manifest")
}

/// The argument at a place, counted from the command on.
fn argument(words: &[String], place: usize) -> &str {
    match words.get(place) {
        Some(word) => word.as_str(),
        None => "",
    }
}

/// Says what of the outside failed: of several the first that was needed.
fn say_outside<R: Eprint>(rt: &R, alloc: Global, words: &[String], ending: &Ending<'_>) {
    if let Some(unread) = ending.file {
        say_unread(rt, alloc, PROGRAM, unread);
    } else if let Some(error) = ending.output {
        say_failure(rt, alloc, PROGRAM, "standard output", error);
    } else if let Some(error) = ending.random {
        say_failure(rt, alloc, PROGRAM, "random numbers of the system", error);
    } else if let Some(error) = ending.door {
        say_failure(rt, alloc, PROGRAM, argument(words, 3), error);
    }
}
