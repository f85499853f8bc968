//! What the program says to people on standard error, by how the run ended. Nothing else depends on it: where it can't be
//! written, status and output are the same.
use rip_real::{HostFiles, HostSink, say_failure, say_unread};
use rip_script::Status;
use std::alloc::Global;
use std::io;

/// The program's name in what it says.
const PROGRAM: &str = "script";

/// Says how the run ended that the arguments ask for, unless all was done. What is wrong with a script that is refused is said
/// by `diagnostics`.
pub fn say_end<R: Eprint, W>(
    rt: &R,
    alloc: Global,
    words: &[String],
    status: Status,
    files: &HostFiles<'_, R>,
    sink: &HostSink<W>,
) {
    let _said = match status {
        Status::Done | Status::BadScript => Ok(()),
        Status::BadWords => {
            eprintln!(rt;
                "{PROGRAM}: no such arguments; they are tokens FILE | tree FILE | run FILE [FUEL [CELLS [UNITS [DEPTH]]]] | nodes PAGE"
            )
        }
        Status::Outside => {
            say_outside(rt, alloc, files, sink);
            Ok(())
        }
        Status::NoMemory => say_no_memory(rt),
    };
}

/// Says that memory ran out.
pub fn say_no_memory<R: Eprint>(rt: &R) -> io::Result<()> {
    eprintln!(rt; "{PROGRAM}: out of memory: give it more, or lower the limits of the run")
}

/// Says what of the outside failed.
fn say_outside<R: Eprint, W>(rt: &R, alloc: Global, files: &HostFiles<'_, R>, sink: &HostSink<W>) {
    if let Some(unread) = files.failure() {
        say_unread(rt, alloc, PROGRAM, unread);
    } else if let Some(error) = sink.failure() {
        say_failure(rt, alloc, PROGRAM, "standard output", error);
    }
}
