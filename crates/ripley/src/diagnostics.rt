use rip_cli::Status;
use rip_diagnostics::{Wishes, explain};
use rip_outer::Files;
use std::env;
use std::io::{IsTerminal, Write};

/// Whether a variable of the environment is set and not empty.
fn is_set(rt: &HostRuntime, name: &str) -> bool {
    match env::var(rt, name) {
        Ok(value) => !value.is_empty(),
        Err(_) => false,
    }
}

/// What a person wants to be told: colours where standard error is a terminal and `NO_COLOR` is not set, and all refusals
/// where `RIPLEY_ALL` is set.
fn wishes(rt: &HostRuntime) -> Wishes {
    Wishes {
        is_coloured: rt.stderr().is_terminal() && !is_set(rt, "NO_COLOR"),
        shows_all: is_set(rt, "RIPLEY_ALL"),
    }
}

/// Says on standard error what there is to say of a run that ended so. That it cannot be said changes nothing.
pub fn print<F: Files>(
    rt: &HostRuntime,
    words: &[String],
    files: &mut F,
    status: Status,
    noted: &[u8],
) {
    let is_refused = match status {
        Status::Read | Status::TurnsSpent => false,
        Status::BadInput => true,
        Status::BadWords | Status::Outside | Status::NoMemory => return,
    };
    if let Ok(text) = explain(rt.alloc(), words, files, is_refused, noted, wishes(rt)) {
        let _written = rt.stderr().write_all(text.as_slice());
    }
}
