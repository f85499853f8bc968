use rip_diagnostics::{Listing, Wishes, explain_script, list_nodes};
use rip_outer::{Files, Sink};
use rip_script::Status;
use std::env;
use std::io::{IsTerminal, Write};

/// The file of the words `nodes PAGE`.
pub fn page_of(words: &[String]) -> Option<&str> {
    match words {
        [word, page] if word.as_str() == "nodes" => Some(page.as_str()),
        _ => None,
    }
}

/// Lists the nodes of a page.
pub fn nodes<F: Files, S: Sink>(
    rt: &HostRuntime,
    page: &str,
    files: &mut F,
    sink: &mut S,
) -> Status {
    match list_nodes(rt.alloc(), page, files, sink) {
        Listing::Done => Status::Done,
        Listing::Refused => Status::BadScript,
        Listing::Outside => Status::Outside,
        Listing::NoMemory => Status::NoMemory,
    }
}

/// Says on standard error, in colours where that is a terminal and `NO_COLOR` is not set, why a script is refused. That it
/// cannot be said changes nothing.
pub fn print<F: Files>(rt: &HostRuntime, words: &[String], files: &mut F) {
    let is_plain = match env::var(rt, "NO_COLOR") {
        Ok(value) => !value.is_empty(),
        Err(_) => false,
    };
    let wishes = Wishes {
        is_coloured: rt.stderr().is_terminal() && !is_plain,
        shows_all: false,
    };
    if let Ok(text) = explain_script(rt.alloc(), words, files, wishes) {
        let _written = rt.stderr().write_all(text.as_slice());
    }
}
