//! The program `script`: the words of the command line, real files and standard output, handed to the top call; `nodes PAGE`
//! lists the nodes of a page. What people are told of it goes to standard error.
#![tactic(auto)]

mod diagnostics;
mod messages;

use messages::{say_end, say_no_memory};
use rip_real::{HostFiles, HostSink};
use rip_script::{Status, script};
use std::alloc::Global;
use std::process::ExitCode;
use std::rt::Env;
use std::{env, io};

/// The words behind the program's name.
fn words(rt: &(impl Env + AllocGlobal), alloc: Global) -> io::Result<Vec<String>> {
    let mut words = Vec::new(alloc);
    for word in env::args(rt)?.skip(1) {
        words.push(word)?;
    }
    Ok(words)
}

/// Words that are no text are answered as other words are; want of memory for them ends the run.
fn main(rt: HostRuntime) -> ExitCode {
    let alloc = rt.alloc();
    let words = match words(&rt, alloc) {
        Ok(words) => words,
        Err(error) if error.kind() == io::ErrorKind::OutOfMemory => {
            let _said = say_no_memory(&rt);
            return ExitCode::from(Status::NoMemory as u8);
        }
        Err(_) => Vec::new(alloc),
    };
    let mut files = HostFiles::new(&rt);
    let mut sink = HostSink::new(io::writer(&rt));
    if let Some(page) = diagnostics::page_of(words.as_slice()) {
        let status = diagnostics::nodes(&rt, page, &mut files, &mut sink);
        say_end(&rt, alloc, words.as_slice(), status, &files, &sink);
        return ExitCode::from(status as u8);
    }
    let status = script(alloc, words.as_slice(), &mut files, &mut sink);
    say_end(&rt, alloc, words.as_slice(), status, &files, &sink);
    if matches!(status, Status::BadScript) {
        diagnostics::print(&rt, words.as_slice(), &mut files);
    }
    ExitCode::from(status as u8)
}
