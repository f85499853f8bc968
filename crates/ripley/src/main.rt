//! The program `ripley`: the words of the command line, real files, standard output, and, where the words ask to serve, a
//! TCP door, handed to the top call. What people are told of it goes to standard error.
#![tactic(auto)]

mod diagnostics;
mod messages;

use messages::{Ending, say_end, say_no_memory};
use rip_cli::{Status, ripley};
use rip_diagnostics::Noting;
use rip_real::{HostFiles, HostSink, RealOutside, real_outside};
use rip_words::{Command, command_of};
use std::alloc::Global;
use std::cell::Cell;
use std::process::ExitCode;
use std::rt::Env;
use std::{env, io};

/// The words behind the program's name.
fn words(rt: &(impl Env + AllocGlobal), alloc: Global) -> io::Result<Vec<String>> {
    let mut words = Vec::new(alloc);
    for word in env::args(rt)?.skip(1) {
        words.push(word)?;
    }
    Ok(words)
}

/// The address at which the words ask to serve.
fn address(words: &[String]) -> Option<&str> {
    match command_of(words)? {
        Command::Serve { address, .. } => Some(address),
        _ => None,
    }
}

/// Words that are no text are answered as other words are; want of memory for them ends the run.
fn main(rt: HostRuntime) -> ExitCode {
    let alloc = rt.alloc();
    let words = match words(&rt, alloc) {
        Ok(words) => words,
        Err(error) if error.kind() == io::ErrorKind::OutOfMemory => {
            let _said = say_no_memory(&rt);
            return ExitCode::from(Status::NoMemory as u8);
        }
        Err(_) => Vec::new(alloc),
    };
    let random_failure = Cell::new(None);
    let mut files = HostFiles::new(&rt);
    let mut noting = Noting::new(alloc, io::writer(&rt));
    let mut sink = HostSink::new(&mut noting);
    let RealOutside {
        mut door,
        mut clock,
        words: mut random,
    } = real_outside(
        &rt,
        alloc,
        address(words.as_slice()),
        &random_failure,
        rt.stderr(),
    );
    let status = ripley(
        alloc,
        words.as_slice(),
        &mut files,
        &mut door,
        &mut clock,
        &mut random,
        &mut sink,
    );
    let ending = Ending {
        file: files.failure(),
        output: sink.failure(),
        random: random_failure.get(),
        door: door.failure(),
    };
    say_end(&rt, alloc, words.as_slice(), status, &ending);
    diagnostics::print(&rt, words.as_slice(), &mut files, status, noting.line());
    ExitCode::from(status as u8)
}
