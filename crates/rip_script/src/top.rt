ghost use Rattle.std.specs.Prelude.{◌≡◌, ◌≤◌, length, map, string_bytes, List, ℕ};
ghost use Rattle.rip_outer.specs.Reading.{longest_file};
ghost use Rattle.rip_script.specs.Given.{AnswersBytes, DrawsTree, IsRun, ListsTokens, RefusesBytes, RefusesRun, RefusesTokens, RefusesTree, refusal_line};
ghost use Rattle.rip_script.specs.Run.{Ran};
ghost use Rattle.rip_script.specs.Steps.{CountsStatus, IsWhole, PutsStop, PutsThen, Settles, status_after};
ghost use Rattle.rip_script.specs.Words.{task_of};

use crate::checked::read_program;
use crate::draw::put_tree;
use crate::evaluate::evaluate;
use crate::list::put_tokens;
use crate::read::{Script, read_tree};
use crate::refusal::{Refusal, Stop};
use crate::report::put_run;
use crate::status::Status;
use crate::words::{Command, RunLimits, command_of};
use rip_outer::{Files, FilesError, Sink, SinkError};
use std::alloc::Global;

/// What other words are answered.
const USAGE: &[u8] =
    b"usage: script tokens FILE | script tree FILE | script run FILE [FUEL [CELLS [UNITS [DEPTH]]]]\n";

/// The status of a run that puts all that is due, where putting ended so.
fn status_after(put: Result<(), SinkError>, due: Status) -> Status
    ensures { result ≡ status_after put due }
{
    match put {
        Ok(()) => due,
        Err(SinkError::Failed) => Status::Outside,
        Err(SinkError::Memory) => Status::NoMemory,
    }
}

/// Puts a line, after which the run ends with this status.
fn put_line<S: Sink>(line: &[u8], status: Status, out: &mut S) -> Status
    requires { IsWhole status }
    ensures put { PutsThen status result line.now (S.held out.old) (S.held out.new) }
    ensures counted { CountsStatus result (S.count out.old) (S.count out.new) }
{
    status_after(out.put(line), status)
}

/// Puts the line for a refusal.
fn refuse<S: Sink>(alloc: Global, refusal: Refusal, out: &mut S) -> Status
    ensures put { PutsThen Status.BadScript result (refusal_line refusal) (S.held out.old)
        (S.held out.new) }
    ensures counted { CountsStatus result (S.count out.old) (S.count out.new) }
{
    match refusal.line(alloc) {
        Ok(line) => put_line(line.as_bytes(), Status::BadScript, out),
        Err(_) => Status::NoMemory,
    }
}

/// Puts the line for why reading stopped; want of memory has none.
fn stop_at<S: Sink>(alloc: Global, stop: Stop, out: &mut S) -> Status
    ensures put { PutsStop result stop (S.held out.old) (S.held out.new) }
    ensures counted { CountsStatus result (S.count out.old) (S.count out.new) }
{
    match stop {
        Stop::Refused(refusal) => refuse(alloc, refusal, out),
        Stop::Memory => Status::NoMemory,
    }
}

/// Puts the tokens of the script that the bytes spell, or why it is refused.
fn settle_tokens<S: Sink>(alloc: Global, bytes: &[u8], out: &mut S) -> Status
    requires { length bytes.now ≤ longest_file }
    ensures settles { Settles (ListsTokens bytes.now) (RefusesTokens bytes.now) result
        (S.held out.old) (S.held out.new) }
    ensures counted { CountsStatus result (S.count out.old) (S.count out.new) }
{
    match Script::read(alloc, bytes) {
        Ok(script) => {
            let put = put_tokens(alloc, script.tokens.as_slice(), out);
            status_after(put, Status::Done)
        }
        Err(stop) => stop_at(alloc, stop, out),
    }
}

/// Puts the tree of the script that the bytes spell, or why it is refused.
fn settle_tree<S: Sink>(alloc: Global, bytes: &[u8], out: &mut S) -> Status
    requires { length bytes.now ≤ longest_file }
    ensures settles { Settles (DrawsTree bytes.now) (RefusesTree bytes.now) result (S.held out.old)
        (S.held out.new) }
    ensures counted { CountsStatus result (S.count out.old) (S.count out.new) }
{
    match read_tree(alloc, bytes) {
        Ok(tree) => {
            let put = put_tree(alloc, &tree, out);
            status_after(put, Status::Done)
        }
        Err(stop) => stop_at(alloc, stop, out),
    }
}

/// Puts what a run of the script that the bytes spell comes to, or why it is refused.
fn settle_run<S: Sink>(alloc: Global, bytes: &[u8], limits: RunLimits, out: &mut S) -> Status
    requires { length bytes.now ≤ longest_file }
    ensures settles { Settles (λ text. IsRun bytes.now limits text) (RefusesRun bytes.now) result
        (S.held out.old) (S.held out.new) }
    ensures counted { CountsStatus result (S.count out.old) (S.count out.new) }
{
    let program = match read_program(alloc, bytes) {
        Ok(program) => program,
        Err(stop) => return stop_at(alloc, stop, out),
    };
    match evaluate(alloc, &program, limits) {
        Ok(ended) => {
            let put = put_run(alloc, &program, &ended, out);
            status_after(put, Status::Done)
        }
        Err(_) => Status::NoMemory,
    }
}

/// Puts what is asked for of the script that the bytes spell, or why it is refused.
fn settle<S: Sink>(alloc: Global, command: Command<'_>, bytes: &[u8], out: &mut S) -> Status
    requires { length bytes.now ≤ longest_file }
    ensures settles { Settles (AnswersBytes (task_of command.entry) bytes.now)
        (RefusesBytes (task_of command.entry) bytes.now) result
        (S.held out.old) (S.held out.new) }
    ensures counted { CountsStatus result (S.count out.old) (S.count out.new) }
{
    match command {
        Command::Tokens(_) => settle_tokens(alloc, bytes, out),
        Command::Tree(_) => settle_tree(alloc, bytes, out),
        Command::Run(_, limits) => settle_run(alloc, bytes, limits, out),
    }
}

/// Does what the words say, over these files and this sink.
///
/// The words are `tokens FILE`, `tree FILE`, or `run FILE` with up to four limits behind it: a line is put for each token
/// of the script in that file, or for each node of its tree, or the lines of what a run comes to, or one line that says why
/// the script is refused. Other words are answered by the usage line.
pub fn script<F: Files, S: Sink>(
    alloc: Global,
    words: &[String],
    files: &mut F,
    sink: &mut S,
) -> Status
    ensures ran { Ran result (map string_bytes words.now)
        (record {
          held = F.held files.old;
          asked = F.asked files.old;
          put = S.held sink.old;
          reads_failed = F.count files.old;
          puts_failed = S.count sink.old;
        })
        (record {
          held = F.held files.new;
          asked = F.asked files.new;
          put = S.held sink.new;
          reads_failed = F.count files.new;
          puts_failed = S.count sink.new;
        }) }
{
    let Some(command) = command_of(words) else {
        return put_line(USAGE, Status::BadWords, sink);
    };
    match files.read_all(alloc, command.file()) {
        Ok(bytes) => settle(alloc, command, bytes.as_slice(), sink),
        Err(FilesError::TooLong) => refuse(alloc, Refusal::TooLong, sink),
        Err(FilesError::Failed) => Status::Outside,
        Err(FilesError::Memory) => Status::NoMemory,
    }
}
