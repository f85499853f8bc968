ghost use Rattle.std.specs.Prelude.{◌≡◌, length, map, string_bytes};
ghost use Rattle.rip_server.specs.Acts.{seen};
ghost use Rattle.rip_server.specs.Turning.{Outer, outer, source};
ghost use Rattle.rip_cli.specs.Input.{FitsAll};
ghost use Rattle.rip_cli.specs.Laws.{AcceptedIsDone};
ghost use Rattle.rip_cli.specs.Lines.{count_line};
ghost use Rattle.rip_cli.specs.Run.{Ran};
ghost use Rattle.rip_cli.specs.Settling.{Counts, Settles, with_sink};
ghost use Rattle.rip_cli.specs.Steps.{CountsStatus, IsLineStatus, IsServe, PutsLine, PutsLineOf, refusal_line};
ghost use Rattle.rip_cli.specs.Words.{AskToServe};

use crate::input::{AppInput, Input, ReadStop, ThreeFiles};
use crate::lines::count_line;
use crate::refusal::Refusal;
use crate::serving::replay;
use crate::status::Status;
use rip_app::App;
use rip_drive::{DriveRefusal, drive};
use rip_gen::generate::generate;
use rip_outer::{Clock, Door, Files, Sink, SinkError, Words};
use rip_serve::site::serve_app;
use rip_words::command_of;
use std::alloc::Global;

/// What other words are answered.
const USAGE: &[u8] = b"usage: ripley check|replay|serve|drive|generate\n";

/// Puts a line, after which the run ends with this status.
fn put_line<S: Sink>(line: &[u8], status: Status, out: &mut S) -> Status
    requires { IsLineStatus status }
    ensures put { PutsLine status result line.now (S.held out.old) (S.held out.new) }
    ensures counted { CountsStatus result (S.count out.old) (S.count out.new) }
{
    match out.put(line) {
        Ok(()) => status,
        Err(SinkError::Failed) => Status::Outside,
        Err(SinkError::Memory) => Status::NoMemory,
    }
}

/// Puts the line for a refusal.
fn refuse<S: Sink>(alloc: Global, refusal: Refusal, out: &mut S) -> Status
    ensures put { PutsLineOf Status.BadInput result (refusal_line refusal)
        (S.held out.old) (S.held out.new) }
    ensures counted { CountsStatus result (S.count out.old) (S.count out.new) }
{
    match refusal.line(alloc) {
        Ok(line) => put_line(line.as_slice(), Status::BadInput, out),
        Err(_) => Status::NoMemory,
    }
}

/// Puts the line that says how many nodes and scripts the application's page has.
fn put_count<S: Sink>(alloc: Global, app: &App, out: &mut S) -> Status
    ensures put { PutsLine Status.Read result
        (count_line (length app.now.page.nodes) (length app.now.program.grove.roots))
        (S.held out.old) (S.held out.new) }
    ensures counted { CountsStatus result (S.count out.old) (S.count out.new) }
{
    match count_line(alloc, app.node_count(), app.program().scripts()) {
        Ok(line) => put_line(line.as_slice(), Status::Read, out),
        Err(_) => Status::NoMemory,
    }
}

/// Puts what `check` says of the files, none of which is too long.
fn settle_check<S: Sink>(alloc: Global, files: &AppInput, out: &mut S) -> Status
    requires { FitsAll (Input.Check files.now) }
    ensures settles { (rest : Outer) → Settles result (Input.Check files.now)
        (with_sink rest (S.held out.old) (S.count out.old))
        (with_sink rest (S.held out.new) (S.count out.new)) }
    ensures counted { CountsStatus result (S.count out.old) (S.count out.new) }
{
    match files.load(alloc) {
        Ok(app) => put_count(alloc, &app, out),
        Err(refusal) => refuse(alloc, refusal, out),
    }
}

/// Serves the trace of the files, none of which is too long, or puts the line that says why they are refused.
fn settle_replay<S: Sink>(alloc: Global, files: &ThreeFiles, turns: u64, out: &mut S) -> Status
    requires { FitsAll (Input.Replay files.now turns) }
    ensures settles { (rest : Outer) → Settles result (Input.Replay files.now turns)
        (with_sink rest (S.held out.old) (S.count out.old))
        (with_sink rest (S.held out.new) (S.count out.new)) }
    ensures counted { CountsStatus result (S.count out.old) (S.count out.new) }
{
    let app = match files.app.load(alloc) {
        Ok(app) => app,
        Err(refusal) => return refuse(alloc, refusal, out),
    };
    let trace = match files.load_trace(alloc) {
        Ok(trace) => trace,
        Err(refusal) => return refuse(alloc, refusal, out),
    };
    match replay(alloc, &app, &trace, turns, out) {
        Ok(how) => Status::of_stop(how),
        Err(_) => Status::NoMemory,
    }
}

/// Drives the application of the files, none of which is too long, by their gestures, and puts the trace, or the line that
/// says why they are refused.
fn settle_drive<S: Sink>(alloc: Global, files: &ThreeFiles, out: &mut S) -> Status
    requires { FitsAll (Input.Drive files.now) }
    ensures settles { (rest : Outer) → Settles result (Input.Drive files.now)
        (with_sink rest (S.held out.old) (S.count out.old))
        (with_sink rest (S.held out.new) (S.count out.new)) }
    ensures counted { CountsStatus result (S.count out.old) (S.count out.new) }
{
    let app = match files.app.load(alloc) {
        Ok(app) => app,
        Err(refusal) => return refuse(alloc, refusal, out),
    };
    let gestures = match files.load_gestures(alloc) {
        Ok(gestures) => gestures,
        Err(refusal) => return refuse(alloc, refusal, out),
    };
    match drive(alloc, app, &gestures) {
        Ok(trace) => put_line(trace.as_slice(), Status::Read, out),
        Err(DriveRefusal::Line(line)) => refuse(alloc, Refusal::Gestures(line), out),
        Err(DriveRefusal::Memory) => Status::NoMemory,
    }
}

/// Puts the line of the work that a number makes.
fn settle_generate<S: Sink>(alloc: Global, n: u32, out: &mut S) -> Status
    ensures settles { (rest : Outer) → Settles result (Input.Generate n)
        (with_sink rest (S.held out.old) (S.count out.old))
        (with_sink rest (S.held out.new) (S.count out.new)) }
    ensures counted { CountsStatus result (S.count out.old) (S.count out.new) }
{
    match generate(alloc, n) {
        Ok(line) => put_line(line.as_slice(), Status::Read, out),
        Err(_) => Status::NoMemory,
    }
}

/// Serves at the door the application of the files, none of which is too long, or puts the line that says why they are
/// refused.
fn settle_serve<D: Door, C: Clock, W: Words, S: Sink>(
    alloc: Global,
    files: &AppInput,
    turns: u64,
    door: &mut D,
    clock: &mut C,
    random: &mut W,
    out: &mut S,
) -> Status
    requires { FitsAll (Input.Serve files.now turns) }
    ensures settles { Settles result (Input.Serve files.now turns)
        (outer (seen (D.sent door.old) (D.knocks door.old) (D.shuts door.old) (D.asked door.old)
        (S.held out.old)) (source (C.told clock.old) (C.coming clock.old))
        (source (W.told random.old) (W.coming random.old)) (D.count door.old) (S.count out.old))
        (outer (seen (D.sent door.new) (D.knocks door.new) (D.shuts door.new) (D.asked door.new)
        (S.held out.new)) (source (C.told clock.new) (C.coming clock.new))
        (source (W.told random.new) (W.coming random.new)) (D.count door.new) (S.count out.new)) }
    ensures counted { Counts result
        (outer (seen (D.sent door.old) (D.knocks door.old) (D.shuts door.old) (D.asked door.old)
        (S.held out.old)) (source (C.told clock.old) (C.coming clock.old))
        (source (W.told random.old) (W.coming random.old)) (D.count door.old) (S.count out.old))
        (outer (seen (D.sent door.new) (D.knocks door.new) (D.shuts door.new) (D.asked door.new)
        (S.held out.new)) (source (C.told clock.new) (C.coming clock.new))
        (source (W.told random.new) (W.coming random.new)) (D.count door.new) (S.count out.new)) }
{
    let app = match files.load(alloc) {
        Ok(app) => app,
        Err(refusal) => return refuse(alloc, refusal, out),
    };
    match serve_app(alloc, &app, turns, door, clock, random, out) {
        Ok(how) => Status::of_stop(how),
        Err(_) => Status::NoMemory,
    }
}

/// Does what the input asks for, or puts the line that says why it is refused.
fn settle<D: Door, C: Clock, W: Words, S: Sink>(
    alloc: Global,
    input: &Input,
    door: &mut D,
    clock: &mut C,
    random: &mut W,
    out: &mut S,
) -> Status
    ensures settles { Settles result input.now
        (outer (seen (D.sent door.old) (D.knocks door.old) (D.shuts door.old) (D.asked door.old)
        (S.held out.old)) (source (C.told clock.old) (C.coming clock.old))
        (source (W.told random.old) (W.coming random.old)) (D.count door.old) (S.count out.old))
        (outer (seen (D.sent door.new) (D.knocks door.new) (D.shuts door.new) (D.asked door.new)
        (S.held out.new)) (source (C.told clock.new) (C.coming clock.new))
        (source (W.told random.new) (W.coming random.new)) (D.count door.new) (S.count out.new)) }
    ensures counted { Counts result
        (outer (seen (D.sent door.old) (D.knocks door.old) (D.shuts door.old) (D.asked door.old)
        (S.held out.old)) (source (C.told clock.old) (C.coming clock.old))
        (source (W.told random.old) (W.coming random.old)) (D.count door.old) (S.count out.old))
        (outer (seen (D.sent door.new) (D.knocks door.new) (D.shuts door.new) (D.asked door.new)
        (S.held out.new)) (source (C.told clock.new) (C.coming clock.new))
        (source (W.told random.new) (W.coming random.new)) (D.count door.new) (S.count out.new)) }
    ensures alone { (¬ IsServe input.now)
        → (door.new ≡ door.old) × (clock.new ≡ clock.old) × (random.new ≡ random.old) }
{
    if let Some(file) = input.first_too_long() {
        return refuse(alloc, Refusal::TooLong(file), out);
    }
    match input {
        Input::Check(files) => settle_check(alloc, files, out),
        Input::Replay { files, turns } => settle_replay(alloc, files, *turns, out),
        Input::Serve { files, turns } => {
            settle_serve(alloc, files, *turns, door, clock, random, out)
        }
        Input::Drive(files) => settle_drive(alloc, files, out),
        Input::Generate(n) => settle_generate(alloc, *n, out),
    }
}

/// Does what the words say, over these files, this door, this clock, these random words and this sink.
///
/// | words | what is done | what is put |
/// |---|---|---|
/// | `check PAGE APP` | the application is loaded | how many nodes and scripts it has |
/// | `replay PAGE APP TRACE [--turns=N]` | the trace is served from memory | the log |
/// | `serve PAGE APP ADDRESS [--turns=N]` | the door is served, whatever the address | the log |
/// | `drive PAGE APP GESTURES` | a truthful client is driven by the gestures | its trace |
/// | `generate N` | the work that the number makes is told and served | the line that sums it up |
///
/// Words other than `serve` leave door, clock and random words as they are.
pub fn ripley<F: Files, D: Door, C: Clock, W: Words, S: Sink>(
    alloc: Global,
    words: &[String],
    files: &mut F,
    door: &mut D,
    clock: &mut C,
    random: &mut W,
    out: &mut S,
) -> Status
    ensures ran { Ran result (map string_bytes words.now)
        (record {
          held = F.held files.old;
          asked = F.asked files.old;
          reads_failed = F.count files.old;
          outer =
              outer (seen (D.sent door.old) (D.knocks door.old) (D.shuts door.old)
              (D.asked door.old) (S.held out.old)) (source (C.told clock.old) (C.coming clock.old))
              (source (W.told random.old) (W.coming random.old))
              (D.count door.old) (S.count out.old);
        })
        (record {
          held = F.held files.new;
          asked = F.asked files.new;
          reads_failed = F.count files.new;
          outer =
              outer (seen (D.sent door.new) (D.knocks door.new) (D.shuts door.new)
              (D.asked door.new) (S.held out.new)) (source (C.told clock.new) (C.coming clock.new))
              (source (W.told random.new) (W.coming random.new))
              (D.count door.new) (S.count out.new);
        }) }
    ensures alone { (¬ AskToServe (map string_bytes words.now))
        → (door.new ≡ door.old) × (clock.new ≡ clock.old) × (random.new ≡ random.old) }
{
    let Some(command) = command_of(words) else {
        return put_line(USAGE, Status::BadWords, out);
    };
    match Input::read(alloc, files, &command) {
        Ok(input) => settle(alloc, &input, door, clock, random, out),
        Err(ReadStop::Failed) => Status::Outside,
        Err(ReadStop::Memory) => Status::NoMemory,
    }
}

/// A run whose files are an application, and a trace where the words name one, does what the words ask for, up to a call that
/// fails or want of memory.
pub fn accepted_files_are_served()
    ensures { AcceptedIsDone }
{}
