//! How the tests run the program.
use crate::knocks::door;
use rip_base::{Bytes, List, NoMemory, NumberList};
use rip_cli::{Status, ripley};
use rip_outer::{
    Clock, Door, FileList, Files, KnockList, MemoryDoor, MemoryFiles, MemorySink, MemoryWords,
    NamedFile, NoClock, NoDoor, NoWords, Sink, Words,
};
use std::alloc::Global;

/// A manifest of no functions.
pub(crate) const APP: &[u8] = b"{\"version\":1,\"functions\":{},\"limits\":{}}\n";

/// How the program ends, of these words and over this outside. It alone calls the program, and promises nothing, so that what
/// the program promises is read at one call, and not where the outside of a test is made and dropped.
fn status_of<F: Files, D: Door, C: Clock, W: Words, S: Sink>(
    alloc: Global,
    words: &[String],
    files: &mut F,
    door: &mut D,
    clock: &mut C,
    random: &mut W,
    out: &mut S,
) -> Status {
    ripley(alloc, words, files, door, clock, random, out)
}

/// Files of these names and contents.
fn files(alloc: Global, named: &[(&str, &[u8])]) -> Result<FileList, NoMemory> {
    let mut files = Vec::new(alloc);
    for (name, contents) in named {
        files.push(NamedFile {
            name: Bytes::from_slice(alloc, name.as_bytes())?,
            contents: Bytes::from_slice(alloc, contents)?,
        })?;
    }
    Ok(List::from_vec(files))
}

/// These words, each a text of its own.
fn texts(alloc: Global, words: &[&str]) -> Result<Vec<String>, NoMemory> {
    let mut texts = Vec::new(alloc);
    for word in words {
        texts.push(String::from_str(alloc, word)?)?;
    }
    Ok(texts)
}

/// A sink that fails at these calls.
fn sink(alloc: Global, failing_puts: &[u64]) -> Result<MemorySink, NoMemory> {
    MemorySink::make(alloc, &NumberList::from_slice(alloc, failing_puts)?)
}

/// How a run of these words ends, over these files, this door, these random words and this sink. The reads of files with these
/// numbers fail.
pub(crate) fn run_at<D: Door, W: Words, S: Sink>(
    alloc: Global,
    words: &[&str],
    named: &[(&str, &[u8])],
    failing_reads: &[u64],
    door: &mut D,
    random: &mut W,
    out: &mut S,
) -> Result<Status, NoMemory> {
    let texts = texts(alloc, words)?;
    let named = files(alloc, named)?;
    let failing = NumberList::from_slice(alloc, failing_reads)?;
    let mut held = MemoryFiles::make(alloc, &named, &failing)?;
    Ok(status_of(
        alloc,
        texts.as_slice(),
        &mut held,
        door,
        &mut NoClock,
        random,
        out,
    ))
}

/// Runs these words over these files and a sink that fail at these calls; what was put comes with the status.
pub(crate) fn run(
    alloc: Global,
    words: &[&str],
    named: &[(&str, &[u8])],
    failing_reads: &[u64],
    failing_puts: &[u64],
) -> Result<(Status, Bytes), NoMemory> {
    let mut sink = sink(alloc, failing_puts)?;
    let status = run_at(
        alloc,
        words,
        named,
        failing_reads,
        &mut NoDoor,
        &mut NoWords,
        &mut sink,
    )?;
    Ok((status, Bytes::from_slice(alloc, sink.bytes())?))
}

/// Serves a page with a manifest at a door; the log comes with the status.
fn serve_at(
    alloc: Global,
    page: &[u8],
    app: &[u8],
    door: &mut MemoryDoor,
) -> Result<(Status, Bytes), NoMemory> {
    let mut random = MemoryWords::make(alloc, &NumberList::new(alloc))?;
    let mut sink = sink(alloc, &[])?;
    let status = run_at(
        alloc,
        &["serve", "p", "a", "nowhere"],
        &[("p", page), ("a", app)],
        &[],
        door,
        &mut random,
        &mut sink,
    )?;
    Ok((status, Bytes::from_slice(alloc, sink.bytes())?))
}

/// What came of serving a page: the status, the log, and of one connection what was sent on it, and whether it was shut.
#[derive(Drop)]
pub(crate) struct Served {
    pub(crate) status: Status,
    pub(crate) log: Bytes,
    pub(crate) sent: Bytes,
    pub(crate) is_shut: bool,
}

/// Serves a page at a door where these knocks come, and which fails at these calls, and tells of this connection.
pub(crate) fn serve_failing(
    alloc: Global,
    page: &[u8],
    knocks: &KnockList,
    failing_next: &[u64],
    failing_send: &[u64],
    connection: u64,
) -> Result<Served, NoMemory> {
    let mut door = door(alloc, knocks, failing_next, failing_send)?;
    served_at(alloc, page, APP, &mut door, connection)
}

/// Serves a page with a manifest at a door, and tells of this connection.
fn served_at(
    alloc: Global,
    page: &[u8],
    app: &[u8],
    door: &mut MemoryDoor,
    connection: u64,
) -> Result<Served, NoMemory> {
    let (status, log) = serve_at(alloc, page, app, door)?;
    Ok(Served {
        status,
        log,
        sent: Bytes::from_slice(alloc, door.sent(connection))?,
        is_shut: door.was_shut(connection),
    })
}
