//! The outside fails at a call of a run.
use crate::knocks::connection;
use crate::running::{APP, run, run_at, serve_failing};
use rip_base::{Bytes, NoMemory};
use rip_cli::Status;
use rip_outer::{NoDoor, NoWords, PartSink, lines};
use std::alloc::Global;
use std::test::Fail;

const PAGE: &[u8] =
    b"<html><head></head><body><script>\"use strict\";ripley.call(\"f\",[1],null);ripley.call(\"f\",[2],null);</script></body></html>";

const TRACE: &[u8] =
    b"open 0\nsay 0 get\nsay 0 e 1 {\"batch\":1,\"items\":[[\"call\",1,\"f\",[1]],[\"call\",2,\"f\",[2]]]}\n";

const OPENING: &str = "open 2 1 00000000-0000-4001-8000-000000000002 3 0\n";

const LOG: &str = "open 2 1 00000000-0000-4001-8000-000000000002 3 0
done 2 1 0 ok
batch 3 1 1 [[\"call\",1,\"f\",[1]],[\"call\",2,\"f\",[2]]]
serve 3 1 1 1 \"f\" [1] 0 {\"error\":\"unknown\"}
serve 3 1 1 2 \"f\" [2] 0 {\"error\":\"unknown\"}
done 3 1 1 ok
end 4 0
";

/// The words of a replay of the trace.
const REPLAY: &[&str] = &["replay", "p", "a", "t"];

/// The files of the replay.
const NAMED: &[(&str, &[u8])] = &[("p", PAGE), ("a", APP), ("t", TRACE)];

/// The first lines of the log.
fn first_lines(alloc: Global, count: usize) -> Result<Bytes, NoMemory> {
    let mut first = Vec::new(alloc);
    for line in lines(LOG.as_bytes()).take(count) {
        first.extend_from_slice(line)?;
        first.push(b'\n')?;
    }
    Ok(Bytes::from_vec(first))
}

#[test]
fn a_read_or_a_put_that_fails_ends_a_replay(rt: HostRuntime) -> Result<(), Fail> {
    let alloc = rt.alloc();
    for read in 1..4u64 {
        let (status, put) = run(alloc, REPLAY, NAMED, &[read], &[])?;
        assert_eq!(rt; status, Status::Outside);
        assert!(rt; put.is_empty());
    }
    for done in 0..7u32 {
        let (status, put) = run(alloc, REPLAY, NAMED, &[], &[u64::from(done) + 1])?;
        assert_eq!(rt; status, Status::Outside);
        assert!(rt; put == first_lines(alloc, done as usize)?);
    }
    Ok(())
}

/// A call that fails, how many bytes it takes, and what was put then.
static PARTS: [(u64, usize, Status, &str); 4] = [
    (2, 5, Status::Outside, OPENED_AND_A_PART),
    (2, 0, Status::Outside, OPENING),
    (1, 500, Status::Outside, OPENING),
    (9, 5, Status::Read, LOG),
];

/// The first line of the log, and a part of the second.
const OPENED_AND_A_PART: &str = "open 2 1 00000000-0000-4001-8000-000000000002 3 0\ndone ";

/// A replay into a sink that fails at this call, and takes so many bytes there.
fn replay_in_part(alloc: Global, call: u64, count: usize) -> Result<(Status, Bytes), NoMemory> {
    let mut sink = PartSink::make(alloc, call, count)?;
    let status = run_at(
        alloc,
        REPLAY,
        NAMED,
        &[],
        &mut NoDoor,
        &mut NoWords,
        &mut sink,
    )?;
    Ok((status, Bytes::from_slice(alloc, sink.bytes())?))
}

#[test]
fn a_put_may_take_a_part_where_it_fails(rt: HostRuntime) -> Result<(), Fail> {
    for (call, count, status, expected) in &PARTS {
        let (ended, put) = replay_in_part(rt.alloc(), *call, *count)?;
        assert_eq!(rt; ended, *status);
        assert!(rt; put.as_slice() == expected.as_bytes());
    }
    Ok(())
}

#[test]
fn a_door_that_fails_ends_serving(rt: HostRuntime) -> Result<(), Fail> {
    let alloc = rt.alloc();
    let knocks = connection(alloc, b"GET / HTTP/1.1\r\nHost: a\r\n\r\n")?;
    let table: [(&[u64], &[u64]); 2] = [(&[3], &[]), (&[], &[1])];
    for (failing_next, failing_send) in table {
        let served = serve_failing(alloc, PAGE, &knocks, failing_next, failing_send, 0)?;
        assert_eq!(rt; served.status, Status::Outside);
        assert!(rt; served.log == first_lines(alloc, 2)?);
    }
    Ok(())
}
