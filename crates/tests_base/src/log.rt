use rip_log::*;
use std::alloc::Global;
use std::test::Fail;

/// Logs as they were written elsewhere: of a form that is filled in and sent, of a click that does not end, and of each
/// other kind of line.
static LOGS: [&str; 4] = [
    "",
    "open 2 1 00000000-0000-4001-8000-000000000002 3 0\ndone 2 1 0 ok\n\
     batch 3 1 1 [[\"event\",\"input\",7,\"Ann\"],[\"event\",\"input\",8,\"3\"]]\ndone 3 1 1 ok\n\
     batch 4 1 2 [[\"event\",\"change\",9,1],[\"event\",\"click\",14],[\"call\",1,\"order\",[\"Ann\",36]]]\n\
     serve 4 1 2 1 \"order\" [\"Ann\",36] 0 1\ndone 4 1 2 ok\n\
     batch 5 1 3 [[\"reply\",1]]\ndone 5 1 3 ok\nend 6 0\n",
    "open 3 1 00000000-0000-4001-8000-000000000002 3 0\ndone 3 1 0 ok\n\
     open 4 2 00000000-0000-4004-8000-000000000005 6 0\ndone 4 2 0 ok\n\
     batch 5 1 1 [[\"event\",\"click\",4]]\nbatch 6 2 1 [[\"event\",\"click\",6]]\ndone 6 2 1 ok\n\
     done 105 1 1 fuel 1\nend 105 0\n",
    "batch 3 1 1 []\nserve 3 1 1 1 \"f\" [\"a \\\" b\",\"\\\\\"] 7 {\"error\":\"not here\"}\n\
     done 3 1 1 mismatch 2 2 [\"f\",[\" ] [\"]] [\"f\",[2]]\ndone 3 1 1 mismatch 1 1 [\"f\",[]] none\n\
     done 3 1 1 report 1 node\ndone 3 1 1 report 1 control\ndone 3 1 1 report 1 disabled\n\
     done 3 1 1 report 1 long\ndone 3 1 1 report 1 option\ndone 3 1 1 report 1 number\n\
     done 3 1 1 report 1 due\ndone 3 1 1 cells 1\ndone 3 1 1 units 1\ndone 3 1 1 nodes 1\n\
     done 3 1 1 depth 1\ndone 3 1 1 queue 1\ndone 3 1 1 replies 1\ndone 3 1 1 not-whole 1\n\
     done 3 1 1 infinite 1\ndone 3 1 1 out-of-range 1\ndone 3 1 1 hole 1\ndone 3 1 1 not-in-profile 1\n\
     done 3 1 1 object-to-primitive 1\ndone 3 1 1 bad-argument 1\ndone 3 1 1 lone-surrogate 1\n\
     done 3 1 1 text-too-long 1\ndone 3 1 1 memory 64\nclose 4 1\nend 5 3\n",
];

/// The numbers at the end of their ranges.
static LAST: [&str; 7] = [
    "open 18446744073709551615 4294967295 ffffffff-ffff-ffff-ffff-ffffffffffff 4294967295 18446744073709551615\n",
    "batch 1 1 9007199254740991 []\n",
    "serve 1 1 9007199254740991 4294967295 \"f\" [] 18446744073709551615 null\n",
    "done 1 1 9007199254740991 ok\n",
    "done 1 1 0 fuel 4294967295\n",
    "serve 1 1 1 0 \"a._9Z\" [[[[[[[[]]]]]]]] 0 [[[[[[[[]]]]]]]]\n",
    "end 18446744073709551615 0\n",
];

/// Lines that are none: past a range, with another spelling, or with a part too few or too many.
static OTHERS: [&str; 40] = [
    "open 18446744073709551616 1 00000000-0000-4001-8000-000000000002 3 0\n",
    "open 1 4294967296 00000000-0000-4001-8000-000000000002 3 0\n",
    "open 1 1 00000000-0000-4001-8000-000000000002 4294967296 0\n",
    "open 1 1 00000000-0000-4001-8000-00000000000A 3 0\n",
    "open 1 1 00000000000040018000000000000002 3 0\n",
    "open 1 1 {00000000-0000-4001-8000-000000000002} 3 0\n",
    "open 1 1 00000000-0000-4001-8000-000000000002 3\n",
    "open 1 1 00000000-0000-4001-8000-000000000002 3 0 0\n",
    "open  1 1 00000000-0000-4001-8000-000000000002 3 0\n",
    "batch 1 1 0 []\n",
    "batch 1 1 9007199254740992 []\n",
    "batch 1 1 1 [ ]\n",
    "batch 1 1 1 [[\"reply\",4294967296]]\n",
    "batch 1 1 1\n",
    "serve 1 1 0 1 \"f\" [] 0 1\n",
    "serve 1 1 1 4294967296 \"f\" [] 0 1\n",
    "serve 1 1 1 1 f [] 0 1\n",
    "serve 1 1 1 1 \"\" [] 0 1\n",
    "serve 1 1 1 1 \"f g\" [] 0 1\n",
    "serve 1 1 1 1 \"\\u0066\" [] 0 1\n",
    "serve 1 1 1 1 \"f\" {} 0 1\n",
    "serve 1 1 1 1 \"f\" [[[[[[[[[]]]]]]]]] 0 1\n",
    "serve 1 1 1 1 \"f\" [1.0] 0 1\n",
    "serve 1 1 1 1 \"f\" [] 0 {\"b\":1,\"a\":1}\n",
    "serve 1 1 1 1 \"f\" [] 0 [[[[[[[[[]]]]]]]]]\n",
    "done 1 1 9007199254740992 ok\n",
    "done 1 1 1\n",
    "done 1 1 1 ok 1\n",
    "done 1 1 1 well\n",
    "done 1 1 1 fuel\n",
    "done 1 1 1 fuel 4294967296\n",
    "done 1 1 1 closed\n",
    "done 1 1 1 report 1 option 1\n",
    "done 1 1 1 mismatch 1 1 [\"f\",[]]\n",
    "done 1 1 1 mismatch 1 1 none [\"f\",[]]\n",
    "done 1 1 1 mismatch 1 1 [\"f\", []] none\n",
    "close 1 1\r\n",
    "end 1 1\n",
    "end 01 0\n",
    "\n",
];

/// The log of the history that the text is read as.
fn written_again(alloc: Global, text: &str) -> Result<String, Fail> {
    let mut log = String::new(alloc);
    for entry in read_log(alloc, text.as_bytes())?.as_slice() {
        let line = write_entry(entry, alloc)?;
        log.push_str(std::str::from_utf8(line.as_slice())?)?;
    }
    Ok(log)
}

#[test]
fn logs_are_read_and_written(rt: HostRuntime) -> Result<(), Fail> {
    let alloc = rt.alloc();
    for text in LOGS.iter().chain(LAST.iter()) {
        let log = written_again(alloc, text)?;
        assert_eq!(rt; log.as_str(), *text);
    }
    logs_tell_histories();
    refusals_are_one();
    Ok(())
}

#[test]
fn other_lines_are_refused(rt: HostRuntime) -> Result<(), Fail> {
    let alloc = rt.alloc();
    for &line in &OTHERS {
        let text = format!(in alloc; "end 1 0\n{line}end 2 0\n")?;
        assert!(rt;
            matches!(read_log(alloc, text.as_bytes()), Err(LogRefusal::Line(2))),
            "{line}"
        );
    }
    assert!(rt;
        matches!(
            read_log(alloc, b"end 1 0\nend 2 0"),
            Err(LogRefusal::Line(2))
        )
    );
    assert!(rt; matches!(read_log(alloc, b"well\nend 2 0"), Err(LogRefusal::Line(1))));
    Ok(())
}
