ghost use Rattle.std.specs.Prelude.{◌≡◌, ◌⊎◌, ◌∷◌, [], IfSome, IsSomeAnd};
ghost use Rattle.rip_outer.specs.Outside.{Rose, also, IsOver};
ghost use Rattle.rip_outer.specs.Reading.{contents_of};

use rip_base::{Bytes, NumberList};
use rip_outer::*;
use std::alloc::Global;
use std::test::Fail;

// Callers of the traits, at any object of the outside.

#[derive(Clone, Copy, Debug, PartialEq, Eq)]
enum Copied {
    Done,
    TooLong,
    Outside,
    Memory,
}

/// Reads a file and puts its contents.
fn copy_file<F: Files, S: Sink>(alloc: Global, name: &str, files: &mut F, out: &mut S) -> Copied
    ensures asked { result ≡ Copied.Done → F.asked files.new
        ≡ also (name.now ∷ []) (F.asked files.old) }
    ensures done { result ≡ Copied.Done → IfSome (F.held files.old)
        (λ held. IsSomeAnd (contents_of held name.now)
        (λ bytes. S.held out.new ≡ also bytes (S.held out.old))) }
    ensures outside { result ≡ Copied.Outside →
        Rose (F.count files.old) (F.count files.new) ⊎ Rose (S.count out.old) (S.count out.new) }
{
    let bytes = match files.read_all(alloc, name) {
        Ok(bytes) => bytes,
        Err(FilesError::Failed) => return Copied::Outside,
        Err(FilesError::TooLong) => return Copied::TooLong,
        Err(FilesError::Memory) => return Copied::Memory,
    };
    match out.put(bytes.as_slice()) {
        Ok(()) => Copied::Done,
        Err(SinkError::Failed) => Copied::Outside,
        Err(SinkError::Memory) => Copied::Memory,
    }
}

/// Greets who knocks, and shuts the connection.
fn greet<D: Door>(door: &mut D, room: &mut [u8; 4096]) -> Knock
    ensures over { result ≡ Knock.Closed → IsOver (D.knocks door.new).left }
    ensures outside { result ≡ Knock.Failed → Rose (D.count door.old) (D.count door.new) }
{
    let knock = door.next(room, false);
    if let Knock::Opened(c) = knock {
        if door.send(c, b"welcome") == Sent::Done {
            door.shut(c);
        }
    }
    knock
}

/// Files that are copied in turn: the name, what is answered, the bytes of the sink and the faults of the files then.
static COPIES: [(&str, Copied, usize, u64); 4] = [
    ("page", Copied::Done, 2, 0),
    ("none", Copied::Outside, 2, 1),
    ("page", Copied::Outside, 2, 2),
    ("page", Copied::Done, 4, 2),
];

#[test]
fn files_fail_at_listed_calls_and_at_other_names(rt: HostRuntime) -> Result<(), Fail> {
    let alloc = rt.alloc();
    let files = FileList::from_vec(vec![in alloc;
        named(alloc, b"page", vec![in alloc; b'p', b'1']?)?,
        named(alloc, b"page", vec![in alloc; b'p', b'2']?)?,
    ]?);
    let mut files = MemoryFiles::make(alloc, &files, &NumberList::from_slice(alloc, &[3])?)?;
    let mut sink = MemorySink::make(alloc, &NumberList::new(alloc))?;
    for &(name, answer, length, faults) in &COPIES {
        assert_eq!(rt;
            copy_file(alloc, name, &mut files, &mut sink),
            answer,
            "{name}"
        );
        assert_eq!(rt; sink.bytes().len(), length);
        assert_eq!(rt; files.faults(), faults);
    }
    assert!(rt; sink.bytes().starts_with(b"p1"));
    assert!(rt; sink.bytes().ends_with(b"p1"));
    Ok(())
}

fn named(alloc: Global, name: &[u8], contents: Vec<u8>) -> Result<NamedFile, Fail> {
    Ok(NamedFile {
        name: Bytes::from_slice(alloc, name)?,
        contents: Bytes::from_vec(contents),
    })
}

/// What stands for a knock in a table.
#[derive(Clone, Copy)]
enum Listed {
    Opened(u64),
    Bytes(u64, &'static [u8]),
    Gone(u64),
}

fn knock_of(alloc: Global, listed: Listed) -> Result<TraceKnock, Fail> {
    Ok(match listed {
        Listed::Opened(c) => TraceKnock::Opened(c),
        Listed::Bytes(c, bytes) => TraceKnock::Bytes(c, Bytes::from_slice(alloc, bytes)?),
        Listed::Gone(c) => TraceKnock::Gone(c),
    })
}

/// What comes on two connections.
static KNOCKS: [Listed; 6] = [
    Listed::Opened(0),
    Listed::Bytes(0, b"ab"),
    Listed::Opened(1),
    Listed::Bytes(1, b"cd"),
    Listed::Gone(0),
    Listed::Gone(1),
];

/// What is told of them, where the third and the ninth question fail.
static GREETED: [Knock; 10] = [
    Knock::Opened(0),
    Knock::Quiet,
    Knock::Failed,
    Knock::Opened(1),
    Knock::Bytes(1, 2),
    Knock::Quiet,
    Knock::Gone(1),
    Knock::Closed,
    Knock::Failed,
    Knock::Closed,
];

#[test]
fn a_door_in_memory_tells_its_knocks(rt: HostRuntime) -> Result<(), Fail> {
    let alloc = rt.alloc();
    let mut knocks = KnockList::new(alloc);
    for &listed in &KNOCKS {
        assert!(rt; knocks.push(knock_of(alloc, listed)?) == Ok(()));
    }
    let failing_next = NumberList::from_slice(alloc, &[3, 9])?;
    let failing_send = NumberList::from_slice(alloc, &[2])?;
    let mut door = MemoryDoor::make(alloc, &knocks, &failing_next, &failing_send)?;
    let mut room = [0; 4096];
    for &knock in &GREETED {
        assert_eq!(rt; greet(&mut door, &mut room), knock);
    }
    assert!(rt; room.starts_with(b"cd"));
    assert_eq!(rt; door.faults(), 3);
    assert!(rt; door.was_shut(0) && !door.was_shut(1) && !door.was_shut(2));
    assert!(rt; door.sent(0) == b"welcome".as_slice());
    assert!(rt; door.sent(1).is_empty() && door.sent(2).is_empty());
    Ok(())
}
