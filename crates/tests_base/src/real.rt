use rip_outer::{Door, Knock, Sent};
use rip_real::real_outside;
use std::cell::Cell;
use std::io;
use std::io::{Read, Write};
use std::net::TcpStream;
use std::test::Fail;

/// A request in one piece.
const REQUEST: &[u8] = b"GET / HTTP/1.1\r\nHost: a\r\n\r\n";

// 64 connections are open, and the first has sent something, so the second is the longest idle.
#[test]
fn the_longest_idle_goes_before_the_65th_opens(rt: HostRuntime) -> Result<(), Fail> {
    let random = Cell::new(None);
    let mut outside = real_outside(&rt, rt.alloc(), Some("127.0.0.1:0"), &random, rt.stderr());
    let Some(address) = outside.door.address() else {
        panic!(rt; "no address");
    };
    let mut room = [0u8; 4096];
    let mut first = TcpStream::connect(&rt, address)?;
    assert!(rt; outside.door.next(&mut room, false) == Knock::Opened(0));
    let mut second = TcpStream::connect(&rt, address)?;
    assert!(rt; outside.door.next(&mut room, false) == Knock::Opened(1));
    let mut others = Vec::new(rt.alloc());
    for c in 2..64 {
        others.push(TcpStream::connect(&rt, address)?)?;
        assert!(rt; outside.door.next(&mut room, false) == Knock::Opened(c));
    }
    first.write_all(b"GET")?;
    assert!(rt; outside.door.next(&mut room, false) == Knock::Bytes(0, 3));
    let _last = TcpStream::connect(&rt, address)?;
    assert!(rt; outside.door.next(&mut room, false) == Knock::Gone(1));
    assert!(rt; outside.door.next(&mut room, false) == Knock::Opened(64));
    assert!(rt; second.read(&mut room)? == 0);
    Ok(())
}

// Each of 64 connections is owed an answer while something is busy: then the 65th is told as it comes. Once one is
// answered, that one goes.
#[test]
fn none_goes_that_is_owed_an_answer(rt: HostRuntime) -> Result<(), Fail> {
    let random = Cell::new(None);
    let mut outside = real_outside(&rt, rt.alloc(), Some("127.0.0.1:0"), &random, rt.stderr());
    let Some(address) = outside.door.address() else {
        panic!(rt; "no address");
    };
    let mut room = [0u8; 4096];
    let mut clients = Vec::new(rt.alloc());
    for c in 0..63 {
        let mut client = TcpStream::connect(&rt, address)?;
        client.write_all(REQUEST)?;
        clients.push(client)?;
        assert!(rt; outside.door.next(&mut room, true) == Knock::Opened(c));
        assert!(rt; outside.door.next(&mut room, true) == Knock::Bytes(c, 27));
    }
    let mut last = TcpStream::connect(&rt, address)?;
    last.write_all(REQUEST)?;
    assert!(rt; outside.door.next(&mut room, true) == Knock::Opened(63));
    assert!(rt; outside.door.next(&mut room, true) == Knock::Bytes(63, 27));
    let _refused = TcpStream::connect(&rt, address)?;
    assert!(rt; outside.door.next(&mut room, true) == Knock::Opened(64));
    assert!(rt; outside.door.send(63, b"answer") == Sent::Done);
    let _taken = TcpStream::connect(&rt, address)?;
    assert!(rt; outside.door.next(&mut room, true) == Knock::Gone(63));
    assert!(rt; outside.door.next(&mut room, true) == Knock::Opened(65));
    Ok(())
}

// Where the system gave no random numbers, a door fails, and sends nothing.
#[test]
fn a_door_fails_without_random_numbers(rt: HostRuntime) -> Result<(), Fail> {
    let random = Cell::new(None);
    let mut outside = real_outside(&rt, rt.alloc(), Some("127.0.0.1:0"), &random, rt.stderr());
    let Some(address) = outside.door.address() else {
        panic!(rt; "no address");
    };
    let mut room = [0u8; 4096];
    let _client = TcpStream::connect(&rt, address)?;
    assert!(rt; outside.door.next(&mut room, false) == Knock::Opened(0));
    random.set(Some(io::Error::from(io::ErrorKind::Unsupported)));
    assert!(rt; outside.door.send(0, b"answer") == Sent::Failed);
    assert!(rt; outside.door.next(&mut room, false) == Knock::Failed);
    assert!(rt; outside.door.faults() == 2);
    Ok(())
}
