use rip_http::{Conn, Method, Taken};
use std::alloc::Global;
use std::test::Fail;

/// A stream of bytes, and what is taken out of it: each request with its route, segment, body and whether the
/// connection is to be shut; a refusal with its code, the method that it names, and whether it is answered bare.
struct Row {
    stream: &'static [u8],
    taken: &'static str,
}

static ROWS: [Row; 41] = [
    Row {
        stream: b"GET / HTTP/1.1\r\nHost: a\r\n\r\n",
        taken: "Page [] [] false;",
    },
    Row {
        stream: b"\r\n\n\rGET / HTTP/1.1\r\nHost: a\r\n\r\n",
        taken: "Page [] [] false;",
    },
    Row {
        stream: b"GET /?q=/e/x HTTP/1.1\r\nHost: a\r\n\r\n",
        taken: "Page [] [] false;",
    },
    Row {
        stream: b"GET / HTTP/1.0\r\n\r\n",
        taken: "Page [] [] true;",
    },
    Row {
        stream: b"GET / HTTP/1.1\r\nHost: a\r\nConnection: keep-alive,\tClose \r\n\r\n",
        taken: "Page [] [] true;",
    },
    Row {
        stream: b"GET / HTTP/1.1\r\nHost: a\r\nConnection: closed\r\n\r\n",
        taken: "Page [] [] false;",
    },
    Row {
        stream: b"GET / HTTP/1.1\r\nHost: a\r\nContent-Length: 2\r\n\r\nabGET / HTTP/1.0\r\n\r\n",
        taken: "Page [] [ab] false;Page [] [] true;",
    },
    Row {
        stream: b"POST /e/x HTTP/1.1\r\nHost: a\r\nContent-Length: 2\r\n\r\n{}POST /q/y?z HTTP/1.1\r\nhost: a\r\ncontent-length: 0\r\n\r\n",
        taken: "Events [x] [{}] false;Quit [y] [] false;",
    },
    Row {
        stream: b"POST /e/x HTTP/1.1\r\nHost: a\r\nContent-Length: 3\r\n\r\n{}",
        taken: "",
    },
    Row {
        stream: b"POST /e/x HTTP/1.1\r\nHost: a\r\nContent-Length: 65536\r\n\r\n{}",
        taken: "",
    },
    // A head that is no head, or whose Host or Content-Length fields are not as they must be.
    Row {
        stream: b"GET / HTTP/1.1\r\n\r\n",
        taken: "400",
    },
    Row {
        stream: b"GET / HTTP/1.1\r\nHost: a\r\nHost: a\r\n\r\n",
        taken: "400",
    },
    Row {
        stream: b"GET / HTTP/1.0\r\nHost: a\r\nhOST: b\r\n\r\n",
        taken: "400",
    },
    Row {
        stream: b"POST /e/x HTTP/1.1\r\nHost: a\r\nContent-Length: 5\r\nContent-Length: 5\r\n\r\n",
        taken: "400",
    },
    Row {
        stream: b"POST /e/x HTTP/1.1\r\nHost: a\r\nContent-Length: 5\r\nContent-Length: 6\r\n\r\n",
        taken: "400",
    },
    Row {
        stream: b"POST /e/x HTTP/1.1\r\nHost: a\r\nContent-Length: 5, 5\r\n\r\n",
        taken: "400",
    },
    Row {
        stream: b"POST /e/x HTTP/1.1\r\nHost: a\r\nContent-Length: +5\r\n\r\n",
        taken: "400",
    },
    Row {
        stream: b"POST /e/x HTTP/1.1\r\nHost: a\r\nContent-Length: 5 5\r\n\r\n",
        taken: "400",
    },
    Row {
        stream: b"POST /e/x HTTP/1.1\r\nHost: a\r\nContent-Length:\r\n\r\n",
        taken: "400",
    },
    Row {
        stream: b"POST /e/x HTTP/1.1\r\nHost: a\r\nContent-Length: 00000000000000000000\r\n\r\n",
        taken: "400",
    },
    Row {
        stream: b"GET / HTTP/1.1\r\nHost : a\r\n\r\n",
        taken: "400",
    },
    Row {
        stream: b"GET / HTTP/1.1\r\nHost: a\r\n b\r\n\r\n",
        taken: "400",
    },
    Row {
        stream: b"GET / HTTP/1.1\r\nHost: a\0b\r\n\r\n",
        taken: "400",
    },
    Row {
        stream: b"GET / HTTP/1.1\r\nHost: a\rb\r\n\r\n",
        taken: "400",
    },
    Row {
        stream: b"GET /\xff HTTP/1.1\r\nHost: a\r\n\r\n",
        taken: "400",
    },
    Row {
        stream: b"GET / HTTP/2.0\r\nHost: a\r\n\r\n",
        taken: "400",
    },
    // A line may end in LF alone.
    Row {
        stream: b"GET / HTTP/1.1\nHost: a\n\n",
        taken: "Page [] [] false;",
    },
    Row {
        stream: b"GET / HTTP/1.1\nHost: a\n\r\n",
        taken: "Page [] [] false;",
    },
    // The route, then the method, then the coding, then the length.
    Row {
        stream: b"PUT /x HTTP/1.1\r\nHost: a\r\nTransfer-Encoding: chunked\r\n\r\n",
        taken: "404",
    },
    Row {
        stream: b"POST /e/ HTTP/1.1\r\nHost: a\r\nContent-Length: 2\r\n\r\n{}",
        taken: "404",
    },
    Row {
        stream: b"POST /e/x/ HTTP/1.1\r\nHost: a\r\nContent-Length: 2\r\n\r\n{}",
        taken: "404",
    },
    Row {
        stream: b"GET http://a/ HTTP/1.1\r\nHost: a\r\n\r\n",
        taken: "404",
    },
    Row {
        stream: b"PUT / HTTP/1.1\r\nHost: a\r\nTransfer-Encoding: chunked\r\n\r\n",
        taken: "405 GET",
    },
    Row {
        stream: b"get / HTTP/1.1\r\nHost: a\r\n\r\n",
        taken: "405 GET",
    },
    Row {
        stream: b"HEAD / HTTP/1.1\r\nHost: a\r\n\r\n",
        taken: "405 GET bare",
    },
    Row {
        stream: b"GET /e/x HTTP/1.1\r\nHost: a\r\n\r\n",
        taken: "405 POST",
    },
    Row {
        stream: b"POST /e/x HTTP/1.1\r\nHost: a\r\nTransfer-Encoding: chunked\r\n\r\n",
        taken: "501",
    },
    Row {
        stream: b"POST /e/x HTTP/1.1\r\nHost: a\r\nTransfer-Encoding: chunked\r\nContent-Length: 5\r\n\r\n0\r\n\r\n",
        taken: "501",
    },
    Row {
        stream: b"POST /e/x HTTP/1.1\r\nHost: a\r\n\r\n",
        taken: "411",
    },
    Row {
        stream: b"POST /e/x HTTP/1.1\r\nHost: a\r\nContent-Length: 65537\r\n\r\n",
        taken: "413",
    },
    Row {
        stream: b"POST /e/x HTTP/1.1\r\nHost: a\r\nContent-Length: 9999999999999999999\r\n\r\n",
        taken: "413",
    },
];

/// The rest of a row for a refusal.
fn told_of_refusal(alloc: Global, conn: &Conn, code: u16) -> Result<String, Fail> {
    let mut text = format!(in alloc; "{code}")?;
    if code == 405 {
        text.push_str(match conn.allowed() {
            Method::Get => " GET",
            Method::Post => " POST",
        })?;
    }
    if conn.bare() {
        text.push_str(" bare")?;
    }
    Ok(text)
}

/// What is taken out of a connection until nothing more is.
fn told(alloc: Global, conn: &mut Conn) -> Result<String, Fail> {
    let mut text = String::new(alloc);
    for _ in 0..8 {
        if !conn.ready() {
            break;
        }
        match conn.take_message(alloc) {
            Taken::Message(m) => {
                let segment = str::from_utf8(m.segment.as_slice()).unwrap_or("?");
                let body = str::from_utf8(m.body.as_slice()).unwrap_or("?");
                let line = format!(in alloc; "{:?} [{segment}] [{body}] {};", m.route, m.close)?;
                text.push_str(line.as_str())?;
            }
            Taken::Refused(code) => {
                text.push_str(told_of_refusal(alloc, conn, code)?.as_str())?;
                break;
            }
            Taken::NotYet => text.push_str("not yet")?,
            Taken::Memory => text.push_str("memory")?,
        }
    }
    Ok(text)
}

/// What is taken where a stream comes in two pieces.
fn told_cut(alloc: Global, stream: &[u8], cut: usize) -> Result<String, Fail> {
    let (front, back) = stream.split_at(cut.min(stream.len()));
    let mut conn = Conn::make(alloc)?;
    conn.feed(alloc, front)?;
    let mut text = told(alloc, &mut conn)?;
    conn.feed(alloc, back)?;
    if !text.as_bytes().first().is_some_and(|b| b.is_ascii_digit()) {
        text.push_str(told(alloc, &mut conn)?.as_str())?;
    }
    Ok(text)
}

/// What is taken where a stream comes byte by byte.
fn told_by_bytes(alloc: Global, stream: &[u8]) -> Result<String, Fail> {
    let mut conn = Conn::make(alloc)?;
    let mut text = String::new(alloc);
    for b in stream {
        conn.feed(alloc, &[*b])?;
        let more = told(alloc, &mut conn)?;
        let refused = more.as_bytes().first().is_some_and(|b| b.is_ascii_digit());
        text.push_str(more.as_str())?;
        if refused {
            break;
        }
    }
    Ok(text)
}

/// Whether a stream is taken so byte by byte, and in two pieces that are cut at any place, its end included.
fn is_taken(alloc: Global, stream: &[u8], taken: &str) -> Result<bool, Fail> {
    if told_by_bytes(alloc, stream)?.as_str() != taken {
        return Ok(false);
    }
    for cut in 0..=stream.len() {
        if told_cut(alloc, stream, cut)?.as_str() != taken {
            return Ok(false);
        }
    }
    Ok(true)
}

#[test]
fn rows_are_taken_however_they_are_cut(rt: HostRuntime) -> Result<(), Fail> {
    for (at, row) in ROWS.iter().enumerate() {
        assert!(rt; is_taken(rt.alloc(), row.stream, row.taken)?, "row {at}");
    }
    Ok(())
}
