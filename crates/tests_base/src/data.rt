use rip_base::NoMemory;
use rip_data::*;
use std::alloc::Global;
use std::test::Fail;

/// What is answered for a text: its canonical text, or a refusal. Which texts are data, and what is canonical, is told by the rows of batches; the reasons by no program.
#[derive(Clone, Copy, Debug, PartialEq, Eq)]
enum Want<'a> {
    Text(&'a str),
    Syntax,
    NotWhole,
    TooDeep,
    DataTooLong,
}

fn is_refusal(want: Want<'_>, error: DataError) -> bool {
    match error {
        DataError::Syntax => matches!(want, Want::Syntax),
        DataError::NotWhole => matches!(want, Want::NotWhole),
        DataError::TooDeep => matches!(want, Want::TooDeep),
        DataError::DataTooLong => matches!(want, Want::DataTooLong),
        DataError::Memory => false,
    }
}

fn is_text(want: Want<'_>, written: &[u8], size: DatumSize) -> bool {
    match want {
        Want::Text(text) => written == text.as_bytes() && size.length == written.len(),
        _ => false,
    }
}

fn is_answered(alloc: Global, text: &[u8], want: Want<'_>) -> Result<bool, NoMemory> {
    match read_datum(alloc, text) {
        Ok(datum) => {
            let written = write_datum(&datum, alloc)?;
            Ok(is_text(want, written.as_slice(), datum_size(&datum)))
        }
        Err(error) => Ok(is_refusal(want, error)),
    }
}

/// A text for each answer, and for each pair of reasons that could hold of it.
static TEXTS: [(&str, Want<'static>); 12] = [
    (" [ 1 , 2 ] ", Want::Text("[1,2]")),
    ("{\"b\":1,\"\\u0061\":2}", Want::Text("{\"a\":2,\"b\":1}")),
    ("", Want::Syntax),
    ("[1,]", Want::Syntax),
    ("1e400", Want::Syntax),
    ("\"\\ud834\"", Want::Syntax),
    ("[[[[[[[[1", Want::Syntax),
    ("-0", Want::NotWhole),
    ("9007199254740992", Want::NotWhole),
    ("[[[[[[[[[1.0]]]]]]]]]", Want::NotWhole),
    ("[[[[[[[[[]]]]]]]]]", Want::TooDeep),
    ("[[[[[[[[]]]]]]]]", Want::Text("[[[[[[[[]]]]]]]]")),
];

// So many opening brackets, and as many closing ones.
fn nested(alloc: Global, levels: usize) -> Result<Vec<u8>, Fail> {
    let mut text = vec![in alloc; b'['; levels]?;
    text.extend_from_slice(&vec![in alloc; b']'; levels]?)?;
    Ok(text)
}

// A text of so many bytes in quotes.
fn quoted(alloc: Global, bytes: usize) -> Result<Vec<u8>, Fail> {
    let mut text = Vec::new(alloc);
    text.push(b'"')?;
    for _ in 0..bytes {
        text.push(b'a')?;
    }
    text.push(b'"')?;
    Ok(text)
}

/// How many brackets stand in each other, and what is answered.
static DEEP: [(usize, Want<'static>); 3] = [
    (127, Want::TooDeep),
    (128, Want::Syntax),
    (5000, Want::Syntax),
];

#[test]
fn texts_are_answered(rt: HostRuntime) -> Result<(), Fail> {
    let alloc = rt.alloc();
    for &(text, want) in &TEXTS {
        assert!(rt; is_answered(alloc, text.as_bytes(), want)?, "at {text}");
    }
    for &(levels, want) in &DEEP {
        assert!(rt;
            is_answered(alloc, nested(alloc, levels)?.as_slice(), want)?,
            "at {levels}"
        );
    }
    assert!(rt; is_answered(alloc, quoted(alloc, 16_383)?.as_slice(), Want::DataTooLong)?);

    let longest = quoted(alloc, 16_382)?;
    let datum = read_datum(alloc, longest.as_slice())?;
    assert_eq!(rt;
        datum_size(&datum),
        DatumSize {
            length: 16_384,
            depth: 0
        }
    );
    let again = written_is_read(alloc, &datum)?;
    assert!(rt; write_datum(&again, alloc)?.as_slice() == longest.as_slice());

    let longer = quoted(alloc, 100_000)?;
    let datum = read_long(alloc, longer.as_slice())?;
    let again = written_is_read_long(alloc, &datum)?;
    assert!(rt; write_datum(&again, alloc)?.as_slice() == longer.as_slice());
    text_is_injective();
    Ok(())
}
