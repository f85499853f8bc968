ghost use Rattle.std.specs.Prelude.{◌<◌};

use rip_base::{Value, Whole};
use rip_heap::*;
use std::test::Fail;

const ROOMY: HeapLimits = HeapLimits {
    cells: 10_000,
    units: 10_000,
    text: 100,
};

fn number(n: i64) -> Value {
    match Whole::new(n) {
        Some(whole) => Value::Num(whole),
        None => Value::NaN,
    }
}

/// One of 256 names. Those of one remainder by 16 fall into one bucket of each index, since the second unit makes up for
/// what the first one adds.
fn name_in_a_bucket(k: u16) -> [u16; 2]
    requires { k < 256 }
{
    let first = k / 16;
    [0x41 + first, 0x200 - 31 * first + k % 16]
}

/// Names are found when texts are taken back, and a name that is taken back stands for what comes in its place.
#[test]
fn names_are_found_when_texts_are_taken_back(rt: HostRuntime) -> Result<(), Fail> {
    let alloc = rt.alloc();
    let mut heap = Heap::make(alloc, ROOMY)?;
    let object = heap.new_object(alloc, None)?;
    for k in 0..20 {
        let name = heap.add_text(alloc, &name_in_a_bucket(k))?;
        heap.put(alloc, object, name, number(k as i64))?;
    }
    let mark = heap.mark();
    heap.add_text(alloc, &name_in_a_bucket(20))?;
    heap.cut_back(mark);
    assert_eq!(rt; heap.mark(), mark);
    let gone = heap.add_text(alloc, &name_in_a_bucket(20))?;
    heap.put(alloc, object, gone, number(20))?;
    heap.cut_back(mark);
    heap.add_text(alloc, &name_in_a_bucket(21))?;
    for k in 0..22 {
        let name = heap.add_text(alloc, &name_in_a_bucket(k))?;
        let value = match k {
            20 => None,
            21 => Some(number(20)),
            _ => Some(number(k as i64)),
        };
        assert_eq!(rt; heap.own(object, name), value, "{k}");
    }
    Ok(())
}
