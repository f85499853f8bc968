use rip_base::Limit;
use rip_convert::*;
use rip_data::read_datum;
use rip_heap::{Halt, Heap, HeapLimits};
use std::alloc::Global;
use std::test::Fail;

// What is made of a text of JSON where so many cells and units may be charged: the cells and units then used, and the
// limit that was met.
fn made(
    alloc: Global,
    text: &str,
    cells: u32,
    units: u32,
) -> Result<(u32, u32, Option<Limit>), Fail> {
    let limits = HeapLimits {
        cells,
        units,
        text: 100,
    };
    let mut heap = Heap::make(alloc, limits)?;
    let datum = read_datum(alloc, text.as_bytes())?;
    let limit = match value_of_datum(alloc, &mut heap, &datum) {
        Ok(_) => None,
        Err(Halt::Limit(limit)) => Some(limit),
        Err(Halt::Fault(_)) => return Err(Fail::from("fault")),
    };
    Ok((heap.used_cells(), heap.pool().used(), limit))
}

const TEXT: &str = "[1,\"ab\",{\"k\":null,\"lm\":[]}]";

// Array 1; 1 is there, pushed 1; "ab" 2 units, pushed 1; object 1; null is there, put under "k" 1 cell and 1 unit; array
// 1, put under "lm" 1 cell and 2 units; the object is pushed 1.
static ROWS: [(u32, u32, u32, u32, Option<Limit>); 9] = [
    (8, 5, 8, 5, None),
    (7, 5, 7, 5, Some(Limit::Cells)),
    (8, 4, 6, 3, Some(Limit::Units)),
    (6, 4, 6, 3, Some(Limit::Cells)),
    (4, 5, 4, 2, Some(Limit::Cells)),
    (8, 2, 4, 2, Some(Limit::Units)),
    (8, 1, 2, 0, Some(Limit::Units)),
    (2, 5, 2, 2, Some(Limit::Cells)),
    (1, 0, 1, 0, Some(Limit::Cells)),
];

#[test]
fn data_become_values_piece_by_piece(rt: HostRuntime) -> Result<(), Fail> {
    for (cells, units, used_cells, used_units, limit) in ROWS.iter().copied() {
        let got = made(rt.alloc(), TEXT, cells, units)?;
        assert_eq!(rt;
            got,
            (used_cells, used_units, limit),
            "{cells} cells, {units} units"
        );
    }
    Ok(())
}
