use rip_heap::{Heap, HeapLimits, HeapMemory};
use std::test::Fail;

/// Limits, and how many bytes a heap with these takes: 32 for each slot, of which there are a sixteenth more than cells and
/// 80, 20 for each 16 slots, 12 for each 16 cells, 4 for seven of eight cells, 2 for each unit and 4 for each of a text.
static COUNTED: [(HeapLimits, u64); 3] = [
    (
        HeapLimits {
            cells: 0,
            units: 0,
            text: 0,
        },
        12_330,
    ),
    (
        HeapLimits {
            cells: 16,
            units: 10,
            text: 3,
        },
        12_330 + 17 * 32 + 20 + 12 + 14 * 4 + 10 * 2 + 3 * 4,
    ),
    (
        HeapLimits {
            cells: 1_000_000,
            units: 1_000,
            text: 100,
        },
        39_592_850,
    ),
];

#[test]
fn memory_is_counted_before_a_heap_is_made(rt: HostRuntime) -> Result<(), Fail> {
    for &(limits, bytes) in &COUNTED {
        let memory = HeapMemory::reserve(rt.alloc(), limits)?;
        assert_eq!(rt; memory.bytes(), bytes);
        let heap = Heap::of(rt.alloc(), memory)?;
        assert_eq!(rt; (heap.used_cells(), heap.free_cells()), (0, limits.cells));
    }
    Ok(())
}
