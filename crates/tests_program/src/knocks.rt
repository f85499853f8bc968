//! Doors in memory, and what comes at them.
use rip_base::{Bytes, NoMemory, NumberList};
use rip_outer::{KnockError, KnockList, MAX_PIECE, MemoryDoor, TraceKnock};
use std::alloc::Global;
use std::test::Fail;

/// So many connections open.
pub(crate) fn opened(alloc: Global, count: u64) -> Result<KnockList, KnockError> {
    let mut knocks = KnockList::new(alloc);
    for c in 0..count {
        knocks.push(TraceKnock::Opened(c))?;
    }
    Ok(knocks)
}

/// A piece comes on the first connection.
fn add_piece(knocks: &mut KnockList, piece: Bytes) -> Result<(), KnockError> {
    knocks.push(TraceKnock::Bytes(0, piece))
}

/// These bytes come on the first connection, in pieces as long as they can be.
pub(crate) fn add_bytes(alloc: Global, knocks: &mut KnockList, bytes: &[u8]) -> Result<(), Fail> {
    for piece in bytes.chunks(MAX_PIECE) {
        add_piece(knocks, Bytes::from_slice(alloc, piece)?)?;
    }
    Ok(())
}

/// One connection opens, and these bytes come on it.
pub(crate) fn connection(alloc: Global, bytes: &[u8]) -> Result<KnockList, Fail> {
    let mut knocks = opened(alloc, 1)?;
    add_bytes(alloc, &mut knocks, bytes)?;
    Ok(knocks)
}

/// The door at which these knocks come, and which fails at these calls.
pub(crate) fn door(
    alloc: Global,
    knocks: &KnockList,
    failing_next: &[u64],
    failing_send: &[u64],
) -> Result<MemoryDoor, NoMemory> {
    let failing_next = NumberList::from_slice(alloc, failing_next)?;
    let failing_send = NumberList::from_slice(alloc, failing_send)?;
    MemoryDoor::make(alloc, knocks, &failing_next, &failing_send)
}
