//! Texts that are put piece by piece.

use ending::{Status, put_as};
use outside::MemSink;
use std::alloc::{AllocError, Global};
use std::test::Fail;

/// The length of a text, the room of its sink, which put fails, how the call ends, and how much was taken.
type Row = (usize, usize, u64, Status, usize);

static PUTS: [Row; 6] = [
    (0, 9000, 1, Status::Refused, 0),
    (5000, 9000, 9, Status::Refused, 5000),
    (5000, 9000, 2, Status::WriteFault, 4096),
    (5000, 4999, 9, Status::WriteFault, 4096),
    (8192, 9000, 3, Status::Refused, 8192),
    (8193, 9000, 3, Status::WriteFault, 8192),
];

fn sink(alloc: Global, fails: u64, room: usize) -> Result<MemSink, Fail> {
    let fails = vec![in alloc; fails; 1]?;
    Ok(MemSink::new(alloc, fails, room).map_err(|_| "memory")?)
}

/// Puts the text of a row, and tells whether what is due comes.
fn put_one(alloc: Global, row: &Row) -> Result<bool, Fail> {
    let mut sink = sink(alloc, row.2, row.1)?;
    let text = vec![in alloc; 7u8; row.0]?;
    let status = put_as(&mut sink, Status::Refused, &text);
    Ok(status == row.3 && sink.taken().len() == row.4)
}

/// Pieces of 4,096 bytes: a second put that fails leaves one piece, and a text of two whole pieces has no third.
#[test]
fn puts_pieces(rt: HostRuntime) -> Result<(), Fail> {
    for row in PUTS.iter() {
        assert!(rt; put_one(rt.alloc(), row)?);
    }
    Ok(())
}
