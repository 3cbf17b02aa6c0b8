//! How the rows of a table are played.

use std::alloc::Global;
use std::process::Abort;

/// A part of the server, to which a row does something.
pub trait Part {
    type Row;

    type Fault: Copy + PartialEq;

    /// The fault that says that memory was refused.
    const MEMORY: Self::Fault;

    /// How much it holds, as far as it holds something.
    fn size(&self) -> usize {
        0
    }

    /// Whether the part answers as the row says, or its fault.
    fn act(&mut self, alloc: Global, row: &Self::Row) -> Result<bool, Self::Fault>;
}

/// Plays rows, each with what comes of it. Of a run's allocations at most one is refused, and then
/// nothing has changed: the part holds as much, and the same row once more is answered as with ample
/// memory.
pub fn play<P: Part>(
    rt: &(impl Abort + AllocGlobal),
    part: &mut P,
    rows: &[(P::Row, Result<bool, P::Fault>)],
) {
    for (index, (row, want)) in rows.iter().enumerate() {
        let before = part.size();
        let got = match part.act(rt.alloc(), row) {
            Err(fault) if fault == P::MEMORY => {
                assert!(rt; part.size() == before, "row {index}");
                part.act(rt.alloc(), row)
            }
            got => got,
        };
        assert!(rt; got == *want, "row {index}");
    }
}
