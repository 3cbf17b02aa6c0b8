//! Lines in pieces, and devices that fail.

use crate::cores::devices::{Flushes, Tape};
use crate::cores::expected::{expect_ended, expect_printed};
use relay::RelayApp;
use script::{RunError, run_script};
use std::alloc::Global;
use std::io;
use std::io::Cursor;

#[test]
fn a_line_in_two_reads(rt: HostRuntime) {
    let shows = "a line in two reads, of which the second is at first interrupted";
    let pieces: [&[u8]; 2] = [b"close A\nclo", b"se A\n\nclose"];
    let script = Tape::failing(&pieces, io::ErrorKind::Interrupted);
    expect_printed(&rt, shows, script, &[b"bad line\nbad line\nbad line\n"]);
}

#[test]
fn a_reader_that_fails(rt: HostRuntime) {
    let shows = "a reader that fails in the midst of a line";
    let pieces: [&[u8]; 2] = [b"close A\nclose", b"\n"];
    let script = Tape::failing(&pieces, io::ErrorKind::UnexpectedEof);
    expect_ended(&rt, shows, script, &[b"bad line\n"], Err(RunError::Reading));
}

/// Whether a writer of 12 bytes has the first of what is printed as the run ends by its fault;
/// nothing where memory was refused.
fn fills_a_writer(alloc: Global) -> Option<bool> {
    let mut paper = Cursor::new([0u8; 12]);
    let mut script = Tape::sound(&[b"close A\nclose B\nclose C\n"]);
    match run_script(alloc, &RelayApp, &mut script, &mut paper) {
        Err(RunError::Memory) => None,
        Err(RunError::Writing) => Some(paper.get_ref().as_slice() == b"bad line\nbad".as_slice()),
        _ => Some(false),
    }
}

#[test]
fn a_writer_that_is_full(rt: HostRuntime) {
    let fills = match fills_a_writer(rt.alloc()) {
        None => fills_a_writer(rt.alloc()),
        fills => fills,
    };
    assert!(rt; fills == Some(true));
}

/// Whether what is answered is flushed before each read; nothing where memory was refused.
fn flushes_in_time(alloc: Global) -> Option<bool> {
    let mut flushes = Flushes::none();
    let mut script = Tape::sound(&[b"close A\n", b"close B\nclo", b"se C"]);
    match run_script(alloc, &RelayApp, &mut script, &mut flushes) {
        Err(RunError::Memory) => None,
        Ok(()) => Some(flushes.noted() == [0, 9, 18, 18, 27].as_slice()),
        _ => Some(false),
    }
}

#[test]
fn what_is_answered_is_flushed_before_each_read(rt: HostRuntime) {
    let flushes = match flushes_in_time(rt.alloc()) {
        None => flushes_in_time(rt.alloc()),
        flushes => flushes,
    };
    assert!(rt; flushes == Some(true));
}
