//! What a script must print.

use crate::cores::devices::{Paper, Tape};
use relay::RelayApp;
use script::{RunError, run_script};
use std::alloc::Global;
use std::process::Abort;

/// Two clients, each with a socket in the room `r`, and nothing that waits.
pub const BOTH_IN_ROOM: &str = r#"open A
open B
text A 40
text B 40
text A 42["join","r"]
text B 42["join","r"]
take A
take B
"#;

pub const BOTH_IN_ROOM_PRINTED: &str =
    r#"A 0{"sid":"00000000000000000000000000000001","upgrades":["websocket"],"pingInterval":25000,"pingTimeout":20000,"maxPayload":1000000}
B 0{"sid":"00000000000000000000000000000002","upgrades":["websocket"],"pingInterval":25000,"pingTimeout":20000,"maxPayload":1000000}
ok
ok
ok
ok
A 40{"sid":"00000000000000000000000000000003","pid":"00000000000000000000000000000004"}
B 40{"sid":"00000000000000000000000000000005","pid":"00000000000000000000000000000006"}
"#;

/// What came of a run.
#[derive(Clone, Copy)]
struct Played {
    ending: Result<(), RunError>,
    /// Whether nothing was printed but what is wanted.
    is_begun: bool,
    /// Whether just what is wanted was printed.
    is_whole: bool,
    /// How many bytes were as wanted.
    right: u64,
}

/// Runs a script, and compares what it prints with what is wanted.
fn play(alloc: Global, mut script: Tape<'_>, printed: &[&[u8]]) -> Played {
    let mut paper = Paper::wanting(printed);
    let ending = run_script(alloc, &RelayApp, &mut script, &mut paper);
    Played {
        ending,
        is_begun: paper.is_begun(),
        is_whole: paper.is_whole(),
        right: paper.right(),
    }
}

/// Runs a script that ends so, and compares what it prints. Where memory is refused, it has printed
/// a beginning of that, and prints all of it once there is memory again.
pub fn expect_ended(
    rt: &(impl Abort + AllocGlobal),
    shows: &str,
    script: Tape<'_>,
    printed: &[&[u8]],
    ending: Result<(), RunError>,
) {
    let mut played = play(rt.alloc(), script, printed);
    if played.ending == Err(RunError::Memory) {
        let right = played.right;
        assert!(rt;
            played.is_begun,
            "{shows}, without memory: {right} bytes are right"
        );
        played = play(rt.alloc(), script, printed);
    }
    let right = played.right;
    assert!(rt;
        played.ending == ending,
        "{shows}: it ended otherwise, {right} bytes are right"
    );
    assert!(rt; played.is_whole, "{shows}: {right} bytes are right");
}

/// Runs a script to its end, and compares what it prints.
pub fn expect_printed(
    rt: &(impl Abort + AllocGlobal),
    shows: &str,
    script: Tape<'_>,
    printed: &[&[u8]],
) {
    expect_ended(rt, shows, script, printed, Ok(()));
}
