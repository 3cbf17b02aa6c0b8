//! A script that asks for most of what there is, which is right though an allocation is refused.

use crate::cores::devices::Tape;
use crate::cores::expected::{BOTH_IN_ROOM, BOTH_IN_ROOM_PRINTED, expect_printed};

/// What follows both clients in the room.
const LINES: &str = "text A 451-[\"say\",\"r\",{\"_placeholder\":true,\"num\":0}]\u{1e}bAQIDBA==
take B 1
text A 42[\"ask\",\"n\"]
take A
text A 430[\"yes\"]
text A 42[\"pull\",\"r\",\"q\"]
members / q
seal
lost B
text A 42[\"say\",\"r\",\"2\"]
open C
text C 40{\"pid\":\"00000000000000000000000000000006\",\"offset\":\"0000000000000001\"}
take C
probe C
take C
upgrade C
frame C 451-[\"all\",{\"_placeholder\":true,\"num\":0}]
bytes C 0001fe
take C
sweep
";

const PRINTED: &str = "ok
B 451-[\"say\",\"r\",{\"_placeholder\":true,\"num\":0},\"0000000000000001\"]\u{1e}bAQIDBA==
ok
A 420[\"ask\",\"n\"]
ok
ok
members 00000000000000000000000000000003 00000000000000000000000000000005
sealed 13
ok
ok
C 0{\"sid\":\"00000000000000000000000000000007\",\"upgrades\":[\"websocket\"],\"pingInterval\":25000,\"pingTimeout\":20000,\"maxPayload\":1000000}
ok
C 40{\"sid\":\"00000000000000000000000000000005\",\"pid\":\"00000000000000000000000000000006\"}\u{1e}42[\"say\",\"r\",\"2\",\"0000000000000002\"]
C 3probe
C 6
ok
ok
ok
C text 451-[\"all\",{\"_placeholder\":true,\"num\":0},\"0000000000000003\"]
C bytes 0001fe
swept log 0, saved 0
";

#[test]
fn a_script_whose_allocations_may_be_refused(rt: HostRuntime) {
    let script: [&[u8]; 2] = [BOTH_IN_ROOM.as_bytes(), LINES.as_bytes()];
    let printed: [&[u8]; 2] = [BOTH_IN_ROOM_PRINTED.as_bytes(), PRINTED.as_bytes()];
    expect_printed(&rt, "a long script", Tape::sound(&script), &printed);
}
