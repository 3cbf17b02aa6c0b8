//! Lines that are too long for one read, and for a frame.

use crate::cores::devices::Tape;
use crate::cores::expected::{BOTH_IN_ROOM, BOTH_IN_ROOM_PRINTED, expect_printed};

/// What a client over a WebSocket is told first.
const OPENED: &[u8] =
    br#"A 0{"sid":"00000000000000000000000000000001","upgrades":[],"pingInterval":25000,"pingTimeout":20000,"maxPayload":1000000}
"#;

#[test]
fn long_texts(rt: HostRuntime) {
    let shows = "a line of more than 4,096 bytes, and a text of more than 65,536";
    let fill = [b'x'; 1024];
    for pieces in [4, 64] {
        let fill: &[u8] = &fill;
        let mut script = [fill; 67];
        script[0] = BOTH_IN_ROOM.as_bytes();
        script[1] = b"text A 42[\"say\",\"r\",\"";
        script[pieces + 2] = b"\"]\ntake B\n";
        let mut printed = [fill; 67];
        printed[0] = BOTH_IN_ROOM_PRINTED.as_bytes();
        printed[1] = b"ok\nB 42[\"say\",\"r\",\"";
        printed[pieces + 2] = b"\",\"0000000000000001\"]\n";
        let script = Tape::sound(&script[..pieces + 3]);
        expect_printed(&rt, shows, script, &printed[..pieces + 3]);
    }
}

#[test]
fn long_frames(rt: HostRuntime) {
    let shows = "a frame of a million bytes is read, and one of one more is not";
    let fill = [b'x'; 1000];
    for (more, printed) in [(0, "ok, closed: BadType\n"), (1, "ok, closed: TooLong\n")] {
        let fill: &[u8] = &fill;
        let mut script = [fill; 1003];
        script[0] = b"open A socket\nframe A ";
        script[1001] = &fill[..more];
        script[1002] = b"\n";
        let printed = [OPENED, printed.as_bytes()];
        expect_printed(&rt, shows, Tape::sound(&script), &printed);
    }
}
