//! The open packet, with which the server answers a new session (Engine.IO protocol 4,
//! "Handshake").

ghost use Rattle.std.specs.Prelude.{◌≡◌, IfOk, IfErr, string_bytes};
ghost use Rattle.eio_wire.specs.Handshake.{open_packet_text};

use crate::error::WireError;
use std::alloc::Global;
use terms::{ascii_text, id_text};

/// What the server tells a client of its limits.
#[derive(Clone, Copy, Debug, PartialEq, Eq)]
pub struct Numbers {
    /// Milliseconds between two pings.
    pub ping_interval: u64,
    /// Milliseconds that the answer to a ping may take.
    pub ping_timeout: u64,
    /// Bytes that a payload may have.
    pub max_payload: u64,
}

/// The text of the open packet of a client, which may upgrade where it came by polling. The one
/// error is Memory.
pub fn open_text(
    alloc: Global,
    client: u128,
    polling: bool,
    numbers: &Numbers,
) -> Result<String, WireError>
    ensures ok { IfOk result (λ t. string_bytes t ≡ open_packet_text client polling numbers.now) }
    ensures err { IfErr result (λ error. error ≡ WireError.Memory) }
{
    let digits = id_text(client);
    let id = ascii_text(&digits);
    let upgrades = if polling { r#"["websocket"]"# } else { "[]" };
    let interval = numbers.ping_interval;
    let timeout = numbers.ping_timeout;
    let payload = numbers.max_payload;
    let text = format!(in alloc;
        "0{{\"sid\":\"{id}\",\"upgrades\":{upgrades},\"pingInterval\":{interval},\"pingTimeout\":{timeout},\"maxPayload\":{payload}}}"
    )?;
    Ok(text)
}
