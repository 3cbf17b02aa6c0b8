//! Texts of the Engine.IO protocol, revision 4: packets, payloads of packets, and the open packet.
#![tactic(auto)]

mod error;
mod handshake;
mod packet;

pub use error::WireError;
pub use handshake::{Numbers, open_text};
pub use packet::{
    Packet, faults_of_texts, one_fault, one_packet, one_payload, one_text, payloads_or_refusals,
    read_packet, read_payload, whole_data_is_written, write_packet, write_payload,
};
