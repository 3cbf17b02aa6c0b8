//! Socket.IO packets: their texts, and the attachments that follow them (Socket.IO protocol 5,
//! "Packet encoding").
#![tactic(auto)]

mod assembler;
mod error;
mod header;
mod payload;
mod tree;
mod verbatim;

pub use assembler::{Assembler, Progress, SioPacket, frames_cut_once};
pub use error::SioError;
pub use header::{
    Front, Header, Kind, connected_text, disconnect_text, header_faults, header_texts, read_header,
    read_offset, refused_text, with_offset, write_header, write_packet,
};
pub use json::Scratch;
pub use payload::Payload;
pub use tree::{Resume, names, resume_of};
