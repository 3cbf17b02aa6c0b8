//! What serves one HTTP request or one WebSocket: it brings the events of its client, and sends what
//! they are answered with (Engine.IO protocol 4, "Transports").
#![tactic(auto)]

mod accept;
mod frame_socket;
mod moments;
mod poll_peer;
mod poll_stage;
mod responses;
mod socket_peer;
mod socket_stage;

pub use accept::accept_socket;
pub use frame_socket::FrameSocket;
pub use moments::{Moments, is_noop, is_recent, served_from};
pub use poll_peer::PollPeer;
pub use poll_stage::PollRequest;
pub use responses::{Response, response_to_fault, response_to_target};
pub use socket_peer::SocketPeer;
pub use socket_stage::{SocketRequest, message_length};
