//! HTTP, and the peers that serve a request or a WebSocket.

mod answers;
mod asker;
mod gets;
mod lost;
mod noops;
mod requests;
mod responses;
mod served;
mod sockets;
mod spoken;
mod targets;
