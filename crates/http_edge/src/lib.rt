//! HTTP at the server's edge (RFC 9112): a request is read, its target looked up among the routes
//! of Engine.IO, and an answer written.
#![tactic(auto)]

mod error;
mod head;
mod replay;
mod request;
mod response;
mod routes;
mod wire;

pub use error::EdgeError;
pub use replay::Replay;
pub use request::{Gathered, Request, read_request};
pub use response::{Status, push_field, push_length, push_origin, write_response};
pub use routes::{Refusal, Target, direct, refusal_body, route};
pub use wire::{Broken, OnStream, Wire};
