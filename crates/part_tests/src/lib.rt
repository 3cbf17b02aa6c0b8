//! Tests of the formats and of the hub's parts.
#![tactic(auto)]

#[cfg(test)]
mod engine_io;
#[cfg(test)]
mod hashes;
#[cfg(test)]
mod lines;
#[cfg(test)]
mod outboxes;
#[cfg(test)]
mod play;
#[cfg(test)]
mod rooms;
#[cfg(test)]
mod sessions;
#[cfg(test)]
mod socket_io;
