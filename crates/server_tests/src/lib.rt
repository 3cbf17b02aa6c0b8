//! Tests of the server: the core with its lock and its scripts, HTTP and the peers, and whole servers over
//! loopback. They are one crate, since the proof of each crate of tests reads all libraries that it
//! reaches.
#![tactic(auto)]

#[cfg(test)]
mod cores;
#[cfg(test)]
mod edge;
#[cfg(test)]
mod loops;
#[cfg(test)]
mod vague;
