//! Servers and their clients over loopback sockets. Many more scenes are played beside the program
//! itself (scripts/try_scenes).

mod scenes;
mod server;
mod site;
mod wire;
