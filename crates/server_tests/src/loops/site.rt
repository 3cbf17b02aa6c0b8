//! Where a server is, as its clients see it. A function gives nothing, or false, where it isn't so.

use crate::loops::wire::{body_over, brings, next_text, says, sends};
use std::alloc::Global;
use std::net::{Net, TcpStream};
use std::rt::Clock;
use std::sync::Wait;
use std::thread;
use std::time::Duration;
use terms::read_id;

/// What is told to a client that polls, to one over a WebSocket, and where it is connected. Where
/// `<>` stands, an id comes.
const OPENED: &str =
    r#"0{"sid":"<>","upgrades":["websocket"],"pingInterval":25000,"pingTimeout":20000,"maxPayload":1000000}"#;

const OPENED_OVER: &str =
    r#"0{"sid":"<>","upgrades":[],"pingInterval":25000,"pingTimeout":20000,"maxPayload":1000000}"#;

const CONNECTED: &str = r#"40{"sid":"<>","pid":"<>"}"#;

/// The headers by which a client asks for a WebSocket, and how that is granted.
const UPGRADE: &str =
    "Upgrade: websocket\r\nConnection: Upgrade\r\nSec-WebSocket-Key: dGhlIHNhbXBsZSBub25jZQ==\r\nSec-WebSocket-Version: 13\r\n\r\n";

const SWITCHED: &[u8] =
    b"HTTP/1.1 101 Switching Protocols\r\nconnection: Upgrade\r\nupgrade: websocket\r\nsec-websocket-accept: s3pPLMBiTxaQ9kYGzzhZRbK+xOo=\r\n\r\n";

/// Whether a text is as its pattern has it.
fn fits(pattern: &str, text: &str) -> bool {
    let mut pieces = text.split('"');
    for wanted in pattern.split('"') {
        let Some(piece) = pieces.next() else {
            return false;
        };
        if piece != wanted && (wanted != "<>" || read_id(piece).is_none()) {
            return false;
        }
    }
    pieces.next().is_none()
}

/// A server at a port of this machine.
#[derive(Clone, Copy)]
pub struct Site<'a, R> {
    pub rt: &'a R,
    pub alloc: Global,
    pub port: u16,
}

impl<R: Net<Stream = TcpStream> + Clock + Wait> Site<'_, R> {
    /// A connection over which these bytes were sent. No read and no write waits longer than thirty
    /// seconds.
    fn connect(&self, request: &str) -> Option<TcpStream> {
        let stream = TcpStream::connect(self.rt, ("127.0.0.1", self.port)).ok()?;
        let most = Some(Duration::from_secs(30));
        let is_sent = stream.set_read_timeout(most).is_ok()
            && stream.set_write_timeout(most).is_ok()
            && sends(&stream, request.as_bytes());
        is_sent.then_some(stream)
    }

    /// A connection over which a request was sent, of the client with this id if it has one.
    fn ask(&self, verb: &str, kind: &str, id: &str, rest: &str) -> Option<TcpStream> {
        let sid = if id.is_empty() { "" } else { "&sid=" };
        let request = format!(in self.alloc;
            "{verb} /socket.io/?EIO=4&transport={kind}{sid}{id} HTTP/1.1\r\nHost: localhost\r\n{rest}"
        );
        self.connect(request.ok()?.as_str())
    }

    /// A GET of a client that polls.
    pub fn get(&self, id: &str) -> Option<TcpStream> {
        self.ask("GET", "polling", id, "\r\n")
    }

    /// The body of the answer that a connection brings, where it fits; then it ends.
    fn answer(&self, asked: Option<TcpStream>, body: &str) -> Option<String> {
        let got = body_over(self.alloc, asked?)?;
        fits(body, got.as_str()).then_some(got)
    }

    /// What was asked is answered so.
    pub fn hears(&self, asked: Option<TcpStream>, body: &str) -> bool {
        self.answer(asked, body).is_some()
    }

    /// A client posts a payload.
    pub fn posts(&self, id: &str, text: &str) -> bool {
        let length = text.len();
        match format!(in self.alloc; "Content-Length: {length}\r\n\r\n{text}") {
            Ok(rest) => self.hears(self.ask("POST", "polling", id, rest.as_str()), "ok"),
            Err(_) => false,
        }
    }

    /// A GET of a client that waits by now.
    pub fn wait(&self, id: &str) -> Option<TcpStream> {
        let get = self.get(id);
        thread::sleep(self.rt, Duration::from_millis(300));
        get
    }

    /// The id of a new client that polls, and is connected to the first namespace.
    pub fn open(&self) -> Option<String> {
        let opened = self.answer(self.get(""), OPENED)?;
        let id = opened.as_str().split('"').nth(3).unwrap_or("");
        if self.posts(id, "40") && self.hears(self.get(id), CONNECTED) {
            String::from_str(self.alloc, id).ok()
        } else {
            None
        }
    }

    /// A text comes next over a WebSocket.
    pub fn told(&self, socket: &TcpStream, text: &str) -> bool {
        match next_text(self.alloc, socket) {
            Some(got) => fits(text, got.as_str()),
            None => false,
        }
    }

    /// A new WebSocket, of a client if it has an id.
    fn switch(&self, id: &str) -> Option<TcpStream> {
        let socket = self.ask("GET", "websocket", id, UPGRADE)?;
        brings(self.alloc, &socket, SWITCHED).then_some(socket)
    }

    /// The WebSocket of a new client that is connected to the first namespace.
    pub fn speak(&self) -> Option<TcpStream> {
        let socket = self.switch("")?;
        let is_in = self.told(&socket, OPENED_OVER)
            && says(self.alloc, &socket, "40")
            && self.told(&socket, CONNECTED);
        is_in.then_some(socket)
    }

    /// The WebSocket to which a client that polls comes over, while a GET of it waits.
    pub fn come_over(&self, id: &str) -> Option<TcpStream> {
        let get = self.wait(id);
        let socket = self.switch(id)?;
        let is_over = says(self.alloc, &socket, "2probe")
            && self.told(&socket, "3probe")
            && says(self.alloc, &socket, "5")
            && self.hears(get, "6");
        is_over.then_some(socket)
    }
}
