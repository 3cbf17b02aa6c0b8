//! The options of a program that serves.

use crate::options::Usually::{Nothing, Number, Words};
use clap::builder::ValueParser;
use clap::{Arg, ArgAction, Command};
use settings::usual::{LIMITS, TIMING};
use settings::{LEAST_RECEIVING, MOST_BYTES, MOST_RATE, Settings, usual};
use std::alloc::{AllocError, Global};
use terms::Text;
use tokens::Verifier;

/// What a program that serves is asked for.
#[derive(Drop)]
pub struct Options {
    pub settings: Settings,
    /// The token that clients may come in with, if there is one. It stands in no output.
    pub token: Option<Text>,
    /// What the signed tokens of clients are verified by, if they are taken.
    pub signed: Option<Verifier>,
    /// Whether the sockets of tokens that have expired are ended.
    pub end_expired: bool,
    /// The token by which backends join `/backend`, if they may. It stands in no output.
    pub backend: Option<Text>,
    /// Whether the rooms of a socket that has ended are told so.
    pub tell_left: bool,
    /// Whether the server ends once standard input does.
    pub until_eof: bool,
    /// Whether the end of each client is told.
    pub verbose: bool,
}

/// What holds where an option isn't there.
enum Usually {
    Nothing,
    Number(u64),
    Words(&'static str),
}

impl Usually {
    /// What holds, as text; empty where nothing does.
    fn text(&self, alloc: Global) -> Result<String, AllocError> {
        match self {
            Nothing => Ok(String::new(alloc)),
            Number(number) => format!(in alloc; "{number}"),
            Words(text) => String::from_str(alloc, text),
        }
    }
}

/// An option: its name, what it does, what its value has to be, what holds where it isn't there.
struct OptionRow {
    name: &'static str,
    action: ArgAction,
    parser: ValueParser<'static>,
    usual: Usually,
    help: &'static str,
}

impl OptionRow {
    /// The argument that it is, with the text of what is usual.
    fn argument<'a>(&self, alloc: Global, usual: &'a str) -> Arg<'a> {
        let argument = Arg::new(alloc, self.name)
            .long(self.name)
            .help(self.help)
            .required(self.name == "port")
            .action(self.action)
            .value_parser(self.parser);
        match self.usual {
            Nothing => argument,
            Number(_) | Words(_) => argument.default_value(usual),
        }
    }
}

/// The most that a u32 counts.
const MANY: u64 = 4_294_967_295;

/// A table of options, with the help of each.
macro_rules! options {
    ($(
        $name:literal $act:ident $kind:ident $(($from:expr, $to:expr))?, $usual:expr, $help:literal;
    )*) => {
        [$(OptionRow {
            name: $name,
            action: ArgAction::$act,
            parser: ValueParser::$kind $(($from, $to))?,
            usual: $usual,
            help: $help,
        }),*]
    };
}

/// The options, in the order in which help tells them.
static OPTIONS: [OptionRow; 34] = options! {
    "port" Set Unsigned(1, 65_535), Nothing, "The port to listen at";
    "host" Set String, Words(usual::HOST), "The address to listen at";
    "workers" Set Unsigned(1, 1_023), Nothing,
        "The threads that serve [default: one a processor, at most 8]";
    "connections" Set Unsigned(0, u64::MAX), Number(0), "Ends after so many connections; 0: never";
    "clients" Set Unsigned(1, MANY), Number(LIMITS.clients as u64), "The most clients at a time";
    "capacity" Set Unsigned(1, 65_536), Number(LIMITS.capacity as u64),
        "The most entries that wait for a client";
    "bytes" Set Unsigned(1, MANY), Number(LIMITS.bytes as u64),
        "The most bytes that wait for a client";
    "log" Set Unsigned(1, MANY), Number(LIMITS.log as u64), "The most broadcasts that are logged";
    "log-bytes" Set Unsigned(1, MANY), Number(LIMITS.log_bytes as u64),
        "The most bytes of these together";
    "saved" Set Unsigned(0, MANY), Number(LIMITS.saved as u64), "The most sessions that are saved";
    "keep" Set Unsigned(0, u64::MAX), Number(LIMITS.keep),
        "How long these are kept, in milliseconds";
    "together" Set Unsigned(1, u64::MAX), Number(usual::TOGETHER),
        "How many connections, one after another, one thread is given";
    "poll-entries" Set Unsigned(1, 65_536), Number(usual::POLL_ENTRIES as u64),
        "The most entries of one answer to a GET";
    "space" Append String, Words(usual::SPACE), "A namespace beside /; may come again";
    "ping-interval" Set Unsigned(1, u64::MAX), Number(TIMING.ping_interval),
        "How often a client is pinged, in milliseconds";
    "ping-timeout" Set Unsigned(1, u64::MAX), Number(TIMING.ping_timeout),
        "How long it may take to answer, in milliseconds";
    "connect-timeout" Set Unsigned(1, u64::MAX), Number(TIMING.connect_timeout),
        "How long it may take to join a namespace, in milliseconds";
    "max-payload" Set Unsigned(1, MOST_BYTES), Number(usual::MAX_PAYLOAD),
        "How many bytes clients are told that a payload may have";
    "receiving" Set Unsigned(LEAST_RECEIVING, MANY), Number(usual::RECEIVING as u64),
        "The most bytes of all that is being received, together";
    "pace" Set Unsigned(1, MOST_RATE), Nothing,
        "The most events of one client a second; beyond it the client isn't read";
    "burst" Set Unsigned(1, MANY), Nothing, "How many of them at once [default: as --pace]";
    "connections-from" Set Unsigned(1, MANY), Nothing,
        "The most connections at a time from one address";
    "report" Set Unsigned(0, MANY), Number(0),
        "Tells the totals on standard error every so many seconds; 0: never";
    "origin" Append String, Nothing,
        "Serves only pages of this origin, * for any, and tells browsers so; may come again";
    "token-file" Set String, Nothing, "A file with the token that clients need";
    "jwt-key" Append String, Nothing,
        "A file with a key that the tokens of clients are signed with, by HS256; may come again";
    "jwt-audience" Set String, Nothing, "For whom these tokens have to be made";
    "end-expired" SetTrue Bool, Nothing, "Ends the sockets of such tokens once these have expired";
    "backend-token" Set String, Nothing,
        "A file with the token by which backends join /backend, in place of the demonstration app";
    "page" Set String, Nothing, "A folder whose files are served beside the socket's path";
    "metrics" Set String, Nothing,
        "A path at which a GET is answered by the counts, for Prometheus";
    "tell-left" SetTrue Bool, Nothing, "Tells the rooms of a socket that has ended that it left";
    "until-eof" SetTrue Bool, Nothing, "Ends once standard input does";
    "verbose" SetTrue Bool, Nothing, "Tells on standard error of each client that ends";
};

/// The rows of the table.
fn rows() -> &'static [OptionRow] {
    &OPTIONS
}

/// What holds where an option isn't there, as text; empty where nothing does. One for each option.
pub(crate) fn usual_texts(alloc: Global) -> Result<Vec<String>, AllocError> {
    let mut texts = Vec::new(alloc);
    for option in rows() {
        texts.push(option.usual.text(alloc)?)?;
    }
    Ok(texts)
}

/// The command of this name that serves, with its options and what is usual, those of backends among
/// them where it has some.
pub(crate) fn server<'a>(
    alloc: Global,
    name: &'static str,
    about: &'static str,
    has_backends: bool,
    usual: &'a [String],
) -> Result<Command<'a>, AllocError> {
    let mut arguments = Vec::new(alloc);
    for (option, usual) in rows().iter().zip(usual) {
        if has_backends || !matches!(option.name, "backend-token" | "end-expired") {
            arguments.push(option.argument(alloc, usual.as_str()))?;
        }
    }
    Command::new(alloc, name).about(about).args(arguments)
}
