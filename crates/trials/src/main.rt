//! Tries the server by cases from standard input: scripts, each below a line `--- NAME`, behind a
//! line `=== chats` chats with hubs, parted by blank lines, behind a line `=== requests` requests
//! over HTTP, one a line, and behind a line `=== rows` rows of deeds, one a line. `trials` prints
//! what they print, and of rows the counts, which are the same each time. `trials SOCKETS CASTS` plays the rows alone, for so many sockets and casts, and
//! prints what is counted a second.
//!
//! A script is played to a server of the demonstration app, which here wants what can't be done of
//! some events, or of the quiz where its name begins with `quiz: `, or of backends where it begins
//! with `backend: `, three times: as it stands, without its last LF, and with a seal after each line
//! from its first `open` on, unless it seals itself. The first line of a chat has the limits of its
//! hub, and each other one a command or what is asked of the hub, which is printed with its answer
//! behind ` = `. A chat that neither seals nor asks for what a seal changes is played once more,
//! with a seal after each line. Where that prints otherwise, but for the lines of the seals, it is
//! shown too.
#![tactic(auto)]

mod bands;
mod chats;
mod fault;
mod hall;
mod measures;
mod player;
mod printing;
mod requests;
mod rows;
mod scripts;
mod variants;
mod wild_app;
mod words;

use fault::Fault;
use rows::Sizes;
use script::RunError;
use std::env;
use std::io::{self, BufWriter, Read, Write};
use std::process::ExitCode;
use std::rt::{Clock, Env};
use std::sync::Wait;
use std::thread::Threads;

/// How many bytes of cases are read at the most.
const USUAL_LENGTH: usize = 1_000_000;

/// The lines behind which chats, requests and rows stand.
const CHATS: &[u8] = b"=== chats\n";

const REQUESTS: &[u8] = b"=== requests\n";

const ROWS: &[u8] = b"=== rows\n";

fn main(rt: HostRuntime) -> ExitCode {
    match play(&rt) {
        Ok(()) => ExitCode::SUCCESS,
        Err(fault) => {
            // Where standard error fails too, the status alone tells of the fault.
            let _ = eprintln!(rt; "trials: {fault}");
            ExitCode::FAILURE
        }
    }
}

/// Does what the arguments ask for, which are read once more where memory for them was refused.
fn play<R: Env + Input + Clock + Threads + Wait + Sync + Print + AllocGlobal>(
    rt: &R,
) -> Result<(), Fault> {
    let sizes = sizes(rt).or_else(|_| sizes(rt))?;
    let input = input(rt)?;
    let (cases, rows) = parted(&input, ROWS);
    if sizes.is_none() {
        play_cases(rt, cases)?;
        if rows.is_some() {
            println!(rt; "=== rows")?;
        }
    }
    measures::play_all(rt, rows.unwrap_or(&[]), sizes)
}

/// The sizes that the arguments name, if they name any.
fn sizes<R: Env + AllocGlobal>(rt: &R) -> Result<Option<Sizes>, Fault> {
    let words: Vec<String> = env::args(rt)?.collect(rt.alloc())?;
    match words.as_slice() {
        [_program] => Ok(None),
        [_program, sockets, casts] => Ok(Some(Sizes {
            sockets: number(sockets.as_str(), 256)?,
            casts: number(casts.as_str(), 1)?,
        })),
        _ => Err(Fault::Arguments),
    }
}

/// A number that is at least `least`.
fn number(word: &str, least: u64) -> Result<u64, Fault> {
    match word.parse::<u64>() {
        Ok(number) if number >= least => Ok(number),
        _ => Err(Fault::Arguments),
    }
}

/// All of standard input.
fn input<R: Input + AllocGlobal>(rt: &R) -> Result<Vec<u8>, RunError> {
    let mut input = Vec::new(rt.alloc());
    if input.reserve(USUAL_LENGTH).is_err() {
        input.reserve(USUAL_LENGTH)?;
    }
    rt.reader()
        .read_to_end(&mut input)
        .map_err(|_| RunError::Reading)?;
    Ok(input)
}

/// Plays scripts, chats and requests. Memory that was refused is asked for once more.
fn play_cases<R: Print + AllocGlobal>(rt: &R, cases: &[u8]) -> Result<(), RunError> {
    let mut writer = BufWriter::new(rt.alloc(), io::writer(rt))
        .or_else(|_| BufWriter::new(rt.alloc(), io::writer(rt)))
        .map_err(|_| RunError::Memory)?;
    let (cases, requests) = parted(cases, REQUESTS);
    let (scripts, chats) = parted(cases, CHATS);
    if !scripts.is_empty() {
        scripts::play_all(rt.alloc(), scripts, &mut writer)?;
    }
    if let Some(chats) = chats {
        writer.write_all(CHATS).map_err(|_| RunError::Writing)?;
        chats::play_all(rt.alloc(), chats, &mut writer)?;
    }
    if let Some(requests) = requests {
        writer.write_all(REQUESTS).map_err(|_| RunError::Writing)?;
        requests::play_all(rt.alloc(), requests, &mut writer)?;
    }
    writer.flush().map_err(|_| RunError::Writing)
}

/// What stands before a line, and what stands behind it, if the line is there.
fn parted<'a>(text: &'a [u8], mark: &[u8]) -> (&'a [u8], Option<&'a [u8]>) {
    let mut index: usize = 0;
    for line in text.split_inclusive(|byte| *byte == b'\n') {
        let next = index.saturating_add(line.len());
        if line == mark {
            return (text.get(..index).unwrap_or(text), text.get(next..));
        }
        index = next;
    }
    (text, None)
}
