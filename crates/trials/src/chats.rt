//! Chats: lines of commands, which are played to a new hub.

ghost use Rattle.std.specs.Prelude.{◌≡◌};

use crate::player::Player;
use crate::words::Words;
use hub_totals::Hub;
use journal::HubError;
use script::RunError;
use std::alloc::Global;
use std::io::Write;
use std::marker::Brand;
use std::sync::ledger::{Blank, Ledger};
use usual_core::PARTS;

/// What a chat that begins with `both` plays first: clients 1 and 2 with the sockets 3 and 5 are
/// connected, are in the room `r`, and took the answers to their CONNECT. A private id is the next
/// number.
const BOTH: &str =
    "open 1\nopen 2\nattach 1 / 3 4\nattach 2 / 5 6\njoin 3 r\njoin 5 r\ntake 1 64\ntake 2 64";

/// A chat and how it is played.
#[derive(Clone, Copy)]
struct Way<'a> {
    chat: &'a str,
    /// Whether the journal is sealed after each line.
    is_sealed: bool,
}

/// Writes the lines of all chats with their answers, and how many chats print the same with seals.
/// Chats are text.
pub fn play_all<W: Write>(alloc: Global, chats: &[u8], writer: &mut W) -> Result<(), RunError> {
    let chats = str::from_utf8(chats).map_err(|_| RunError::Reading)?;
    let mut count: u64 = 0;
    for chat in chats.trim().split("\n\n") {
        count = count.saturating_add(write_each_way(alloc, chat, writer)?);
    }
    writeln!(writer, "=== {count} chats print the same with seals").map_err(|_| RunError::Writing)
}

/// Writes what a chat prints. Gives whether it prints the same with seals.
fn write_each_way<W: Write>(alloc: Global, chat: &str, writer: &mut W) -> Result<u64, RunError> {
    let played = performed(
        alloc,
        Way {
            chat,
            is_sealed: false,
        },
    )?;
    writeln!(writer, "{played}").map_err(|_| RunError::Writing)?;
    if chat.lines().any(speaks_of_seals) {
        return Ok(0);
    }
    let sealed = performed(
        alloc,
        Way {
            chat,
            is_sealed: true,
        },
    )?;
    if sealed.as_str() != played.as_str() {
        writeln!(writer, "=== with seals:\n{sealed}").map_err(|_| RunError::Writing)?;
    }
    Ok(u64::from(sealed.as_str() == played.as_str()))
}

/// Whether a line seals, or asks for what a seal changes.
fn speaks_of_seals(line: &str) -> bool {
    matches!(
        Words::of(line, 0).word(0),
        "seal" | "steps" | "base" | "kept" | "held" | "ended"
    )
}

/// What a chat prints that is played to a new hub, or to another one where memory for the first was
/// refused.
fn performed(alloc: Global, way: Way<'_>) -> Result<String, RunError> {
    match perform(alloc, way) {
        Ok(played) => Ok(played),
        Err(_) => perform(alloc, way).map_err(|_| RunError::Memory),
    }
}

fn perform(alloc: Global, way: Way<'_>) -> Result<String, HubError> {
    let (commands, taken) = (Blank::new(PARTS), Blank::new(PARTS));
    perform_over::<Brand, Brand>(alloc, way, commands, taken)
}

/// The same over these ledgers.
fn perform_over<C: Ledger, T: Ledger>(
    alloc: Global,
    way: Way<'_>,
    commands: Blank,
    taken: Blank,
) -> Result<String, HubError>
    requires commands { (commands.name ≡ C.name) × (commands.parts ≡ C.parts) × (commands.parts ≡ 65536) }
    requires taken { (taken.name ≡ T.name) × (taken.parts ≡ T.parts) × (taken.parts ≡ 65536) }
{
    let (limits, lines) = way.chat.split_once('\n').unwrap_or((way.chat, ""));
    let words = Words::of(limits, 0);
    let (hub, pass) = match Hub::new(alloc, words.config(alloc)?, commands, taken) {
        Ok(made) => made,
        Err(HubError::Memory) => return Err(HubError::Memory),
        Err(refusal) => return Ok(format!(in alloc; "{limits} = ! {refusal:?}\n")?),
    };
    let player: Player<C, T> = Player {
        alloc,
        hub,
        pass,
        other: None,
        now: 0,
    };
    let mut player = Box::new(alloc, player)?;
    let mut text = format!(in alloc; "{limits}\n")?;
    if words.word(0) == "both" {
        player.play_lines(BOTH, way.is_sealed, &mut String::new(alloc))?;
    }
    player.play_lines(lines, way.is_sealed, &mut text)?;
    Ok(text)
}

impl<C: Ledger, T: Ledger> Player<C, T> {
    /// Plays lines, and adds each with its answer. A seal that is refused is told.
    fn play_lines(
        &mut self,
        lines: &str,
        is_sealed: bool,
        text: &mut String,
    ) -> Result<(), HubError> {
        for line in lines.lines() {
            let mut answer = String::new(self.alloc);
            self.play_next(line, &mut answer)?;
            let answer = answer.trim();
            let mark = if answer.is_empty() { "" } else { " = " };
            writeln!(text, "{line}{mark}{answer}")?;
            if is_sealed && self.ask("seal")?.starts_with("  !") {
                text.push_str("no seal\n")?;
            }
        }
        Ok(())
    }

    /// Plays a line, which may be one that repeats others.
    fn play_next(&mut self, line: &str, answer: &mut String) -> Result<(), HubError> {
        match line.strip_prefix("repeat ") {
            Some(rest) => {
                let (times, lines) = rest.split_once(' ').unwrap_or(("", ""));
                self.repeat(lines, times.parse().unwrap_or(0), answer)
            }
            None => self.play_line(line, 0, answer),
        }
    }

    /// Plays lines many times. The answers of a time are told where they aren't those of the time
    /// before.
    fn repeat(&mut self, lines: &str, times: u64, text: &mut String) -> Result<(), HubError> {
        let mut last = String::new(self.alloc);
        for time in 0..times {
            let mut answers = String::new(self.alloc);
            for line in lines.split('|') {
                self.play_line(line, time, &mut answers)?;
            }
            if answers.as_str() != last.as_str() {
                text.push_str(answers.as_str())?;
                last = answers;
            }
        }
        Ok(())
    }

    /// Plays a line, of which after `count` only the number of the answer's words is told.
    fn play_line(&mut self, line: &str, star: u64, text: &mut String) -> Result<(), HubError> {
        let Some(counted) = line.strip_prefix("count ") else {
            return self.play(&Words::of(line, star), text);
        };
        let answer = self.ask(counted)?;
        let count = answer.split_ascii_whitespace().count();
        Ok(write!(text, "  {count} words")?)
    }
}
