//! The scripts of a corpus, one after another.

use crate::variants::{sealed, without_last_feed, without_seals};
use crate::wild_app::WildApp;
use quiz::Quiz;
use script::{RunError, run_script, run_script_within, usual_limits};
use std::alloc::Global;
use std::io::Write;
use switchboard::Switchboard;
use terms::Text;

/// The names of the scripts that are played to the quiz begin so, and of those with backends.
const OF_QUIZ: &[u8] = b"--- quiz: ";

const OF_BACKENDS: &[u8] = b"--- backend: ";

/// The namespace of backends, and the token by which they join it.
const BACKENDS: &str = "/backend";

const TOKEN: &str = "secret";

/// The app that a script is played to.
#[derive(Clone, Copy)]
enum Played {
    Wild,
    Quiz,
    Switchboard,
}

/// The app for the script below this line.
fn app_for(line: &[u8]) -> Played {
    if line.starts_with(OF_QUIZ) {
        Played::Quiz
    } else if line.starts_with(OF_BACKENDS) {
        Played::Switchboard
    } else {
        Played::Wild
    }
}

/// Plays each script, and writes its name and what it prints. The last line tells how many of them
/// were played with seals too.
pub fn play_all<W: Write>(alloc: Global, corpus: &[u8], writer: &mut W) -> Result<(), RunError> {
    let mut script = Vec::new(alloc);
    let (mut seals, mut app) = (0u64, Played::Wild);
    for line in corpus.split_inclusive(|byte| *byte == b'\n') {
        if line.starts_with(b"--- ") {
            seals = seals.saturating_add(play_each_way(alloc, app, &script, writer)?);
            app = app_for(line);
            script.clear();
            write(writer, line)?;
        } else {
            script.extend_from_slice(line)?;
        }
    }
    seals = seals.saturating_add(play_each_way(alloc, app, &script, writer)?);
    writeln!(writer, "=== {seals} scripts print the same with seals").map_err(|_| RunError::Writing)
}

/// Plays a script in its three ways, and writes what it prints. Gives how often it was sealed.
fn play_each_way<W: Write>(
    alloc: Global,
    app: Played,
    script: &[u8],
    writer: &mut W,
) -> Result<u64, RunError> {
    let printed = printed_by(alloc, app, script)?;
    write(writer, &printed)?;
    let unfed = printed_by(alloc, app, without_last_feed(script))?;
    write_other(writer, "=== without its last LF", &printed, &unfed)?;
    let Some(sealed) = sealed(alloc, script)? else {
        return Ok(0);
    };
    let unsealed = without_seals(alloc, &printed_by(alloc, app, &sealed)?)?;
    write_other(writer, "=== sealed after each line", &printed, &unsealed)?;
    Ok(1)
}

/// What a script prints. Where an allocation is refused it has printed a beginning of that, and is
/// played anew.
fn printed_by(alloc: Global, app: Played, script: &[u8]) -> Result<Vec<u8>, RunError> {
    let mut begun = Vec::new(alloc);
    if run(alloc, app, script, &mut begun).is_ok() {
        return Ok(begun);
    }
    let mut printed = Vec::new(alloc);
    run(alloc, app, script, &mut printed)?;
    Ok(if printed.starts_with(&begun) {
        printed
    } else {
        begun
    })
}

/// Plays a script to the app that it is for.
fn run(alloc: Global, app: Played, script: &[u8], printed: &mut Vec<u8>) -> Result<(), RunError> {
    let mut reader = script;
    match app {
        Played::Wild => run_script(alloc, &WildApp, &mut reader, printed),
        Played::Quiz => run_script(alloc, &Quiz, &mut reader, printed),
        Played::Switchboard => run_with_backends(alloc, &mut reader, printed),
    }
}

/// Plays a script to a server that has the namespace of backends too, who drive it.
fn run_with_backends(
    alloc: Global,
    reader: &mut &[u8],
    printed: &mut Vec<u8>,
) -> Result<(), RunError> {
    let mut limits = usual_limits(alloc)?;
    limits.spaces.push(Text::copy_of(alloc, BACKENDS)?)?;
    let app = Switchboard {
        token: Text::copy_of(alloc, TOKEN)?,
        spaces: limits.spaces.clone()?,
    };
    run_script_within(alloc, &app, limits, reader, printed)
}

/// Writes what a script printed in another way, where that isn't the same.
fn write_other<W: Write>(
    writer: &mut W,
    way: &str,
    printed: &[u8],
    other: &[u8],
) -> Result<(), RunError> {
    if printed == other {
        return Ok(());
    }
    writeln!(writer, "{way}").map_err(|_| RunError::Writing)?;
    write(writer, other)
}

fn write<W: Write>(writer: &mut W, bytes: &[u8]) -> Result<(), RunError> {
    writer.write_all(bytes).map_err(|_| RunError::Writing)
}
