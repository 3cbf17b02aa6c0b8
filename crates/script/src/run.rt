//! The run of a script: lines come in, and each that prints is answered by one line.

ghost use Rattle.std.specs.Prelude.{◌≡◌, ◌≢◌, ◌<◌, [], ◌∷◌, IsOkUnless, IfOk, IfErr, OnOk, IfSome, None, Some, Ok, length, option_map};
ghost use Rattle.std.specs.Io.KnownBytes.{Appends, Keeps, IsAtEnd};
ghost use Rattle.script.specs.declared.faults.RunError.TheVariants.{Memory, Reading, Writing};
ghost use Rattle.script.specs.Printing.{answer_text};
ghost use Rattle.script.specs.Setup.{USUAL};
ghost use Rattle.script.specs.Script.{plain_run, Sets, Begins, PlaysOn, Answers, printed, IsAnswered, IsUnended, WritesLine, WritesOn, Gives};

use crate::faults::RunError;
use crate::play::Play;
use crate::printing::Answer;
use crate::script_line::{Key, ScriptLine, read_line};
use crate::setup::{Ledgers, set_limit};
use dispatch::Core;
use events::{App, CoreFault};
use journal::Config;
use settings::usual;
use settings::usual::{NUMBERS, TIMING};
use std::alloc::{AllocError, Global};
use std::io;
use std::io::{BufWriter, ErrorKind, Read, Write};
use std::marker::{Brand, PhantomData};
use std::mem::replace;
use std::process::ExitCode;
use std::sync::ledger::{Blank, Ledger};

/// Into how many parts each of the server's ledgers is cut.
const PARTS: u64 = 65_536;

/// How many bytes one read asks for.
const READ_SIZE: usize = 4096;

/// Plays a script from standard input to a server with this app, prints the answers, and answers the
/// program's status.
pub fn play_script<R: Input + Print + AllocGlobal, A: App>(
    rt: &R,
    app: &A,
) -> Result<ExitCode, RunError> {
    let mut reader = rt.reader();
    let mut writer = BufWriter::new(rt.alloc(), io::writer(rt)).map_err(|_| RunError::Memory)?;
    run_script(rt.alloc(), app, &mut reader, &mut writer)?;
    Ok(ExitCode::SUCCESS)
}

/// The limits of a script's server where it sets none: the usual ones, for fewer clients and with
/// fewer entries for each.
pub fn usual_limits(alloc: Global) -> Result<Config, AllocError>
    ensures { IfOk result (λ limits. limits ≡ USUAL) }
{
    let mut limits = usual::hub(alloc)?;
    limits.clients = 1024;
    limits.capacity = 64;
    Ok(limits)
}

/// Reads script lines to the end of the input, plays them to a server with this app, and writes
/// the answers. What was answered is flushed before each read and at the end. The last line may
/// lack its LF. Where the limits allow no server, that is the last answer, and the lines after it
/// ask for nothing.
pub fn run_script<A: App, R: Read, W: Write>(
    alloc: Global,
    app: &A,
    reader: &mut R,
    writer: &mut W,
) -> Result<(), RunError>
    ensures end { OnOk result (IsAtEnd (R.remaining reader.new)) }
    ensures answered { OnOk result (IsAnswered (A.policy app.now) USUAL
        (R.remaining reader.old) (W.contents writer.old) (W.contents writer.new)) }
{
    run_script_within(alloc, app, usual_limits(alloc)?, reader, writer)
}

/// The same with a server of these limits, where the script sets none.
pub fn run_script_within<A: App, R: Read, W: Write>(
    alloc: Global,
    app: &A,
    limits: Config,
    reader: &mut R,
    writer: &mut W,
) -> Result<(), RunError>
    ensures end { OnOk result (IsAtEnd (R.remaining reader.new)) }
    ensures answered { OnOk result (IsAnswered (A.policy app.now) limits
        (R.remaining reader.old) (W.contents writer.old) (W.contents writer.new)) }
{
    let (commands, taken) = (Blank::new(PARTS), Blank::new(PARTS));
    let served = serve::<Brand, Brand, A, R, W>(
        alloc, app, limits, reader, writer, commands, taken,
    );
    if served.is_err() {
        // The fault that ended the run is told, and not one more.
        let _ = flush(writer);
    }
    served
}

/// Reads to the end of the input, and answers each line.
fn serve<C: Ledger, T: Ledger, A: App, R: Read, W: Write>(
    alloc: Global,
    app: &A,
    limits: Config,
    reader: &mut R,
    writer: &mut W,
    commands: Blank,
    taken: Blank,
) -> Result<(), RunError>
    requires commands { (commands.name ≡ C.name)
        × (commands.parts ≡ C.parts) × (commands.parts ≡ 65536) }
    requires taken { (taken.name ≡ T.name) × (taken.parts ≡ T.parts) × (taken.parts ≡ 65536) }
    ensures end { OnOk result (IsAtEnd (R.remaining reader.new)) }
    ensures answered { OnOk result (IsAnswered (A.policy app.now) limits
        (R.remaining reader.old) (W.contents writer.old) (W.contents writer.new)) }
{
    let ledgers = Ledgers {
        alloc,
        commands,
        taken,
        of: PhantomData,
    };
    let mut run: Run<C, T> = Run::Setting(limits, ledgers);
    let mut line = Vec::new(alloc);
    let mut buffer = [0u8; READ_SIZE];
    for _ in 0..u64::MAX {
        flush(writer)?;
        let Some(bytes) = read_some(reader, &mut buffer)? else {
            continue;
        };
        if bytes.is_empty() {
            answer_line(app, &mut run, &mut line, writer)?;
            flush(writer)?;
            return Ok(());
        }
        answer_lines(app, &mut run, &mut line, bytes, writer)?;
    }
    Err(RunError::Reading)
}

/// One read. An interrupted one gives nothing and is no fault.
fn read_some<'a, R: Read>(
    reader: &mut R,
    buffer: &'a mut [u8],
) -> Result<Option<&'a [u8]>, RunError>
    ensures err { IsOkUnless result Reading }
    ensures end { IfOk result (λ got. IfSome got (λ bytes.
        length bytes.now ≡ 0 → 0 < length buffer.old → IsAtEnd (R.remaining reader.new))) }
    ensures got { IfOk result (λ got. Gives (R.remaining reader.old) got (R.remaining reader.new)) }
{
    match reader.read(buffer) {
        Ok(count) => Ok(Some(&buffer[..count])),
        Err(error) if error.kind() == ErrorKind::Interrupted => Ok(None),
        Err(_) => Err(RunError::Reading),
    }
}

fn flush<W: Write>(writer: &mut W) -> Result<(), RunError>
    ensures kept { Keeps (W.contents writer.old) (W.contents writer.new) }
    ensures err { IsOkUnless result Writing }
{
    writer.flush().map_err(|_| RunError::Writing)
}

/// Answers each line that these bytes end, the first of them begun by `line`, and leaves in `line`
/// what they begin.
fn answer_lines<C: Ledger, T: Ledger, A: App, W: Write>(
    app: &A,
    run: &mut Run<C, T>,
    line: &mut Vec<u8>,
    bytes: &[u8],
    writer: &mut W,
) -> Result<(), RunError>
    ensures unended { OnOk result (IsUnended line.old.items → IsUnended line.new.items) }
    ensures answered { OnOk result (IsUnended line.old.items
        → WritesOn (A.policy app.now) (W.contents writer.old)
        (W.contents writer.new) (plain_run run.old) line.old.items bytes.now
        line.new.items (plain_run run.new)) }
    ensures err { IfErr result (λ fault. fault ≢ Reading) }
{
    for byte in bytes {
        answer_byte(app, run, line, *byte, writer)?;
    }
    Ok(())
}

/// One byte more: an LF ends the line, which is answered, and any other belongs to it.
fn answer_byte<C: Ledger, T: Ledger, A: App, W: Write>(
    app: &A,
    run: &mut Run<C, T>,
    line: &mut Vec<u8>,
    byte: u8,
    writer: &mut W,
) -> Result<(), RunError>
    ensures unended { OnOk result (IsUnended line.old.items → IsUnended line.new.items) }
    ensures answered { OnOk result (IsUnended line.old.items
        → WritesOn (A.policy app.now) (W.contents writer.old)
        (W.contents writer.new) (plain_run run.old) line.old.items (byte ∷ [])
        line.new.items (plain_run run.new)) }
    ensures err { IfErr result (λ fault. fault ≢ Reading) }
{
    if byte == b'\n' {
        return answer_line(app, run, line, writer);
    }
    line.push(byte)?;
    Ok(())
}

/// Answers a whole line and empties it for the next.
fn answer_line<C: Ledger, T: Ledger, A: App, W: Write>(
    app: &A,
    run: &mut Run<C, T>,
    line: &mut Vec<u8>,
    writer: &mut W,
) -> Result<(), RunError>
    ensures emptied { OnOk result (line.new.items ≡ []) }
    ensures answered { OnOk result (WritesLine (A.policy app.now)
        (W.contents writer.old) (W.contents writer.new) line.old.items
        (plain_run run.old) (plain_run run.new)) }
    ensures err { IfErr result (λ fault. fault ≢ Reading) }
{
    print_any(writer, run.answer(app, read_line(line.as_slice()))?)?;
    line.clear();
    Ok(())
}

/// Prints the answer to a line, if there is one.
fn print_any<W: Write>(writer: &mut W, answer: Option<Answer<'_>>) -> Result<(), RunError>
    ensures printed { OnOk result (Appends (W.contents writer.old) (W.contents writer.new)
        (printed (option_map answer_text answer.entry))) }
    ensures err { IsOkUnless result Writing }
{
    match answer {
        Some(answer) => writeln!(writer, "{answer}").map_err(|_| RunError::Writing),
        None => Ok(()),
    }
}

/// A script under way: how far it has come.
#[derive(Drop)]
enum Run<C: Ledger, T: Ledger> {
    /// Limits may be set.
    Setting(Config, Ledgers<C, T>),
    /// The server is there.
    Playing(Play<C, T>),
    /// There is no server, and nothing is answered any more.
    Over,
}

impl<C: Ledger, T: Ledger> Run<C, T> {
    /// Does what a line asks for. A blank line or a comment has no answer.
    fn answer<'a, A: App>(
        &mut self,
        app: &A,
        line: ScriptLine<'a>,
    ) -> Result<Option<Answer<'a>>, RunError>
        ensures nothing { line.entry ≡ ScriptLine.Nothing → result ≡ Ok None }
        ensures answers { IfOk result (λ answer. Answers (A.policy app.now)
            line.entry (plain_run self.old) (option_map answer_text answer) (plain_run self.new)) }
        ensures err { IsOkUnless result Memory }
    {
        match line {
            ScriptLine::Nothing => Ok(None),
            ScriptLine::Config(key, number) => Ok(self.set(key, number)),
            _ => match self.begin()? {
                Some(fault) => Ok(Some(Answer::Refused(fault))),
                None => self.play(app, line),
            },
        }
    }

    /// Sets a limit, as long as there is no server.
    fn set(&mut self, key: Key, number: u64) -> Option<Answer<'static>>
        ensures { Sets key number
            (plain_run self.old) (option_map answer_text result) (plain_run self.new) }
    {
        match self {
            Run::Setting(limits, _) => {
                set_limit(limits, key, number);
                None
            }
            Run::Playing(_) => Some(Answer::BadLine),
            Run::Over => None,
        }
    }

    /// Makes the server at the first line that isn't about its limits, unless it is refused.
    fn begin(&mut self) -> Result<Option<CoreFault>, RunError>
        ensures begins { IfOk result (λ fault.
            Begins (plain_run self.old) fault (plain_run self.new)) }
        ensures err { IsOkUnless result Memory }
    {
        match replace(self, Run::Over) {
            Run::Setting(limits, ledgers) => {
                let (alloc, commands, taken) = (ledgers.alloc, ledgers.commands, ledgers.taken);
                match Core::new(alloc, limits, TIMING, NUMBERS, commands, taken) {
                    Ok((core, pass)) => *self = Run::Playing(Play::new(alloc, core, pass)),
                    Err(error) if error.fault == CoreFault::Memory => return Err(RunError::Memory),
                    Err(error) => return Ok(Some(error.fault)),
                }
            }
            begun => *self = begun,
        }
        Ok(None)
    }

    /// Plays a line, where there is a server.
    fn play<'a, A: App>(
        &mut self,
        app: &A,
        line: ScriptLine<'a>,
    ) -> Result<Option<Answer<'a>>, RunError>
        ensures plays { IfOk result (λ answer. PlaysOn (A.policy app.now)
            line.entry (plain_run self.old) (option_map answer_text answer) (plain_run self.new)) }
        ensures err { IsOkUnless result Memory }
    {
        match self {
            Run::Playing(play) => play.answer(app, line),
            Run::Setting(..) | Run::Over => Ok(None),
        }
    }
}
