//! What is told of arguments that ask for nothing that runs.

ghost use Rattle.std.specs.Prelude.{◌≡◌, ◌≢◌, ◌⊎◌, Err, IsOkAnd, MatchResult};
ghost use Rattle.std.specs.Process.{exit_status};
ghost use Rattle.clap.specs.Words.{kind_of};
ghost use Rattle.arguments.specs.declared.refused.PrintFault.TheVariants as fault;

use clap::Error;
use clap::error::ErrorKind;
use std::process::ExitCode;
use thiserror::Error;

/// Why such arguments have no status of their own.
#[derive(Clone, Copy, Debug, Error)]
pub enum PrintFault {
    /// An allocation was refused as they were read.
    #[error("out of memory")]
    Memory,
    /// The help that they ask for can't be written.
    #[error("device fault while writing")]
    Writing,
}

/// Shows the text of a parse without matches, and gives the status: 0 for help, 2 for bad arguments.
pub fn print_refused<R: Print + Eprint>(rt: &R, refused: &Error) -> Result<ExitCode, PrintFault>
    ensures memory { kind_of refused.now ≡ ErrorKind.OutOfMemory → result ≡ Err fault.Memory }
    ensures mistake { kind_of refused.now ≢ ErrorKind.OutOfMemory
        → kind_of refused.now ≢ ErrorKind.DisplayHelp → kind_of refused.now ≢ ErrorKind.DisplayVersion
        → IsOkAnd result (λ code. exit_status code ≡ 2) }
    ensures asked { (kind_of refused.now ≡ ErrorKind.DisplayHelp) ⊎ (kind_of refused.now ≡ ErrorKind.DisplayVersion)
        → MatchResult result (λ code. exit_status code ≡ 0) (λ error. error ≡ fault.Writing) }
{
    if refused.kind() == ErrorKind::OutOfMemory {
        return Err(PrintFault::Memory);
    }
    match refused.print(rt) {
        _ if refused.use_stderr() => Ok(ExitCode::from(2)),
        Ok(()) => Ok(ExitCode::SUCCESS),
        Err(_) => Err(PrintFault::Writing),
    }
}
