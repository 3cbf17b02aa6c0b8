//! What a program is asked to do.

ghost use Rattle.std.specs.Prelude.{◌≡◌, IfErr, IfOk, OnOk};
ghost use Rattle.std.specs.Box.{box_value};
ghost use Rattle.clap.specs.Words.{kind_of};
ghost use Rattle.arguments.specs.Options.{FilesAgree, IsRightTask, IsToldOf, MakesServer};

use crate::asked::read_settings;
use crate::files::{read_verifier, token_in};
use crate::options::{Options, server, usual_texts};
use crate::wrong::{Wrong, check_backend, check_need, check_settings};
use clap::error::ErrorKind;
use clap::{ArgMatches, Command, Error};
use page::{FolderError, read_folder};
use std::alloc::{AllocError, Global};
use std::rt::{Env, Files};
use std::{env, io};

/// What the arguments of `event_server` ask for.
#[derive(Drop)]
pub enum Task {
    /// To serve a script from standard input.
    Script,
    /// To serve clients over TCP.
    Serve(Box<Options>),
}

/// A program whose arguments are read.
#[derive(Clone, Copy)]
enum Program {
    /// `event_server` with its subcommands, of which one must be given.
    EventServer,
    /// One that serves and does nothing else, with its name and what is told of it.
    Server(&'static str, &'static str),
}

impl Program {
    /// The command, with the texts of what is usual.
    fn command<'a>(self, alloc: Global, usual: &'a [String]) -> Result<Command<'a>, AllocError> {
        if let Program::Server(name, about) = self {
            return server(alloc, name, about, false, usual);
        }
        let script = Command::new(alloc, "script").about(
            "Serves the clients of a script from standard input, and prints the answers",
        );
        let program = Command::new(alloc, "event_server")
            .about("A Socket.IO server")
            .subcommand_required(true)
            .subcommand(script)?;
        let serve = "Serves browsers and other clients over TCP";
        program.subcommand(server(alloc, "serve", serve, true, usual)?)
    }

    /// The error of arguments that can't be read.
    fn misread(self, alloc: Global, fault: io::ErrorKind) -> Result<Error, AllocError> {
        match fault {
            io::ErrorKind::OutOfMemory => Err(AllocError),
            _ => self.refusal(alloc, Wrong::NotUtf8),
        }
    }

    /// The error of arguments that can't be taken.
    fn refusal(self, alloc: Global, wrong: Wrong) -> Result<Error, AllocError>
        ensures { IfOk result (λ error. kind_of error ≡ ErrorKind.InvalidValue) }
    {
        if let Wrong::Memory(refused) = wrong {
            return Err(refused);
        }
        let (told, usual) = (format!(in alloc; "{wrong}")?, usual_texts(alloc)?);
        let mut command = self.command(alloc, usual.as_slice())?;
        command.error(ErrorKind::InvalidValue, told.as_str())
    }
}

/// Reads the arguments of `event_server`, where so many threads serve if none says how many. `--help`
/// too is answered by an error.
pub fn read_arguments<R: Env + Files + AllocGlobal + Clone + Drop>(
    rt: &R,
    processors: usize,
) -> Result<Task, Error>
    ensures { IfOk result IsRightTask }
{
    let program = Program::EventServer;
    let words = words(rt, program)?;
    let usual = usual_texts(rt.alloc())?;
    let command = program.command(rt.alloc(), usual.as_slice())?;
    let matches = command.try_get_matches_from(words.as_slice())?;
    match matches.subcommand_matches("serve") {
        Some(serve) => Ok(Task::Serve(right_options(rt, program, serve, processors)?)),
        None => Ok(Task::Script),
    }
}

/// Reads the arguments of a program of this name that serves and does nothing else. Its options are
/// those of `event_server serve`, but for that of backends.
pub fn read_server_arguments<R: Env + Files + AllocGlobal + Clone + Drop>(
    rt: &R,
    name: &'static str,
    about: &'static str,
    processors: usize,
) -> Result<Box<Options>, Error>
    ensures { IfOk result (λ options. MakesServer (box_value options)) }
{
    let program = Program::Server(name, about);
    let words = words(rt, program)?;
    let usual = usual_texts(rt.alloc())?;
    let command = program.command(rt.alloc(), usual.as_slice())?;
    let matches = command.try_get_matches_from(words.as_slice())?;
    right_options(rt, program, &matches, processors)
}

/// The arguments as text, the program's name first.
fn words<R: Env + AllocGlobal>(rt: &R, program: Program) -> Result<Vec<String>, Error> {
    match env::args(rt) {
        Ok(words) => Ok(words.collect(rt.alloc())?),
        Err(error) => Err(program.misread(rt.alloc(), error.kind())?),
    }
}

/// What the options ask for, with what is in the files that they name. Those with which no server is
/// made are refused.
fn right_options<R: Files + AllocGlobal + Clone + Drop>(
    rt: &R,
    program: Program,
    matches: &ArgMatches<'_>,
    processors: usize,
) -> Result<Box<Options>, Error>
    ensures right { IfOk result (λ options. MakesServer (box_value options)) }
    ensures told { IfErr result (λ error. IsToldOf (kind_of error)) }
{
    match read_options(rt, matches, processors) {
        Ok(options) => Ok(options),
        Err(wrong) => Err(program.refusal(rt.alloc(), wrong)?),
    }
}

/// The same, or the first that is wrong with the options.
fn read_options<R: Files + AllocGlobal + Clone + Drop>(
    rt: &R,
    matches: &ArgMatches<'_>,
    processors: usize,
) -> Result<Box<Options>, Wrong>
    ensures { IfOk result (λ options. MakesServer (box_value options)) }
{
    let end_expired = matches.get_flag("end-expired");
    let options = Options {
        settings: read_settings(rt.alloc(), matches, processors, end_expired)?,
        token: None,
        signed: None,
        end_expired,
        backend: None,
        tell_left: matches.get_flag("tell-left"),
        until_eof: matches.get_flag("until-eof"),
        verbose: matches.get_flag("verbose"),
    };
    let mut options = Box::new(rt.alloc(), options)?;
    let (rate, burst) = (matches.get_one("pace"), matches.get_one("burst"));
    check_settings(&mut options.settings, rate, burst)?;
    read_files(rt, matches, &mut options)?;
    Ok(options)
}

/// Reads what the options name: the files of a folder, tokens and keys.
fn read_files<R: Files + AllocGlobal + Clone + Drop>(
    rt: &R,
    matches: &ArgMatches<'_>,
    options: &mut Options,
) -> Result<(), Wrong>
    ensures agrees { OnOk result (FilesAgree options.new) }
    ensures others { options.new ≡ record options.old {
      settings = record options.old.settings { page = options.new.settings.page };
      token = options.new.token;
      signed = options.new.signed;
      backend = options.new.backend;
    } }
{
    if let Some(folder) = matches.get_str("page") {
        options.settings.page = match read_folder(rt, folder) {
            Ok(page) => page,
            Err(FolderError::Memory(refused)) => return Err(Wrong::Memory(refused)),
            Err(fault) => return Err(Wrong::Page(String::from_str(rt.alloc(), folder)?, fault)),
        };
    }
    options.token = token_in(rt, "token-file", matches.get_str("token-file"))?;
    let files = matches.get_strs("jwt-key").unwrap_or(&[]);
    options.signed = read_verifier(rt, files, matches.get_str("jwt-audience"))?;
    check_need(
        options.end_expired,
        options.signed.is_some(),
        Wrong::NothingExpires,
    )?;
    options.backend = token_in(rt, "backend-token", matches.get_str("backend-token"))?;
    check_backend(&options.backend, &options.token, options.tell_left)
}
