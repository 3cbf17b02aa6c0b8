//! A Socket.IO server as a program: `event_server serve` serves clients over TCP, and `event_server
//! script` serves the clients of a script.
#![tactic(auto)]

use arguments::BACKENDS;
use arguments::options::Options;
use arguments::refused::print_refused;
use arguments::task::{Task, read_arguments};
use guarded::{EXPIRY, Entrance, Expiring, Guarded};
use relay::{Presence, RelayApp};
use script::{RunError, play_script};
use settings::Warding;
use std::alloc::{AllocError, Global};
use std::net::Net;
use std::process::ExitCode;
use std::random::RandomSource;
use std::rt::Clock;
use std::thread;
use switchboard::Switchboard;
use tcp_server::{
    ErrorLog, Server, ServerFault, draw_secret, end_with, listen, processors, seconds_now, serve,
    wait_for_end,
};
use terms::Text;

/// The program's name.
const NAME: &str = "event_server";

/// This app behind this entrance. It guards the namespace of the backends itself, where it has some,
/// and that of the warden, who ends sockets with this token, if there is one.
fn guarded<A: Drop>(
    alloc: Global,
    app: A,
    backends: Option<&str>,
    entrance: Entrance,
    token: Option<Text>,
) -> Result<Guarded<Expiring<A>>, AllocError> {
    let mut apart = Vec::new(alloc);
    if let Some(space) = backends {
        apart.push(Text::copy_of(alloc, space)?)?;
    }
    if token.is_some() {
        apart.push(Text::copy_of(alloc, EXPIRY)?)?;
    }
    Ok(Guarded {
        apart,
        app: Expiring { app, token },
        entrance,
    })
}

fn main(rt: HostRuntime) -> ExitCode {
    let options = match read_arguments(&rt, processors(&rt)) {
        Ok(Task::Script) => return end_with(&rt, NAME, serve_script(&rt)),
        Ok(Task::Serve(options)) => Box::into_inner(options),
        Err(refused) => return end_with(&rt, NAME, print_refused(&rt, &refused)),
    };
    let until_eof = options.until_eof;
    let (server, app) = match begin(&rt, options) {
        Ok(begun) => begun,
        Err(fault) => return end_with(&rt, NAME, Err(fault)),
    };
    if until_eof {
        if let Ok(shared) = server.shared() {
            // Where no thread can be made, the server ends by a kill alone.
            let _ = thread::spawn(&rt, move || wait_for_end(&rt, &shared));
        }
    }
    let served = match &app {
        Served::Demonstration(app) => serve(&rt, server, app),
        Served::Backends(app) => serve(&rt, server, app),
    };
    end_with(&rt, NAME, served)
}

/// Serves the clients of a script.
fn serve_script<R: Input + Print + AllocGlobal>(rt: &R) -> Result<ExitCode, RunError> {
    let (app, tells) = (RelayApp, false);
    let (app, entrance) = (Presence { app, tells }, Entrance::open());
    let app = guarded(rt.alloc(), app, None, entrance, None)?;
    play_script(rt, &app)
}

/// By what a warden ends the sockets of tokens that have expired, where they are to be ended.
fn warding<R: RandomSource + AllocGlobal>(
    rt: &R,
    is_asked: bool,
    began: u32,
) -> Result<Option<Warding>, ServerFault> {
    if !is_asked {
        return Ok(None);
    }
    let token = draw_secret(rt, rt.alloc())?;
    Ok(Some(Warding { token, began }))
}

/// The namespaces that backends may speak of: all but that of the warden.
fn spaces_for(options: &Options) -> Result<Vec<Text>, AllocError> {
    let mut spaces = options.settings.hub.spaces.clone()?;
    if options.end_expired {
        spaces.retain(|space| space.as_str() != EXPIRY);
    }
    Ok(spaces)
}

/// The app that is served: the demonstration app, which tells of sockets that have ended or doesn't,
/// or the one that backends drive.
#[derive(Drop)]
enum Served {
    Demonstration(Guarded<Expiring<Presence<RelayApp>>>),
    Backends(Guarded<Expiring<Switchboard>>),
}

/// Listens as these options say, and makes the app. Backends are it where there is a token for them.
fn begin<R>(rt: &R, options: Options) -> Result<(Server<ErrorLog<R>>, Served), ServerFault>
where
    R: Net + Clock + RandomSource + Print + Eprint + AllocGlobal + Copy + Drop + Sync,
{
    let (alloc, spaces) = (rt.alloc(), spaces_for(&options)?);
    let Options {
        mut settings,
        token,
        signed,
        end_expired,
        backend,
        tell_left,
        until_eof: _,
        verbose,
    } = options;
    let began = seconds_now(rt)?;
    let warding = warding(rt, end_expired, began)?;
    let warden = warding.as_ref().map(|it| it.token.clone()).transpose()?;
    settings.warding = warding;
    let entrance = Entrance {
        token,
        signed,
        began,
    };
    let app = match backend {
        Some(token) => {
            let app = Switchboard { token, spaces };
            Served::Backends(guarded(alloc, app, Some(BACKENDS), entrance, warden)?)
        }
        None => {
            let (app, tells) = (RelayApp, tell_left);
            Served::Demonstration(guarded(alloc, Presence { app, tells }, None, entrance, warden)?)
        }
    };
    Ok((listen(rt, settings, verbose)?, app))
}
