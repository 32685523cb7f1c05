//! Runs `ssa-server`: the types file is read, the port is told, connections are served. Turns of connections stand in
//! `serving` and `polling`.

use crate::arguments::{ServerOptions, options};
use crate::creations::create_from;
use crate::fault::ServerFault;
use crate::following::FollowedFile;
use crate::witness::Witness;
use programs::{RunFault, end_with, profile_asked, types_in, types_text};
use serving::{Limits, Server, serve_all};
use std::io::{self, ErrorKind};
use std::net::{Ipv4Addr, Net, OpenListener, SocketAddr, TcpListener};
use std::process::ExitCode;
use std::rt::{Clock, Files};
use std::time::Instant;
use verbs::Api;

/// Tells the port that is listened on.
fn log_port<R: Print>(rt: &R, port: u16) -> Result<(), ServerFault> {
    Ok(println!(rt; "listening on {}:{port}", Ipv4Addr::LOCALHOST).map_err(RunFault::Output)?)
}

/// Listens on a port of loopback.
fn listener_on<R: Net>(rt: &R, port: u16) -> Result<R::Listener, RunFault> {
    TcpListener::bind(rt, SocketAddr::from((Ipv4Addr::LOCALHOST, port))).map_err(
        |error| RunFault::of_port(port, error),
    )
}

/// Who is told what happens.
fn witness_of<'a, R: Files + Net + Clock + Eprint + AllocGlobal>(
    rt: &'a R,
    options: &ServerOptions<'a>,
) -> Result<Witness<'a, R>, ServerFault> {
    // It fails where the clock can't be read, and nowhere else.
    Witness::new(rt, options.record, options.log).map_err(ServerFault::Clock)
}

/// Serves one connection after another.
fn serve_in_turn<'a, R: Files + Net + Clock + Print + Eprint + AllocGlobal>(
    rt: &'a R,
    server: &mut Server<R::Stream>,
    options: &ServerOptions<'a>,
) -> Result<(), ServerFault> {
    let listener = listener_on(rt, options.port)?;
    let port = listener.local_addr()?.port();
    log_port(rt, port)?;
    let mut witness = witness_of(rt, options)?;
    // It fails where the clock can't be read, and nowhere else.
    serve_all(rt, &mut witness, &listener, server, options.serve).map_err(ServerFault::Clock)
}

fn run_in_turn<'a, R: Files + Net + Clock + Print + Eprint + AllocGlobal>(
    rt: &'a R,
    api: Api,
    options: &ServerOptions<'a>,
) -> Result<(), ServerFault> {
    let limits = Limits {
        keep: options.keep,
        lines: options.pump,
    };
    let mut server = Server::new(rt.alloc(), api, limits);
    serve_in_turn(rt, &mut server, options)
}

/// The fault of an error at the start of a server of many connections: the clock's, where the clock can't be read, or
/// else the port's.
fn fault_at_start<R: Clock>(rt: &R, port: u16, error: io::Error) -> ServerFault {
    match Instant::now(rt) {
        Ok(_) => ServerFault::from(RunFault::of_port(port, error)),
        Err(error) => ServerFault::Clock(error),
    }
}

/// The fault of an error while many connections are served at once: the clock's, where the clock can't be read, or else
/// the socket's.
fn fault_at_once<R: Clock>(rt: &R, error: io::Error) -> ServerFault {
    match Instant::now(rt) {
        Ok(_) => ServerFault::from(error),
        Err(error) => ServerFault::Clock(error),
    }
}

/// Serves many connections at once, until so many are over, and follows the types file.
fn serve_at_once<'a, R: Files + Net + Clock + Print + Eprint + AllocGlobal>(
    rt: &'a R,
    server: &mut polling::Server,
    file: &mut FollowedFile<'a, R>,
    options: &ServerOptions<'a>,
) -> Result<(), ServerFault> {
    let port = server.port()?;
    log_port(rt, port)?;
    let mut witness = witness_of(rt, options)?;
    'turns: for _ in 0..u64::MAX {
        if server.over() >= options.serve {
            return Ok(());
        }
        server
            .turn(rt, &mut witness)
            .map_err(|error| fault_at_once(rt, error))?;
        file.look(&mut witness, server).map_err(ServerFault::Clock)?;
    }
    // More turns than a count of connections can tell.
    Err(ServerFault::Socket(io::Error::from(ErrorKind::Other)))
}

fn run_at_once<'a, R: Files + Net + Clock + Print + Eprint + AllocGlobal>(
    rt: &'a R,
    api: Api,
    text: String,
    options: &ServerOptions<'a>,
) -> Result<(), ServerFault> {
    let asked = polling::Options {
        port: options.port,
        keep: options.keep,
        lines: options.pump,
        patience: options.patience,
        disturbances: options.disturb,
    };
    let mut server = polling::Server::listen(rt, api, asked).map_err(|error| fault_at_start(
        rt,
        options.port,
        error,
    ))?;
    let now = Instant::now(rt).map_err(ServerFault::Clock)?;
    let mut file = FollowedFile::new(
        rt,
        profile_asked(options.discovery),
        options.types,
        text,
        now,
    );
    serve_at_once(rt, &mut server, &mut file, options)
}

fn run<R: Files + Net + Clock + Print + Eprint + AllocGlobal>(
    rt: &R,
    arguments: &[String],
) -> Result<(), ServerFault> {
    let options = options(rt.alloc(), arguments)?;
    let text = types_text(rt, options.types)?;
    let profile = profile_asked(options.discovery);
    let types = types_in(rt.alloc(), profile, options.types, text.as_str())?;
    let mut api = Api::new(rt.alloc(), types)?;
    if let Some(path) = options.objects {
        create_from(rt, &mut api, path)?;
    }
    if options.concurrent {
        run_at_once(rt, api, text, &options)
    } else {
        run_in_turn(rt, api, &options)
    }
}

/// Runs `ssa-server` with its arguments, the program's name first. Answers the exit status; a fault is printed on the
/// standard error.
pub fn ssa_server<R: Files + Net + Clock + Print + Eprint + AllocGlobal>(
    rt: &R,
    arguments: &[String],
) -> ExitCode {
    match run(rt, arguments) {
        Ok(()) => ExitCode::SUCCESS,
        Err(ServerFault::Run(fault)) => end_with(rt, &fault),
        Err(fault) => {
            // Where the standard error takes nothing, the status still names the fault.
            let _ = rt.eprintln(&fault);
            ExitCode::from(fault.status())
        }
    }
}
