//! The program's jobs, from its arguments to its exit status.
ghost use Rattle.std.specs.Prelude.{◌≡◌, ◌≢◌, ◌↔◌, [], IfErr, IsErrOf, map, string_bytes};
ghost use Rattle.relay_hub.specs.Queries.{BadLimits};
ghost use Rattle.relay_hub.specs.Stands.{StandsFor};
ghost use Rattle.relay_loopback.specs.Loopback.{hub_of};
ghost use Rattle.relay_script.specs.Lines.{AppendsPart};
ghost use Rattle.relay_server.specs.Complaints.{unread_complaint};
ghost use Rattle.relay_server.specs.Config.{config_of};
ghost use Rattle.relay_server.specs.Jobs.{JobEnds, LoopEnds, Starts, StopEnds, code_of};
ghost use Rattle.relay_server.specs.Jobs.{sockets_status, unread_status};
ghost use Rattle.relay_script.specs.declared.fault.ScriptFault.TheVariants.{BadLimit};
ghost use Rattle.relay_loopback.specs.declared.fault.ServeFault.TheVariants.{Ended};

use crate::config::config_of;
use crate::serve::{ServeOptions, serve};
use crate::status::{Status, complaint, report, say};
use crate::store_opener::StoreOpener;
use crate::store_tools::{report_tool, use_tool};
use relay_loopback::{Loopback, ServeFault, loopback_at};
use relay_options::{Job, Settings, Stop, job_of};
use relay_script::{Script, ScriptFault, run_follow, run_lines, run_script, write_whole};
use std::alloc::{AllocGlobal, Global};
use std::io::{self, ErrorKind, Read, Write};
use std::net::{Net, SocketAddr};
use std::time::Clock;

/// Runs the job that the arguments `words` ask for, over a reader and a writer, and reports faults
/// on `errors`. The first word is the program's name. Returns the exit status: 0 if all was done or
/// help was asked for, 1 for a fault of input, output, a line, a port or sockets, 2 for a fault of
/// the arguments, 3 if out of memory, 4 if a store keeps no room of the name that was asked for.
/// Requested help goes to the writer. If the arguments ask for
/// no job, nothing is read.
///
/// ```
/// let words = [String::from_str(alloc, "relay").ok()?, String::from_str(alloc, "follow").ok()?];
/// let mut input = "{\"kind\":\"snapshot\",\"rev\":1,\"view\":[[7]]}\n".as_bytes();
/// let (mut output, mut errors) = (Vec::new(alloc), Vec::new(alloc));
/// let status = start(rt, &words, &mut input, &mut output, &mut errors);
/// assert!(rt; status == 0 && output.as_slice() == "held 1 [[7]]\n".as_bytes());
/// ```
pub fn start<H: AllocGlobal + Clock + Net + StoreOpener, R: Read, W: Write, E: Write>(
    rt: &H,
    words: &[String],
    reader: &mut R,
    writer: &mut W,
    errors: &mut E,
) -> u8
    ensures { Starts (map string_bytes words.now) result (R.remaining reader.old)
        (R.remaining reader.new) (W.contents writer.old) (W.contents writer.new) }
{
    let alloc = rt.alloc();
    match job_of(alloc, words, seconds_since_1970(rt)) {
        Ok(job) => carry_out(alloc, rt, job, reader, writer, errors).code(),
        Err(stop) => explain(&stop, writer, errors).code(),
    }
}

/// The present time, if the clock can be read.
fn seconds_since_1970<C: Clock>(clock: &C) -> Option<u64> {
    Some(clock.since_1970().ok()?.as_secs())
}

/// Reports on `errors` why the arguments could not be read. Returns the exit status: 2 if one of
/// them is not UTF-8, 3 if out of memory, otherwise 1.
///
/// ```
/// let mut errors = Vec::new(alloc);
/// assert!(rt; refuse_words(ErrorKind::InvalidData, &mut errors) == 2 && !errors.is_empty());
/// assert!(rt; refuse_words(ErrorKind::OutOfMemory, &mut errors) == 3);
/// ```
pub fn refuse_words<E: Write>(why: ErrorKind, errors: &mut E) -> u8
    ensures status { result ≡ code_of (unread_status why) }
    ensures says { AppendsPart (E.contents errors.old) (E.contents errors.new)
        (unread_complaint why) }
{
    say(unread_complaint(why), errors);
    unread_status(why).code()
}

/// The cause for which the arguments could not be read, for standard error.
fn unread_complaint(why: ErrorKind) -> &'static str
    ensures { result.now ≡ unread_complaint why }
{
    match why {
        ErrorKind::InvalidData => "relay: an argument is not UTF-8\n",
        ErrorKind::OutOfMemory => complaint(ScriptFault::NoMemory),
        _ => "relay: the arguments cannot be read\n",
    }
}

fn unread_status(why: ErrorKind) -> Status
    ensures { result ≡ unread_status why }
{
    match why {
        ErrorKind::InvalidData => Status::Misused,
        ErrorKind::OutOfMemory => Status::NoMemory,
        _ => Status::Failed,
    }
}

/// Runs a job over a reader and a writer, with sockets from `net`, and reports faults on `errors`.
///
/// ```
/// let mut input = "{\"kind\":\"snapshot\",\"rev\":1,\"view\":[[7]]}\n".as_bytes();
/// let (mut output, mut errors) = (Vec::new(alloc), Vec::new(alloc));
/// let ended = carry_out(alloc, rt, Job::Follow, &mut input, &mut output, &mut errors);
/// assert!(rt; ended == Status::Done && errors.is_empty());
/// assert!(rt; output.as_slice() == "held 1 [[7]]\n".as_bytes());
/// ```
pub fn carry_out<N: Clock + Net + StoreOpener, R: Read, W: Write, E: Write>(
    alloc: Global,
    net: &N,
    job: Job,
    reader: &mut R,
    writer: &mut W,
    errors: &mut E,
) -> Status
    ensures { JobEnds job result (R.remaining reader.old) (R.remaining reader.new)
        (W.contents writer.old) (W.contents writer.new) }
{
    match job {
        Job::Script(settings) => report(
            run_script(alloc, reader, writer, config_of(settings)),
            errors,
        ),
        Job::Follow => report(run_follow(alloc, reader, writer), errors),
        Job::Loop(settings) => {
            let ended = run_loop(alloc, net, reader, writer, settings);
            report_sockets(ended, errors)
        }
        Job::Serve {
            listen,
            port,
            admin,
            rounds,
            log,
            forget_rooms,
            closed,
            output_mib,
            origins,
            per_peer,
            store,
            settings,
        } => {
            let options = ServeOptions {
                listen,
                port,
                admin,
                rounds,
                log,
                forget_rooms,
                closed,
                output_mib,
                origins,
                per_peer,
            };
            let ended = serve(alloc, net, writer, errors, store, options, settings);
            report_sockets(ended, errors)
        }
        Job::Store(job) => {
            let ended = use_tool(alloc, net, reader, writer, &job);
            report_tool(ended, job.file.as_str(), errors)
        }
    }
}

/// Carries out the lines of a script through loopback sockets.
fn run_loop<N: Net, R: Read, W: Write>(
    alloc: Global,
    net: &N,
    reader: &mut R,
    writer: &mut W,
    settings: Settings,
) -> Result<(), ServeFault>
    ensures ends { LoopEnds result (R.remaining reader.old) (R.remaining reader.new)
        (W.contents writer.old) (W.contents writer.new) }
    ensures bad_limit { IsErrOf result (Ended BadLimit) ↔ BadLimits (config_of settings) }
{
    let loopback = Loopback::new(alloc, net, config_of(settings))?;
    answer_lines(alloc, loopback, reader, writer, settings)
}

/// Carries out the lines by a loopback whose hub stands for the empty log, with the configuration
/// of these settings.
fn answer_lines<N: Net, R: Read, W: Write>(
    alloc: Global,
    loopback: Loopback<'_, N>,
    reader: &mut R,
    writer: &mut W,
    settings: Settings,
) -> Result<(), ServeFault>
    requires { StandsFor (config_of settings) [] (hub_of loopback) }
    ensures ends { LoopEnds result (R.remaining reader.old) (R.remaining reader.new)
        (W.contents writer.old) (W.contents writer.new) }
    ensures limits { IfErr result (λ fault. fault ≢ Ended BadLimit) }
{
    run_lines(alloc, &mut Script::new(alloc, loopback), reader, writer)?;
    Ok(())
}

/// Reports on `errors` why a job with sockets ended early, and returns its status. Of a store that
/// was said before.
fn report_sockets<E: Write>(ended: Result<(), ServeFault>, errors: &mut E) -> Status
    ensures { result ≡ sockets_status ended }
{
    match ended {
        Ok(()) => Status::Done,
        Err(ServeFault::Listen { address, code }) => {
            say_address(address, errors);
            say_code(code, errors);
            Status::Failed
        }
        Err(ServeFault::Wait) => {
            say("relay: cannot wait for sockets\n", errors);
            Status::Failed
        }
        Err(ServeFault::Store | ServeFault::Lost) => Status::Failed,
        Err(ServeFault::Ended(fault)) => report(Err(fault), errors),
    }
}

/// Says where the program cannot listen: at a port, or at an address that is not the default one.
fn say_address<E: Write>(address: SocketAddr, errors: &mut E) {
    let port = address.port();
    let _ = if address == loopback_at(port) {
        writeln!(errors, "relay: cannot listen on port {port}")
    } else {
        writeln!(errors, "relay: cannot listen on {address}")
    };
}

/// Says what the number of a system's error means, if there is one.
fn say_code<E: Write>(code: Option<i32>, errors: &mut E) {
    if let Some(code) = code {
        let _ = writeln!(errors, "relay: {}", io::Error::from_raw_os_error(code));
    }
}

/// Writes requested help, or reports why there is no job. Returns the status.
fn explain<W: Write, E: Write>(stop: &Stop, writer: &mut W, errors: &mut E) -> Status
    ensures { StopEnds stop.now result (W.contents writer.old) (W.contents writer.new) }
{
    match stop {
        Stop::Help(text) => report(write_whole(writer, text.as_bytes()), errors),
        Stop::Misuse(text) => {
            say(text, errors);
            Status::Misused
        }
        Stop::NoMemory => report(Err(ScriptFault::NoMemory), errors),
    }
}
