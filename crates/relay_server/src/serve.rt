//! The job `relay serve`: it listens, runs its rounds, and ends.
ghost use Rattle.std.specs.Prelude.{ℕ, ◌≡◌, ◌≢◌, ◌≤◌, ◌↔◌, ◌⊎◌, OnOk, OnErr, IfOk, IfErr, IsErrOf};
ghost use Rattle.std.specs.Prelude.{◌-◌, ◌*◌, ◌^◌, min, false, unwrap_or, is_some};
ghost use Rattle.std.specs.Io.KnownBytes.{Appends};
ghost use Rattle.relay_hub.specs.Queries.{BadLimits};
ghost use Rattle.relay_hub.specs.declared.fault.HubNewFault.TheVariants as HubNewFault;
ghost use Rattle.relay_hub.specs.Log.{Log};
ghost use Rattle.relay_hub.specs.Stands.{StandsFor};
ghost use Rattle.relay_hub.specs.declared.config.HubConfig.{HubConfig};
ghost use Rattle.relay_server.specs.Config.{config_of};
ghost use Rattle.relay_server.specs.Jobs.{IsUnopened, Listens, ServesUpTo};
ghost use Rattle.relay_server.specs.Keeper.{Begins, HasKept, StandsAsKept};
ghost use Rattle.relay_script.specs.Lines.{AppendsPart};
ghost use Rattle.relay_server.specs.Printed.{line_of, served_text};
ghost use Rattle.relay_event_loop.specs.Connections.{hub_of, entrance_of, made_by, made_after};
ghost use Rattle.relay_event_loop.specs.Connections.{origins_of, peer_limit_of};
ghost use Rattle.relay_event_loop.specs.Limits.{forgets_rooms, output_limit_of};
ghost use Rattle.relay_event_loop.specs.Rounds.{RoundsOf};
ghost use Rattle.relay_link.specs.Entrance.{is_closed};
ghost use Rattle.relay_link.specs.declared.entrance.Entrance.TheVariants.{Open};
ghost use Rattle.relay_server.specs.Hosted.{HeadlineHolds, IsHosted};
ghost use Rattle.relay_server.specs.declared.serve.TheConstants.{MIB};
ghost use Rattle.relay_script.specs.declared.fault.ScriptFault.TheVariants.{BadLimit, NoMemory};
ghost use Rattle.relay_script.specs.declared.fault.ScriptFault.TheVariants.{Output};
ghost use Rattle.relay_loopback.specs.declared.fault.ServeFault.TheVariants.{Ended, Lost};

use crate::beginning::BeginsWith;
use crate::bound_listener::{self, BoundListener, Sockets};
use crate::config::config_of;
use crate::log_lines::LogLines;
use crate::store_keeper::StoreKeeper;
use crate::store_opener::{OpenStore, StoreOpener};
use crate::tool_fault::ToolFault;
use relay_event_loop::{ConnectionLog, Entrance, NoLog, NotKept, Server};
use relay_hub::{Hub, HubConfig, HubNewFault};
use relay_keeping::{Recovered, take_up};
use relay_loopback::ServeFault;
use relay_operator::AdminPort;
use relay_options::Settings;
use relay_readiness::{AdminReadiness, Readiness};
use relay_script::{ScriptFault, write_whole};
use relay_store::{Keeps, StoreFault};
use relay_store_sqlite::LogBefore;
use std::alloc::Global;
use std::io::{Read, Write};
use std::net::{IpAddr, Net, OpenListener, OpenStream, SocketAddr};
use std::time::Clock;

/// The number of bytes in a MiB.
const MIB: u64 = 1_048_576;

/// The place at which a server listens, the time for which it runs, whether it logs, forgets rooms
/// and begins closed, how much output it holds, and whom it lets in.
#[derive(Debug, PartialEq, Eq, Drop)]
pub struct ServeOptions {
    /// The address on which it listens for clients.
    pub listen: IpAddr,
    /// The port. For 0 the system chooses one.
    pub port: u16,
    /// The port of the operator on 127.0.0.1, if there is one.
    pub admin: Option<u16>,
    /// The number of rounds, which a stop at the operator's port may cut short.
    pub rounds: u64,
    /// True if it logs its connections.
    pub log: bool,
    /// True if the room that has been empty for the longest time is forgotten once all places are
    /// taken.
    pub forget_rooms: bool,
    /// True if clients may enter only once an operator opens the relay. Without `admin` none can.
    pub closed: bool,
    /// The amount of output that its links hold together, in MiB.
    pub output_mib: u64,
    /// The origins whose pages may connect; if there is none, those of every origin may.
    pub origins: Vec<String>,
    /// The number of connections that one address may have, if there is a limit.
    pub per_peer: Option<u64>,
}

/// Listens, prints `listening PORT`, runs the rounds, ends the connections, and prints `turns N`:
/// the rounds asked for, or fewer if an operator stopped it. `errors` gets a warning first if other
/// machines may reach the port, and then the log. At `BadLimit`, `Listen`, `Wait` and `Store`
/// nothing was written to `writer`. At `NoMemory` no line there is cut; at `Output` one may be. At
/// `Lost` the first line was written. Of a store that fails `errors` says why. A store's log is in
/// its file at the end; if it is not, that is `Lost` too, both lines were written, and the file and
/// its log have all that was kept.
pub fn serve<N: Clock + Net + StoreOpener, W: Write, E: Write>(
    alloc: Global,
    net: &N,
    writer: &mut W,
    errors: &mut E,
    store: Option<String>,
    options: ServeOptions,
    settings: Settings,
) -> Result<(), ServeFault>
    ensures ends { ServesUpTo options.admin options.rounds result (W.contents writer.old)
        (W.contents writer.new) }
    ensures bad_limit { IsErrOf result (Ended BadLimit) ↔ BadLimits (config_of settings) }
{
    warn_of_strangers(options.listen, errors);
    let config = config_of(settings);
    match store {
        None => serve_new(alloc, net, writer, errors, options, config),
        Some(name) => serve_kept(alloc, net, writer, errors, name.as_str(), options, config),
    }
}

/// Serves a new hub, whose rooms end with the process.
#[tactic(auto, using(crate::proofs::JobLemmas::limits_kept, crate::proofs::ServeLemmas::ends_unmade, crate::proofs::KeptLemmas::begun_anew))]
fn serve_new<N: Clock + Net, W: Write, E: Write>(
    alloc: Global,
    net: &N,
    writer: &mut W,
    errors: &mut E,
    options: ServeOptions,
    config: HubConfig,
) -> Result<(), ServeFault>
    ensures ends { ServesUpTo options.admin options.rounds result (W.contents writer.old)
        (W.contents writer.new) }
    ensures bad_limit { IsErrOf result (Ended BadLimit) ↔ BadLimits config }
{
    let hub = Hub::with_config(alloc, config)?;
    serve_hub(
        alloc,
        net,
        writer,
        errors,
        &mut NotKept,
        hub,
        options,
        config,
    )
}

/// Serves the hub of a store, with this configuration but for the epoch, which is the store's.
#[tactic(auto, using(crate::proofs::JobLemmas::limits_kept, crate::proofs::ServeLemmas::ends_unmade, crate::proofs::ServeLemmas::ends_unopened, crate::proofs::ServeLemmas::unopened_unlimited))]
fn serve_kept<N: Clock + Net + StoreOpener, W: Write, E: Write>(
    alloc: Global,
    net: &N,
    writer: &mut W,
    errors: &mut E,
    store: &str,
    options: ServeOptions,
    config: HubConfig,
) -> Result<(), ServeFault>
    ensures ends { ServesUpTo options.admin options.rounds result (W.contents writer.old)
        (W.contents writer.new) }
    ensures bad_limit { IsErrOf result (Ended BadLimit) ↔ BadLimits config }
{
    check_limits(alloc, config)?;
    match open_kept(alloc, net, store, config) {
        Ok(kept) => serve_recovered(alloc, net, writer, errors, store, kept, options, config),
        Err(fault) => Err(refuse_store(store, fault, errors)),
    }
}

/// Checks that the numbers of a configuration are within their ranges.
fn check_limits(alloc: Global, config: HubConfig) -> Result<(), HubNewFault>
    ensures { IsErrOf result HubNewFault.BadLimit ↔ BadLimits config }
{
    Hub::with_config(alloc, config)?;
    Ok(())
}

/// Opens a store, and makes a hub of what it keeps, which does the wills that are kept. What they
/// did is kept too, so the keeper of the rooms has kept what the hub is.
fn open_kept<N: StoreOpener>(
    alloc: Global,
    opener: &N,
    store: &str,
    config: HubConfig,
) -> Result<Recovered<N::Store>, StoreFault>
    ensures stood { IfOk result (λ taken. StandsAsKept N.Store.kept N.Store.is_clean config
        taken.rooms.store taken.hub) }
    ensures kept { IfOk result (λ taken. (b : HubConfig) (log : Log) → StandsFor b log taken.hub
        → HasKept N.Store.kept N.Store.is_clean taken.rooms log taken.hub) }
{
    let open = opener.open_store(store, config.epoch)?;
    let config = HubConfig {
        epoch: open.epoch,
        ..config
    };
    match take_up(alloc, config, open.store, &open.changes) {
        Ok(taken) => taken.keep(alloc),
        Err(fault) => {
            put_back(opener, store, open.log_before);
            Err(fault)
        }
    }
}

/// Leaves what was there before beside the file of a store that was opened and is refused. It is
/// opened again for that, since nobody else may have it open meanwhile.
fn put_back<N: StoreOpener>(opener: &N, store: &str, log_before: LogBefore) {
    if let Ok(open) = opener.open_made(store) {
        opener.close_read(store, OpenStore { log_before, ..open });
    }
}

/// Says why a store cannot be opened, and gives the fault of the job.
fn refuse_store<E: Write>(store: &str, fault: StoreFault, errors: &mut E) -> ServeFault
    ensures { IsUnopened result }
{
    if fault == StoreFault::NoMemory {
        return ServeFault::Ended(ScriptFault::NoMemory);
    }
    say_fault(store, fault, errors);
    ServeFault::Store
}

/// Says how many rooms a store has, serves their hub, and moves the log of the store into its file;
/// and says why nothing could be kept any more, if so.
#[tactic(auto, using(crate::proofs::ServeLemmas::ends_moving))]
fn serve_recovered<N: Clock + Net, W: Write, E: Write, K: Keeps + Drop>(
    alloc: Global,
    net: &N,
    writer: &mut W,
    errors: &mut E,
    store: &str,
    kept: Recovered<K>,
    options: ServeOptions,
    config: HubConfig,
) -> Result<(), ServeFault>
    requires stood { StandsAsKept K.kept K.is_clean config kept.rooms.store kept.hub }
    requires kept { (b : HubConfig) (log : Log) → StandsFor b log kept.hub
        → HasKept K.kept K.is_clean kept.rooms log kept.hub }
    ensures ends { ServesUpTo options.admin options.rounds result (W.contents writer.old)
        (W.contents writer.new) }
    ensures limits { IfErr result (λ fault. fault ≢ Ended BadLimit) }
{
    let Recovered { hub, rooms } = kept;
    say_rooms(store, rooms_of(&hub), errors);
    let config = HubConfig {
        epoch: hub.config().epoch,
        ..config
    };
    let mut keeper = StoreKeeper::of(rooms);
    match serve_hub(
        alloc,
        net,
        writer,
        errors,
        &mut keeper,
        hub,
        options,
        config,
    ) {
        Ok(()) => move_log(store, &mut keeper, errors),
        Err(ended) => {
            if let Some(fault) = keeper.fault() {
                say_fault(store, fault, errors);
            }
            Err(ended)
        }
    }
}

/// Moves the log of a store into its file. If that fails, says why, and that nothing is lost.
fn move_log<K: Keeps, E: Write>(
    store: &str,
    keeper: &mut StoreKeeper<K>,
    errors: &mut E,
) -> Result<(), ServeFault>
    ensures moved { K.is_clean keeper.new.rooms.store →
        OnOk result (K.is_checkpointed keeper.new.rooms.store) }
    ensures fault { IfErr result (λ fault. fault ≡ Lost) }
{
    match keeper.checkpoint() {
        Ok(()) => Ok(()),
        Err(fault) => {
            let _ = writeln!(
                errors,
                "relay: --store {store}: {}",
                ToolFault::LogStays(fault)
            );
            Err(ServeFault::Lost)
        }
    }
}

/// The number of rooms of a hub.
fn rooms_of(hub: &Hub) -> usize {
    let most = hub.config().rooms as usize;
    (0..most)
        .find(|index| hub.room_at(*index).is_none())
        .unwrap_or(most)
}

/// Says how many rooms a store has.
fn say_rooms<E: Write>(store: &str, rooms: usize, errors: &mut E) {
    let _ = match rooms {
        0 => writeln!(errors, "relay: --store {store}: no rooms yet"),
        1 => writeln!(errors, "relay: --store {store}: 1 room"),
        _ => writeln!(errors, "relay: --store {store}: {rooms} rooms"),
    };
}

/// Says why a store cannot be opened or written, and the way out that an option gives.
fn say_fault<E: Write>(store: &str, fault: StoreFault, errors: &mut E) {
    let _ = match fault {
        StoreFault::TooManyRooms => writeln!(
            errors,
            "relay: --store {store}: {fault}: give a higher --rooms"
        ),
        _ => writeln!(errors, "relay: --store {store}: {fault}"),
    };
}

/// Warns of an address that other machines may reach.
fn warn_of_strangers<E: Write>(address: IpAddr, errors: &mut E) {
    if !address.is_loopback() {
        let _ = writeln!(
            errors,
            "relay: --listen {address}: every machine that reaches this address can enter"
        );
    }
}

/// Serves a hub of this configuration, whose rooms this keeper keeps, with the log that the options
/// ask for.
#[tactic(auto, using(crate::proofs::KeptLemmas::begun_own))]
fn serve_hub<N: Clock + Net, W: Write, E: Write, K: BeginsWith>(
    alloc: Global,
    net: &N,
    writer: &mut W,
    errors: &mut E,
    keeper: &mut K,
    hub: Hub,
    options: ServeOptions,
    config: HubConfig,
) -> Result<(), ServeFault>
    requires { Begins K.may_begin config keeper.old hub }
    ensures ends { ServesUpTo options.admin options.rounds result (W.contents writer.old)
        (W.contents writer.new) }
    ensures limits { IfErr result (λ fault. fault ≢ Ended BadLimit) }
{
    if options.log {
        let mut log = LogLines::to(alloc, errors, net);
        serve_logged(alloc, net, writer, keeper, &mut log, hub, options)
    } else {
        serve_logged(alloc, net, writer, keeper, &mut NoLog, hub, options)
    }
}

/// Serves a hub with this log.
#[tactic(auto, using(crate::proofs::ServeLemmas::ends_unheard, crate::proofs::ServeLemmas::unheard_unlimited))]
fn serve_logged<N: Clock + Net, W: Write, K: BeginsWith, J: ConnectionLog>(
    alloc: Global,
    net: &N,
    writer: &mut W,
    keeper: &mut K,
    log: &mut J,
    hub: Hub,
    options: ServeOptions,
) -> Result<(), ServeFault>
    requires { Begins K.may_begin hub.config keeper.old hub }
    ensures ends { ServesUpTo options.admin options.rounds result (W.contents writer.old)
        (W.contents writer.new) }
    ensures limits { IfErr result (λ fault. fault ≢ Ended BadLimit) }
{
    let address = SocketAddr::new(options.listen, options.port);
    match bound_listener::open_all(alloc, net, address, options.admin) {
        Ok(sockets) => serve_on(alloc, net, writer, keeper, log, sockets, hub, options),
        Err(fault) => Err(fault),
    }
}

/// Serves a hub on these sockets.
fn serve_on<N: Clock + Net, W: Write, K: BeginsWith, J: ConnectionLog>(
    alloc: Global,
    net: &N,
    writer: &mut W,
    keeper: &mut K,
    log: &mut J,
    sockets: Sockets<N::Listener>,
    hub: Hub,
    options: ServeOptions,
) -> Result<(), ServeFault>
    requires admin { is_some sockets.admin ≡ is_some options.admin }
    requires begins { Begins K.may_begin hub.config keeper.old hub }
    ensures ends { ServesUpTo options.admin options.rounds result (W.contents writer.old)
        (W.contents writer.new) }
    ensures limits { IfErr result (λ fault. fault ≢ Ended BadLimit) }
{
    let Sockets {
        bound,
        admin,
        polling,
    } = sockets;
    let rounds = options.rounds;
    let tells_kept = keeper.is_keeping();
    match admin {
        None => {
            let readiness = AdminReadiness::without_port(polling, net);
            let mut server = server_of(alloc, hub, readiness, options, tells_kept);
            host(alloc, writer, keeper, log, &mut server, &bound, rounds)
        }
        Some(admin) => {
            let readiness = AdminReadiness::new(polling, net);
            let mut server = server_of(alloc, hub, readiness, options, tells_kept);
            let mut admin = AdminPort::new(alloc, admin);
            host_administered(
                alloc,
                writer,
                keeper,
                log,
                &mut server,
                &bound,
                &mut admin,
                rounds,
            )
        }
    }
}

/// The server of a hub, as it is asked for.
fn server_of<S: Read + Write + OpenStream + Drop, R: Readiness<S>>(
    alloc: Global,
    hub: Hub,
    readiness: R,
    options: ServeOptions,
    tells_kept: bool,
) -> Server<S, R>
    ensures hub { hub_of result ≡ hub }
    ensures forgets { forgets_rooms result ≡ options.forget_rooms }
    ensures closed { is_closed (entrance_of result) ≡ options.closed }
    ensures open { options.closed ≡ false → entrance_of result ≡ Open }
    ensures output { output_limit_of result
        ≡ min (2 ^ 64 - 1) (options.output_mib * MIB) }
{
    let most_output = bytes_of(options.output_mib);
    let mut server = bounded(
        alloc,
        hub,
        readiness,
        most_output,
        options.origins,
        options.per_peer,
        tells_kept,
    );
    if options.forget_rooms {
        server.forget_rooms();
    }
    if options.closed {
        server.set_entrance(Entrance::closed(alloc));
    }
    server
}

/// A server of a hub that holds so much output, lets in pages of these origins, and so many
/// connections of one address, if there is a limit. If it tells only what is kept, so it says.
fn bounded<S: Read + Write + OpenStream + Drop, R: Readiness<S>>(
    alloc: Global,
    hub: Hub,
    readiness: R,
    most_output: u64,
    origins: Vec<String>,
    per_peer: Option<u64>,
    tells_kept: bool,
) -> Server<S, R>
    ensures hub { hub_of result ≡ hub }
    ensures forgets { forgets_rooms result ≡ false }
    ensures entrance { entrance_of result ≡ Open }
    ensures output { output_limit_of result ≡ most_output }
    ensures origins { origins_of result ≡ origins.items }
    ensures per_peer { peer_limit_of result ≡ unwrap_or per_peer (2 ^ 64 - 1) }
{
    let mut server = Server::new(alloc, hub, readiness, most_output);
    server.set_per_peer(per_peer.unwrap_or(u64::MAX));
    server.set_origins(origins);
    if tells_kept {
        server.tell_kept();
    }
    server
}

/// So many MiB in bytes.
fn bytes_of(mib: u64) -> u64
    ensures { result ≡ min (2 ^ 64 - 1) (mib * MIB) }
{
    mib.saturating_mul(MIB)
}

/// Prints the port, runs the rounds, ends every connection, and prints the number of rounds. The
/// server's hub stands for a log in the end, as in the beginning. `Lost`: nothing can be kept any
/// more.
#[tactic(auto, using(crate::proofs::ServeLemmas::uncut_first, crate::proofs::ServeLemmas::uncut_last, relay_event_loop::proofs::Advancing::no_rounds))]
fn host<L: OpenListener, P: Readiness<L::Stream>, W: Write, K: BeginsWith, J: ConnectionLog>(
    alloc: Global,
    writer: &mut W,
    keeper: &mut K,
    log: &mut J,
    server: &mut Server<L::Stream, P>,
    bound: &BoundListener<L>,
    rounds: u64,
) -> Result<(), ServeFault>
where
    L::Stream: Read + Write + OpenStream + Drop,
    requires begins { Begins K.may_begin (hub_of server.old).config keeper.old
        (hub_of server.old) }
    ensures headline { HeadlineHolds (hub_of server.old).config (hub_of server.new) }
    ensures rounds { RoundsOf L.Stream.remaining L.Stream.contents server.old server.new }
    ensures made { OnOk result (made_by server.new ≡ made_after rounds server.old) }
    ensures done { OnOk result (Appends (W.contents writer.old) (W.contents writer.new)
        (served_text bound.now.port rounds)) }
    ensures stopped { OnErr result (AppendsPart (W.contents writer.old) (W.contents writer.new)
        (served_text bound.now.port rounds)) }
    ensures uncut { IfErr result (λ fault. fault ≡ Ended NoMemory
        → Listens bound.now.port (W.contents writer.old) (W.contents writer.new)) }
    ensures fault { IfErr result IsHosted }
{
    tell(alloc, writer, "listening", bound.port as u64)?;
    let run = server.run(alloc, &bound.listener, rounds, keeper, log);
    if run.is_lost {
        return Err(ServeFault::Lost);
    }
    tell(alloc, writer, "turns", rounds)
}

/// The same for a server with an admin port, which prints how many rounds it ran before it was
/// stopped.
#[tactic(auto, using(crate::proofs::ServeLemmas::uncut_first, crate::proofs::ServeLemmas::uncut_last, relay_event_loop::proofs::Advancing::no_rounds))]
fn host_administered<
    L: OpenListener,
    P: Readiness<L::Stream> + Drop,
    C: Clock,
    W: Write,
    K: BeginsWith,
    J: ConnectionLog,
>(
    alloc: Global,
    writer: &mut W,
    keeper: &mut K,
    log: &mut J,
    server: &mut Server<L::Stream, AdminReadiness<'_, P, C>>,
    bound: &BoundListener<L>,
    admin: &mut AdminPort<L>,
    rounds: u64,
) -> Result<(), ServeFault>
where
    L::Stream: Read + Write + OpenStream + Drop,
    requires begins { Begins K.may_begin (hub_of server.old).config keeper.old
        (hub_of server.old) }
    ensures headline { HeadlineHolds (hub_of server.old).config (hub_of server.new) }
    ensures rounds { RoundsOf L.Stream.remaining L.Stream.contents server.old server.new }
    ensures done { OnOk result ((made : ℕ) × (made ≤ rounds)
        × (made_by server.new ≡ made_after made server.old)
        × Appends (W.contents writer.old) (W.contents writer.new)
        (served_text bound.now.port made)) }
    ensures stopped { OnErr result ((made : ℕ) × (made ≤ rounds)
        × AppendsPart (W.contents writer.old) (W.contents writer.new)
        (served_text bound.now.port made)) }
    ensures uncut { IfErr result (λ fault. fault ≡ Ended NoMemory
        → Listens bound.now.port (W.contents writer.old) (W.contents writer.new)) }
    ensures fault { IfErr result IsHosted }
{
    tell(alloc, writer, "listening", bound.port as u64)?;
    let made = server.run_administered(alloc, &bound.listener, admin, rounds, keeper, log);
    if server.is_lost() {
        return Err(ServeFault::Lost);
    }
    tell(alloc, writer, "turns", made)
}

/// Prints a line of a word and a number. `NoMemory` comes before a byte is written.
fn tell<W: Write>(alloc: Global, writer: &mut W, word: &str, number: u64) -> Result<(), ServeFault>
    ensures ok { OnOk result (Appends (W.contents writer.old) (W.contents writer.new)
        (line_of word.now number)) }
    ensures err { OnErr result (AppendsPart (W.contents writer.old) (W.contents writer.new)
        (line_of word.now number)) }
    ensures uncut { IfErr result (λ fault. fault ≡ Ended NoMemory
        → W.contents writer.new ≡ W.contents writer.old) }
    ensures fault { IfErr result (λ fault. (fault ≡ Ended Output) ⊎ (fault ≡ Ended NoMemory)) }
{
    print(writer, format!(in alloc; "{word} {number}\n")?.as_str())
}

/// Writes a line and flushes it.
fn print<W: Write>(writer: &mut W, text: &str) -> Result<(), ServeFault>
    ensures ok { OnOk result (Appends (W.contents writer.old) (W.contents writer.new) text.now) }
    ensures err { OnErr result (AppendsPart (W.contents writer.old) (W.contents writer.new)
        text.now) }
    ensures fault { IfErr result (λ fault. fault ≡ Ended Output) }
{
    write_whole(writer, text.as_bytes())?;
    match writer.flush() {
        Ok(()) => Ok(()),
        Err(_) => Err(ServeFault::Ended(ScriptFault::Output)),
    }
}
