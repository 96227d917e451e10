//! The sockets at which a server is found, and the poll that watches them.
ghost use Rattle.std.specs.Prelude.{◌≡◌, IfOk, IfErr, is_some};
ghost use Rattle.relay_server.specs.Jobs.{HasNoSockets};

use relay_loopback::{ServeFault, listen, loopback_at};
use relay_readiness::Polling;
use std::alloc::Global;
use std::net::{Net, OpenListener, SocketAddr};

/// A listener, and its port.
#[derive(Drop)]
pub(crate) struct BoundListener<L> {
    pub listener: L,
    pub port: u16,
}

/// The sockets of a server: its listener, the operator's, if it has a port, and the poll of both.
#[derive(Drop)]
pub(crate) struct Sockets<L> {
    pub bound: BoundListener<L>,
    pub admin: Option<L>,
    pub polling: Polling,
}

/// Opens the sockets of a server: it listens at an address, and for the operator on that port of
/// the loopback address, if there is one.
pub(crate) fn open_all<N: Net>(
    alloc: Global,
    net: &N,
    address: SocketAddr,
    admin: Option<u16>,
) -> Result<Sockets<N::Listener>, ServeFault>
    ensures none { IfErr result HasNoSockets }
    ensures admin { IfOk result (λ sockets. is_some sockets.admin ≡ is_some admin) }
{
    let bound = open(net, address)?;
    let polling = poll(alloc, net, &bound.listener)?;
    let admin = match admin {
        Some(port) => Some(open_admin(net, port, &polling)?),
        None => None,
    };
    Ok(Sockets {
        bound,
        admin,
        polling,
    })
}

/// Listens at an address. For port 0 the system chooses one.
#[tactic(auto, using(crate::proofs::ServeLemmas::listen_none))]
fn open<N: Net>(net: &N, address: SocketAddr) -> Result<BoundListener<N::Listener>, ServeFault>
    ensures { IfErr result HasNoSockets }
{
    let listener = listen(net, address)?;
    match listener.local_addr() {
        Ok(bound) => Ok(BoundListener {
            port: bound.port(),
            listener,
        }),
        Err(error) => Err(ServeFault::listen(address, &error)),
    }
}

/// Sets up the poll of a server, which watches the listener.
fn poll<N: Net>(alloc: Global, net: &N, listener: &N::Listener) -> Result<Polling, ServeFault>
    ensures { IfErr result HasNoSockets }
{
    match Polling::new(alloc, net, listener) {
        Ok(polling) => Ok(polling),
        Err(_) => Err(ServeFault::Wait),
    }
}

/// Listens on the operator's port, on the loopback address alone. The poll watches it too.
#[tactic(auto, using(crate::proofs::ServeLemmas::listen_none))]
fn open_admin<N: Net>(net: &N, port: u16, polling: &Polling) -> Result<N::Listener, ServeFault>
    ensures { IfErr result HasNoSockets }
{
    let listener = listen(net, loopback_at(port))?;
    match polling.watch_admin(&listener) {
        Ok(()) => Ok(listener),
        Err(_) => Err(ServeFault::Wait),
    }
}
