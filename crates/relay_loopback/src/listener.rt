//! The listener that loopback clients connect to.
use crate::client_handshake::ClientHandshake;
use crate::connection::{Connection, MAX_TURNS};
use crate::fault::ServeFault;
use crate::sockets::{listen, loopback_at};
use relay_access::Access;
use relay_hub::Hub;
use relay_link::{Link, Stage};
use std::alloc::{AllocError, Global};
use std::io::{Read, Write};
use std::net::{Net, OpenListener, OpenStream, SocketAddr};

/// A listener, and its address.
#[derive(Drop)]
pub struct LoopbackListener<'n, N: Net> {
    net: &'n N,
    listener: N::Listener,
    address: SocketAddr,
}

/// The result of an opening.
#[derive(Drop)]
pub enum Entering<S: Write + Drop> {
    Opened(Connection<S>),
    /// The handshake was refused with this status.
    Rejected(u16),
    Stuck,
}

impl<'n, N: Net> LoopbackListener<'n, N> {
    ghost use Rattle.std.specs.Prelude.{IfErr};
    ghost use Rattle.relay_loopback.specs.Faults.{IsListen};

    /// Opens a listener at a port that the system chooses.
    #[tactic(auto, using(crate::proofs::Listening::is_listen))]
    pub fn new(net: &'n N) -> Result<LoopbackListener<'n, N>, ServeFault>
        ensures { IfErr result IsListen }
    {
        let asked = loopback_at(0);
        let listener = listen(net, asked)?;
        match listener.local_addr() {
            Ok(address) => Ok(LoopbackListener {
                net,
                listener,
                address,
            }),
            Err(error) => Err(ServeFault::listen(asked, &error)),
        }
    }

    /// Connects a client, and opens its session, with this access.
    pub fn enter(
        &self,
        alloc: Global,
        hub: &mut Hub,
        room: &str,
        access: Access,
    ) -> Result<Entering<N::Stream>, AllocError> {
        let Some((stream, accepted)) = self.ends() else {
            return Ok(Entering::Stuck);
        };
        let link = Link::new(alloc, accepted)?;
        match ClientHandshake::at(alloc, stream, room, access)? {
            Some(handshake) => Ok(shake_hands(alloc, hub, link, handshake)),
            None => Ok(Entering::Stuck),
        }
    }

    /// The client's and the server's end of a new socket, both non-blocking.
    fn ends(&self) -> Option<(N::Stream, N::Stream)> {
        let stream = self.net.connect(self.address).ok()?;
        let accepted = accepted(&self.listener)?;
        if never_waits(&stream) && never_waits(&accepted) {
            Some((stream, accepted))
        } else {
            None
        }
    }
}

/// Runs turns of a link until its client has received a reply.
fn shake_hands<S: Read + Write + Drop>(
    alloc: Global,
    hub: &mut Hub,
    mut link: Link<S>,
    mut handshake: ClientHandshake<S>,
) -> Entering<S> {
    for _ in 0..MAX_TURNS {
        let _ = link.turn(alloc, hub, 0);
        if link.stage() == Stage::Head {
            continue;
        }
        if let Some(status) = handshake.status() {
            return match link.session() {
                Some(session) => Entering::Opened(Connection {
                    session,
                    link,
                    client: handshake.client(alloc),
                }),
                None => Entering::Rejected(status),
            };
        }
    }
    Entering::Stuck
}

/// Accepts the connection that a client made.
fn accepted<L: OpenListener>(listener: &L) -> Option<L::Stream> {
    for _ in 0..MAX_TURNS {
        if let Ok((stream, _)) = listener.accept() {
            return Some(stream);
        }
    }
    None
}

/// Makes a socket non-blocking, and turns off Nagle's algorithm: otherwise a text could be in
/// transit for longer than the turns of a line last. Returns whether both succeeded.
fn never_waits<S: OpenStream>(stream: &S) -> bool {
    stream.set_nonblocking(true).is_ok() && stream.set_nodelay(true).is_ok()
}
