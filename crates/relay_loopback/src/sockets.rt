//! The listener that every job with sockets uses.
ghost use Rattle.std.specs.Prelude.{◌≡◌, IfErr};
ghost use Rattle.std.specs.Net.Socket.{socket_ip, socket_port};
ghost use Rattle.relay_loopback.specs.Faults.{IsListenAt};

use crate::fault::ServeFault;
use std::net::{IpAddr, Ipv4Addr, Net, OpenListener, SocketAddr};

/// The address 127.0.0.1 with a port. Only programs on the same machine reach it.
///
/// ```
/// assert!(rt; loopback_at(8_080) == SocketAddr::from((Ipv4Addr::LOCALHOST, 8_080)));
/// ```
pub fn loopback_at(port: u16) -> SocketAddr
    ensures ip { socket_ip result ≡ IpAddr.V4 Ipv4Addr.LOCALHOST }
    ensures port { socket_port result ≡ port }
{
    SocketAddr::new(IpAddr::V4(Ipv4Addr::LOCALHOST), port)
}

/// Opens a non-blocking listener at an address. For port 0 the system chooses the port. Fails with
/// [`ServeFault::Listen`] if the address cannot be bound, or the listener not be made non-blocking;
/// nothing is open then.
pub fn listen<N: Net>(net: &N, address: SocketAddr) -> Result<N::Listener, ServeFault>
    ensures { IfErr result (IsListenAt address) }
{
    let listener = match net.bind(address) {
        Ok(listener) => listener,
        Err(error) => return Err(ServeFault::listen(address, &error)),
    };
    match listener.set_nonblocking(true) {
        Ok(()) => Ok(listener),
        Err(error) => Err(ServeFault::listen(address, &error)),
    }
}
