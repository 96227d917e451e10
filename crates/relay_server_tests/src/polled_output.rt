//! A test of standard error that nobody reads, with a socket in its place.
use relay_server::PolledOutput;
use std::io::{ErrorKind, Write};
use std::net::{Ipv4Addr, Net, OpenListener, SocketAddr};

/// More writes than the system holds bytes for.
const WRITES: u32 = 20_000;

/// Writes to a socket that nobody reads end with `WouldBlock`, though the socket itself may block.
#[test]
fn does_not_wait_for_a_reader(rt: HostRuntime) {
    let listener = rt.bind(SocketAddr::from((Ipv4Addr::LOCALHOST, 0)));
    let listener = listener.expect(&rt, "a port");
    let stream = rt.connect(listener.local_addr().expect(&rt, "an address"));
    let mut output = PolledOutput::new(rt.alloc(), &rt, stream.expect(&rt, "a connection"));
    let mut refused = None;
    for _ in 0..WRITES {
        match output.write(&[b'x'; 5_000]) {
            Ok(len) => assert_eq!(rt; len, 4_096),
            Err(error) => refused = Some(error.kind()),
        }
    }
    assert_eq!(rt; refused, Some(ErrorKind::WouldBlock));
}
