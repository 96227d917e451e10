//! Tests of `serve` and `loop` on a faulty network.
use crate::story::{on_one_line, with_status};
use relay_options::{Job, Settings};
use relay_server::{OpenStore, StoreOpener, carry_out};
use relay_store::{MemoryStore, StoreFault};
use relay_test_stream::{Subject, cut, play};
use std::alloc::{AllocGlobal, Global};
use std::io;
use std::io::ErrorKind;
use std::net::{IpAddr, Ipv4Addr, Net, OpenListener, SocketAddr, TcpStream};
use std::os::fd::{AsRawFd, RawFd};
use std::time::{Clock, Duration};

/// A job, and what its network lacks.
const ROWS: &str = r#"
# A server says what its network lacks. It prints nothing before it listens and its poll is set up.
serve Port => relay: cannot listen on port 7\nstatus 1
serve NonBlocking => relay: cannot listen on port 7\nstatus 1
serve Address => relay: cannot listen on port 7\nstatus 1
serve Descriptor => relay: cannot wait for sockets\nstatus 1

# It binds the address that it is given, and no other, and warns of one that others may reach.
serve Loopback => relay: cannot listen on port 7\nstatus 1
serve-at 127.0.0.2 Loopback => relay: cannot wait for sockets\nstatus 1
serve-at ::1 Port => relay: cannot listen on [::1]:7\nstatus 1
serve-at 0.0.0.0 Port => relay: --listen 0.0.0.0: every machine that reaches this address can enter\nrelay: cannot listen on 0.0.0.0:7\nstatus 1
serve-at :: Descriptor => relay: --listen ::: every machine that reaches this address can enter\nrelay: cannot wait for sockets\nstatus 1

# A store is opened before anything listens, and what is wrong with it is said.
serve-kept Port => relay: --store board.db: the file is in use\nstatus 1

# The loop says so too. It polls nothing, so an invalid descriptor does not stop it. Its line is answered `stuck`, since its client cannot
# connect.
loop Port => relay: cannot listen on port 0\nstatus 1
loop NonBlocking => relay: cannot listen on port 0\nstatus 1
loop Address => relay: cannot listen on port 0\nstatus 1
loop Descriptor => a stuck\nstatus 0
"#;

#[test]
fn a_job_says_what_its_network_lacks(rt: HostRuntime) {
    play(&rt, &mut Nets, ROWS).expect(&rt, "each row holds");
}

#[derive(Clone, Copy)]
struct Nets;

impl<R: AllocGlobal> Subject<R> for Nets {
    fn act(&mut self, rt: &R, act: &str) -> Option<String> {
        let alloc = rt.alloc();
        let (job, lack) = act.rsplit_once(' ')?;
        let told = done(alloc, FaultyNet::without(lack)?, job_named(alloc, job)?);
        on_one_line(alloc, told?.as_str())
    }
}

fn serve_at(alloc: Global, listen: IpAddr, store: Option<String>) -> Job {
    Job::Serve {
        listen,
        port: 7,
        admin: None,
        rounds: 1,
        log: false,
        forget_rooms: false,
        closed: false,
        output_mib: 256,
        origins: Vec::new(alloc),
        per_peer: None,
        store,
        settings: Settings {
            epoch: 2,
            ..Settings::DEFAULT
        },
    }
}

fn job_named(alloc: Global, name: &str) -> Option<Job> {
    match cut(name) {
        ("serve", _) => Some(serve_at(alloc, IpAddr::V4(Ipv4Addr::LOCALHOST), None)),
        ("serve-kept", _) => {
            let store = String::from_str(alloc, "board.db").ok()?;
            Some(serve_at(alloc, IpAddr::V4(Ipv4Addr::LOCALHOST), Some(store)))
        }
        ("serve-at", address) => Some(serve_at(alloc, address.parse::<IpAddr>().ok()?, None)),
        ("loop", _) => Some(Job::Loop(Settings::DEFAULT)),
        _ => None,
    }
}

/// A network whose listeners lack something, and to which no client connects.
#[derive(Clone, Copy)]
pub enum FaultyNet {
    /// A listener cannot be bound to its port.
    NoPort,
    /// A listener can be bound to 127.0.0.2 alone.
    NoLoopback,
    /// A listener cannot be made non-blocking.
    NoNonBlocking,
    /// A listener's address is unknown.
    NoAddress,
    /// A listener lacks nothing but what all of them lack: its descriptor is invalid, so it cannot
    /// be polled.
    NoDescriptor,
}

impl FaultyNet {
    fn without(lack: &str) -> Option<FaultyNet> {
        match lack {
            "Port" => Some(FaultyNet::NoPort),
            "Loopback" => Some(FaultyNet::NoLoopback),
            "NonBlocking" => Some(FaultyNet::NoNonBlocking),
            "Address" => Some(FaultyNet::NoAddress),
            "Descriptor" => Some(FaultyNet::NoDescriptor),
            _ => None,
        }
    }
}

impl Net for FaultyNet {
    type Stream = TcpStream;

    type Listener = FaultyNet;

    fn bind(&self, addr: SocketAddr) -> io::Result<FaultyNet> {
        let is_other = addr.ip() == IpAddr::V4(Ipv4Addr::new(127, 0, 0, 2));
        match self {
            FaultyNet::NoPort => Err(io::Error::from(ErrorKind::Other)),
            FaultyNet::NoLoopback if !is_other => Err(io::Error::from(ErrorKind::Other)),
            _ => Ok(*self),
        }
    }

    fn connect(&self, _addr: SocketAddr) -> io::Result<TcpStream> {
        Err(io::Error::from(ErrorKind::ConnectionRefused))
    }
}

impl OpenListener for FaultyNet {
    type Stream = TcpStream;

    fn accept(&self) -> io::Result<(TcpStream, SocketAddr)> {
        Err(io::Error::from(ErrorKind::WouldBlock))
    }

    fn local_addr(&self) -> io::Result<SocketAddr> {
        match self {
            FaultyNet::NoAddress => Err(io::Error::from(ErrorKind::Other)),
            _ => Ok(SocketAddr::from((Ipv4Addr::LOCALHOST, 7))),
        }
    }

    fn set_nonblocking(&self, _nonblocking: bool) -> io::Result<()> {
        match self {
            FaultyNet::NoNonBlocking => Err(io::Error::from(ErrorKind::Other)),
            _ => Ok(()),
        }
    }
}

impl Clock for FaultyNet {
    fn monotonic(&self) -> io::Result<Duration> {
        Ok(Duration::ZERO)
    }

    fn since_1970(&self) -> io::Result<Duration> {
        Ok(Duration::ZERO)
    }
}

/// Its stores are all in use.
impl StoreOpener for FaultyNet {
    type Store = MemoryStore;

    fn open_store(&self, _: &str, _: u64) -> Result<OpenStore<MemoryStore>, StoreFault> {
        Err(StoreFault::InUse)
    }

    fn open_made(&self, _: &str) -> Result<OpenStore<MemoryStore>, StoreFault> {
        Err(StoreFault::InUse)
    }

    fn close_read(&self, _: &str, open: OpenStore<MemoryStore>) {
        drop(open);
    }
}

impl AsRawFd for FaultyNet {
    fn as_raw_fd(&self) -> RawFd {
        -1
    }
}

/// The output of a job on such a network, its error output, and its status.
fn done(alloc: Global, net: FaultyNet, job: Job) -> Option<String> {
    let mut input = "a open r\n".as_bytes();
    let mut output = Vec::new(alloc);
    let mut errors = Vec::new(alloc);
    let ended = carry_out(alloc, &net, job, &mut input, &mut output, &mut errors);
    output.extend_from_slice(errors.as_slice()).ok()?;
    with_status(alloc, output.as_slice(), ended.code())
}
