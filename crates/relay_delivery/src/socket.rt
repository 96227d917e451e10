//! The same client over a stream: a socket of `tungstenite`, whose reads may cut the bytes
//! anywhere.
ghost use Rattle.std.specs.Prelude.{◌≡◌, ◌<◌, ◌^◌, ◌++◌, ℕ, List, Some, length, IfErr, OnOk, OnErr};
ghost use Rattle.relay_delivery.specs.Socket.{Listens, IsNextFault, FitFrames};
ghost use Rattle.relay_delivery.specs.Texts.{HearsAll, HearsOne, HearsTexts};
ghost use Rattle.relay_delivery.specs.Turn.{FramedTurn, Resumes, KeepsUp, Delivered};
ghost use Rattle.relay_follow.specs.Hearing.{as_client, told};
ghost use Rattle.relay_hub.specs.Log.{Log};
ghost use Rattle.relay_hub.specs.State.{State};
ghost use Rattle.relay_hub.specs.declared.config.HubConfig.{HubConfig};
ghost use Rattle.relay_hub.specs.declared.event.Event.{Event};
ghost use Rattle.relay_link.specs.Follows.{with_events, drawn};
ghost use Rattle.relay_link.specs.Frames.{text_frame, text_frames};

use crate::fault::SocketFault;
use relay_follow::Follower;
use std::alloc::Global;
use std::io::{Read, Write};
use tungstenite::{MaskKeys, Message, Role, WebSocket, WebSocketConfig};

/// A client's socket on a stream whose handshake is done. It puts no limit on a message.
///
/// ```
/// let frames = b"\x81\x25{\"kind\":\"snapshot\",\"rev\":1,\"view\":[]}".as_slice();
/// let stream = Duplex { reader: frames, writer: Vec::new(alloc) };
/// let mut socket = client_on(alloc, stream, NoMask);
/// let mut follower = Follower::new();
/// hear_next(alloc, &mut socket, &mut follower).ok()?;
/// assert!(rt; follower.rev() == Some(1));
/// ```
pub fn client_on<S: Read + Write + Drop, K: MaskKeys + Drop>(
    alloc: Global,
    stream: S,
    keys: K,
) -> WebSocket<S, K>
    ensures { (bytes : List ℕ) → S.remaining stream ≡ Some bytes
        → Listens S.remaining result bytes }
{
    let config = WebSocketConfig::default()
        .max_message_size(None)
        .max_frame_size(None);
    WebSocket::from_raw_socket(alloc, stream, keys, Role::Client, Some(config))
}

/// Reads the next message off a client's socket, and passes its text to the follower. If the bytes
/// that are still to be read begin with the frame of a text, it is that text, and the rest of the
/// bytes is still to be read. An error leaves the follower unchanged.
///
/// ```
/// let frames = b"\x81\x1a{\"id\":1,\"kind\":\"watching\"}".as_slice();
/// let stream = Duplex { reader: frames, writer: Vec::new(alloc) };
/// let mut socket = client_on(alloc, stream, NoMask);
/// let mut follower = Follower::new();
/// // A reply changes nothing.
/// hear_next(alloc, &mut socket, &mut follower).ok()?;
/// assert!(rt; follower.view().is_none());
/// ```
#[tactic(auto, using(crate::proofs::Progress::hears_one))]
pub fn hear_next<S: Read + Write + Drop, K: MaskKeys + Drop>(
    alloc: Global,
    socket: &mut WebSocket<S, K>,
    follower: &mut Follower,
) -> Result<(), SocketFault>
    ensures heard { (text rest : List ℕ) → length text < 2 ^ 63
        → Listens S.remaining socket.old (text_frame text ++ rest)
        → OnOk result ((told (as_client follower.old) text ≡ Some (as_client follower.new))
        × Listens S.remaining socket.new rest) }
    ensures refused { (text rest : List ℕ) → length text < 2 ^ 63
        → Listens S.remaining socket.old (text_frame text ++ rest)
        → IfErr result (λ fault. IsNextFault fault follower.old text) }
    ensures one { OnOk result (HearsOne follower.old follower.new) }
    ensures unchanged { OnErr result (follower.new ≡ follower.old) }
{
    let message = match socket.read() {
        Ok(message) => message,
        Err(error) => return Err(SocketFault::Socket(error)),
    };
    let Message::Text(text) = message else {
        return Err(SocketFault::NotText);
    };
    match follower.hear(alloc, text.as_str()) {
        Ok(()) => Ok(()),
        Err(fault) => Err(SocketFault::Refused(fault)),
    }
}

/// Reads as many messages off a client's socket as a turn of its link drew, and passes their texts
/// to the follower. If the bytes that are still to be read begin with what the turn framed, the
/// follower then holds what [`receive`](crate::receive) would leave it with. An error leaves it
/// with what the texts before make of what it held. Whatever the bytes are, nothing but texts
/// changes what it holds.
///
/// ```
/// // Two frames of a text each: a reply, and a snapshot.
/// let reply = b"\x81\x1a{\"id\":1,\"kind\":\"watching\"}".as_slice();
/// let snapshot = b"\x81\x25{\"kind\":\"snapshot\",\"rev\":1,\"view\":[]}".as_slice();
/// let frames = [reply, snapshot].concat(alloc).ok()?;
/// let stream = Duplex { reader: frames.as_slice(), writer: Vec::new(alloc) };
/// let mut follower = Follower::new();
/// hear_texts(alloc, &mut client_on(alloc, stream, NoMask), 2, &mut follower).ok()?;
/// assert!(rt; follower.rev() == Some(1));
/// ```
pub fn hear_texts<S: Read + Write + Drop, K: MaskKeys + Drop>(
    alloc: Global,
    socket: &mut WebSocket<S, K>,
    count: usize,
    follower: &mut Follower,
) -> Result<(), SocketFault>
    ensures hears { (texts : List (List ℕ)) (rest : List ℕ) → length texts ≡ count
        → FitFrames texts → Listens S.remaining socket.old (text_frames texts ++ rest)
        → HearsAll IsNextFault follower.old follower.new texts result
        × OnOk result (Listens S.remaining socket.new rest) }
    ensures delivered { (b : HubConfig) (E : Log) (hub next : State) (s : ℕ) (events : List Event)
        (frames rest : List ℕ) (turn : FramedTurn s hub next events frames)
        → length (drawn turn.follows) ≡ count → FitFrames (drawn turn.follows)
        → Listens S.remaining socket.old (frames ++ rest)
        → Resumes b E s (as_client follower.old) turn.follows
        → KeepsUp b E hub s (as_client follower.old)
        → OnOk result (Delivered b (with_events turn.follows E) next s (as_client follower.new)
        × Listens S.remaining socket.new rest) }
    ensures only { HearsTexts follower.old follower.new }
{
    hear_all(alloc, socket, count, follower)
}

fn hear_all<S: Read + Write + Drop, K: MaskKeys + Drop>(
    alloc: Global,
    socket: &mut WebSocket<S, K>,
    count: usize,
    follower: &mut Follower,
) -> Result<(), SocketFault>
    ensures hears { (texts : List (List ℕ)) (rest : List ℕ) → length texts ≡ count
        → FitFrames texts → Listens S.remaining socket.old (text_frames texts ++ rest)
        → HearsAll IsNextFault follower.old follower.new texts result
        × OnOk result (Listens S.remaining socket.new rest) }
    ensures only { HearsTexts follower.old follower.new }
{
    for _ in 0..count {
        match hear_next(alloc, socket, follower) {
            Ok(()) => {}
            Err(fault) => return Err(fault),
        }
    }
    Ok(())
}
