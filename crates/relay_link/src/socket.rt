//! The WebSocket of a link. No call blocks.
ghost use Rattle.std.specs.Prelude.{◌≡◌, [], Some, true, false, IfOk, OnOk, IfErr};
ghost use Rattle.tungstenite.specs.Config.{HasLimits};
ghost use Rattle.tungstenite.specs.Failure.{IsIo};
ghost use Rattle.tungstenite.specs.Socket.{IsFresh, Writes};
ghost use Rattle.websocket.specs.Connection.{close_step};
ghost use Rattle.websocket.specs.declared.protocol.config.Role.TheVariants.{Server};
ghost use Rattle.relay_link.specs.declared.end_cause.EndCause.TheVariants.{Stream};
ghost use Rattle.relay_link.specs.Frames.{Frames, text_frame};
ghost use Rattle.relay_link.specs.Ends.{IsNotSilent};
ghost use Rattle.relay_link.specs.Hears.{ReadsOnce};
ghost use Rattle.relay_link.specs.Stream.{is_blocked, written};
ghost use Rattle.relay_link.specs.SocketError.{IsOfSocket};
ghost use Rattle.relay_link.specs.Terms.{limits, Serves, KeepsTerms};

use crate::corked_writer::CorkedWriter;
use crate::end_cause::EndCause;
use crate::non_blocking::is_nothing_now;
use std::alloc::Global;
use std::io::{Read, Write};
use tungstenite::{
    CloseCode, CloseFrame, Error, Message, NoMask, Role, Utf8Bytes, WebSocket, WebSocketConfig,
};

/// A WebSocket on the server side, whose frames are not masked.
pub(crate) type Socket<S> = WebSocket<CorkedWriter<S>, NoMask>;

/// The size of a socket's read buffer, in bytes, which is also the most that one read gives. Most
/// requests are shorter. The default of `tungstenite`, 128 KiB, is too much if many sockets are
/// held.
const READ_BUFFER: usize = 1_280;

/// The size of the larger read buffer, for a socket of which a read has filled the smaller one: so
/// many bytes at once take fewer reads.
const GROWN_READ_BUFFER: usize = 8_192;

/// The maximum size of an incoming message and of each of its frames, in bytes. It is a little more
/// than the longest request, so that a request that is slightly too long still gets a reply. A
/// longer message ends the link with [`EndCause::Broken`].
const MAX_MESSAGE: usize = 1_056_768;

/// The number of bytes of output that are collected before they are written.
const MAX_GATHERED: usize = 65_536;

/// A socket on a stream whose handshake is done.
#[tactic(auto, using(crate::proofs::Terms::serves_new))]
pub(crate) fn socket_on<S: Read + Write + Drop>(alloc: Global, stream: CorkedWriter<S>) -> Socket<S>
    ensures fresh { IsFresh result stream Server }
    ensures serves { Serves result.conn }
{
    WebSocket::from_raw_socket(
        alloc,
        stream,
        NoMask,
        Role::Server,
        Some(config_with(READ_BUFFER)),
    )
}

/// The configuration of a socket with a read buffer of this size.
fn config_with(read_buffer: usize) -> WebSocketConfig
    ensures { HasLimits limits result }
{
    WebSocketConfig::default()
        .read_buffer_size(read_buffer)
        .write_buffer_size(MAX_GATHERED)
        .max_message_size(Some(MAX_MESSAGE))
        .max_frame_size(Some(MAX_MESSAGE))
}

/// Gives a socket the larger read buffer once a read has filled the smaller one.
#[tactic(auto, using(crate::proofs::Terms::grown))]
pub(crate) fn grow_read_buffer<S: Read + Write + Drop>(socket: &mut Socket<S>)
    requires { Serves socket.old.conn }
    ensures { socket.new ≡ socket.old }
{
    let is_small = socket.get_config().read_buffer_size < GROWN_READ_BUFFER;
    if is_small && socket.get_ref().has_filled_a_read() {
        socket.set_config(config_with(GROWN_READ_BUFFER));
    }
}

/// Reads one message. `None` if no complete message is available now. A message may ask for another
/// turn ([`note_found`]).
#[tactic(auto, using(crate::proofs::SocketErrors::read_error, crate::proofs::Hearing::reads_message, crate::proofs::Hearing::reads_none))]
pub(crate) fn read<S: Read + Write + Drop>(
    socket: &mut Socket<S>,
) -> Result<Option<Message>, EndCause>
    ensures not_silent { IfErr result IsNotSilent }
    ensures terms { OnOk result (KeepsTerms socket.old.conn socket.new.conn) }
    ensures reads { IfOk result (λ found. ReadsOnce S.remaining socket.old socket.new found) }
{
    match socket.read() {
        Ok(message) => {
            note_found(socket.get_ref(), &message);
            Ok(Some(message))
        }
        Err(Error::Io(error)) if is_nothing_now(&error) => Ok(None),
        Err(error) => Err(EndCause::of(&error)),
    }
}

/// Notes that a message was found. It asks for another turn if bytes behind it were read, since
/// they may be the next message, and if it is a close, since the next read tells that the
/// connection is over.
fn note_found<S: Write + Drop>(stream: &CorkedWriter<S>, message: &Message) {
    stream.note_taken(least_len(message));
    if message.is_close() {
        stream.request_turn();
    }
}

/// The minimum number of bytes in the frames of a received message: a header with a masking key,
/// and the payload (RFC 6455, section 5.2).
fn least_len(message: &Message) -> usize {
    let payload = message.len();
    let header = match payload {
        0..=125 => 6,
        126..=65_535 => 8,
        _ => 14,
    };
    payload.saturating_add(header)
}

/// Sends unsent output. `false` if the stream is blocked, so that output may still be unsent.
#[tactic(auto, using(crate::proofs::SocketErrors::flush_error, crate::proofs::Framing::flushed))]
pub(crate) fn flush<S: Read + Write + Drop>(socket: &mut Socket<S>) -> Result<bool, EndCause>
    ensures not_silent { IfErr result IsNotSilent }
    ensures frames { Frames S.contents socket.old socket.new [] }
    ensures waits { IfOk result (λ sent. sent ≡ false → is_blocked socket.new.stream ≡ true) }
{
    let sent = is_sent(socket.flush())?;
    Ok(sent || !socket.get_ref().is_blocked())
}

/// Appends a text frame to the collected output. At 64 KiB all of it is sent; `false` if the stream
/// is blocked then, so that output may still be unsent.
#[tactic(auto, using(crate::proofs::SocketErrors::write_error, crate::proofs::Framing::wrote_text))]
pub(crate) fn write<S: Read + Write + Drop>(
    socket: &mut Socket<S>,
    words: Utf8Bytes,
) -> Result<bool, EndCause>
    ensures not_silent { IfErr result IsNotSilent }
    ensures frames { OnOk result (Frames S.contents socket.old socket.new (text_frame words)) }
    ensures stopped { IfErr result (λ cause. cause ≡ Stream
        → Frames S.contents socket.old socket.new (text_frame words)) }
    ensures waits { IfOk result (λ sent. sent ≡ false → is_blocked socket.new.stream ≡ true) }
{
    let sent = is_sent(socket.write(Message::Text(words)))?;
    Ok(sent || !socket.get_ref().is_blocked())
}

/// Sends a close frame with an empty reason. `false` if output is still unsent.
#[tactic(auto, using(crate::proofs::SocketErrors::write_error, crate::proofs::BinaryAnswered::wrote_close))]
pub(crate) fn close<S: Read + Write + Drop>(
    socket: &mut Socket<S>,
    code: CloseCode,
) -> Result<bool, EndCause>
    ensures not_silent { IfErr result IsNotSilent }
    ensures wrote { OnOk result (Writes (written S.contents) socket.old socket.new
        (close_step socket.old.conn (Some (code, [])))) }
    ensures stopped { IfErr result (λ cause. cause ≡ Stream
        → Writes (written S.contents) socket.old socket.new
        (close_step socket.old.conn (Some (code, [])))) }
{
    let reason = Utf8Bytes::new();
    is_sent(socket.close(Some(CloseFrame { code, reason })))
}

/// True if a call has sent all unsent output.
fn is_sent(sent: Result<(), Error>) -> Result<bool, EndCause>
    requires { IfErr sent IsOfSocket }
    ensures not_silent { IfErr result IsNotSilent }
    ensures waits { OnOk result (IfErr sent IsIo) }
    ensures stopped { IfErr result (λ cause. cause ≡ Stream → IfErr sent IsIo) }
{
    match sent {
        Ok(()) => Ok(true),
        Err(Error::Io(error)) if is_nothing_now(&error) => Ok(false),
        Err(error) => Err(EndCause::of(&error)),
    }
}
