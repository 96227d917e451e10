//! Both ends of a loopback socket, a client and the server's link to it, which alternate in one
//! thread.
ghost use Rattle.std.specs.Prelude.{◌≡◌, ℕ, List, IfOk};
ghost use Rattle.relay_hub.specs.declared.event.Event.TheVariants.{Receive, Draw};
ghost use Rattle.relay_loopback.specs.Loopback.{CanCome};

use crate::client::Client;
use relay_hub::{Answer, Heard, Hub, Text};
use relay_link::{Link, Stage};
use relay_script::Outcome;
use std::alloc::{AllocError, Global};
use std::io::{Read, Write};
use tungstenite::Utf8Bytes;

/// The maximum number of turns for a line of a script.
pub const MAX_TURNS: u32 = 10_000;

/// Both ends of one socket.
#[derive(Drop)]
pub struct Connection<S: Write + Drop> {
    pub session: u64,
    pub link: Link<S>,
    pub client: Client<S>,
}

impl<S: Read + Write + Drop> Connection<S> {
    /// Sends a text, and runs turns of the link until the hub has received it. `Busy`, with nothing
    /// sent, if the hub does not accept a request of the session.
    pub fn say(&mut self, alloc: Global, hub: &mut Hub, text: &str) -> Result<Outcome, AllocError>
        ensures { (s : ℕ) (sent : List ℕ)
            → IfOk result (λ outcome. CanCome (Receive s sent) outcome) }
    {
        if !hub.may_hear(self.session) {
            return Ok(Outcome::Answered(Answer::Heard(Heard::Busy)));
        }
        self.client.send(alloc, text)?;
        for _ in 0..MAX_TURNS {
            self.client.send_rest();
            if let Ok(turn) = self.link.turn(alloc, hub, 0) {
                if turn.has_received() {
                    return Ok(Outcome::Answered(Answer::Heard(Heard::Answered { short: 0 })));
                }
            }
        }
        Ok(Outcome::Stuck)
    }

    /// Runs turns of the link with one draw until the draw is made, and then with none until the
    /// client has received the text.
    pub fn draw(&mut self, alloc: Global, hub: &mut Hub) -> Result<Outcome, AllocError>
        ensures { (s : ℕ) → IfOk result (λ outcome. CanCome (Draw s) outcome) }
    {
        if hub.waiting(self.session) == Some(0) {
            return Ok(Outcome::Answered(Answer::Drawn(None)));
        }
        let Some(text) = self.drawn(alloc, hub) else {
            return Ok(Outcome::Stuck);
        };
        Ok(Outcome::Answered(Answer::Drawn(Some(Text::shared(text)))))
    }

    /// The text that the client receives after the link made a draw.
    fn drawn(&mut self, alloc: Global, hub: &mut Hub) -> Option<Utf8Bytes> {
        let mut draws = 1;
        for _ in 0..MAX_TURNS {
            if let Ok(turn) = self.link.turn(alloc, hub, draws) {
                if turn.has_drawn() {
                    draws = 0;
                }
            }
            if draws == 0 {
                if let Some(text) = self.client.text() {
                    return Some(text);
                }
            }
        }
        None
    }

    /// Sends a close, and runs turns of the link until it is gone. While the hub does not accept a
    /// request of the session, a turn draws one message, so that the close can be read. Returns
    /// whether the link is gone.
    pub fn close(&mut self, alloc: Global, hub: &mut Hub) -> bool {
        self.client.close();
        for _ in 0..MAX_TURNS {
            let draws = if hub.may_hear(self.session) { 0 } else { 1 };
            let _ = self.link.turn(alloc, hub, draws);
            if self.link.stage() == Stage::Gone {
                return true;
            }
            let _ = self.client.text();
        }
        false
    }
}
