//! A follower that keeps a text if it runs out of memory, and applies it again later.
ghost use Rattle.std.specs.Prelude.{◌≡◌, None};
ghost use Rattle.relay_script.specs.Script.{new_follower, Hears, HearsAgain};

use relay_follow::{Follower, HearFault};
use relay_hub::Text;
use std::alloc::Global;

/// A follower, and the text that it could not apply yet.
#[derive(Drop)]
pub struct RetryingFollower {
    pub follower: Follower,
    /// A drawn text for which the follower was out of memory. It is applied again before the next
    /// line of the name.
    pub unheard: Option<Text>,
}

impl RetryingFollower {
    /// A follower that has received no text yet.
    pub fn new() -> RetryingFollower
        ensures { result ≡ new_follower }
    {
        RetryingFollower {
            follower: Follower::new(),
            unheard: None,
        }
    }

    /// Applies a text to the follower, and keeps the text if it is out of memory. Returns the
    /// fault, if there is one.
    pub fn hear(&mut self, alloc: Global, text: Text) -> Option<HearFault>
        requires { self.old.unheard ≡ None }
        ensures { Hears self.old.follower text result self.new }
    {
        match self.follower.hear(alloc, text.as_str()) {
            Ok(()) => None,
            Err(HearFault::NoMemory) => {
                self.unheard = Some(text);
                Some(HearFault::NoMemory)
            }
            Err(fault) => Some(fault),
        }
    }

    /// Applies the kept text again, if there is one. Returns the fault, if there is one.
    pub fn hear_again(&mut self, alloc: Global) -> Option<HearFault>
        ensures { HearsAgain self.old result self.new }
    {
        let text = self.unheard.take()?;
        self.hear(alloc, text)
    }
}
