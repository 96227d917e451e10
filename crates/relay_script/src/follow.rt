//! A follower as a line filter: each line is a text, and its answer is the view that the follower
//! holds then.
ghost use Rattle.std.specs.Prelude.{◌≡◌, IfOk, string_bytes};
ghost use Rattle.std.specs.Result.{result_err};
ghost use Rattle.relay_script.specs.Follow.{Takes, taken_text};

use crate::respond::Respond;
use crate::words;
use relay_follow::{Follower, HearFault};
use std::alloc::{AllocError, Global};
use std::str;

#[derive(Drop)]
pub struct Following {
    follower: Follower,
}

impl Following {
    pub fn new() -> Following
        ensures { result.follower ≡ None }
    {
        Following {
            follower: Follower::new(),
        }
    }
}

impl Respond for Following {
    ghost use Rattle.relay_script.specs.Follow.{Answers};

    ghost answers = { λ old number line new answer.
        Answers old.follower number line new.follower answer };

    fn respond(&mut self, alloc: Global, _: u32, line: &[u8]) -> Result<String, AllocError> {
        if line.is_empty() {
            return Ok(String::new(alloc));
        }
        let taken = take(alloc, &mut self.follower, line);
        match taken {
            Ok(()) => words::view(alloc, "held", &self.follower),
            Err(fault) => {
                let word = words::hear_word(fault);
                format!(in alloc; "off {word}\n")
            }
        }
    }
}

/// Applies the text of a line to a follower.
fn take(alloc: Global, follower: &mut Follower, line: &[u8]) -> Result<(), HearFault>
    ensures { Takes follower.old line.now (result_err result) follower.new }
{
    match str::from_utf8(line) {
        Ok(text) => follower.hear(alloc, text),
        Err(_) => Err(HearFault::NotMessage),
    }
}
