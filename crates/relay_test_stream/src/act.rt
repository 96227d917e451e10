//! The acts of a client and its stream, in words.
use crate::injected_fault::InjectedFault;
use crate::row::cut;
use crate::wire::Wire;
use std::alloc::{AllocError, Global};

impl Wire {
    /// Does what a client or its stream does, and says whether the words are understood:
    ///
    /// - `asks VERSION TARGET` or `asks VERSION TARGET ORIGIN`: a handshake arrives (RFC 6455,
    ///   section 4.1), with the key of the RFC's sample, of a page of that origin if one is named;
    /// - `says TEXT` or `pads N TEXT`: a text message arrives, or one that blanks make so many
    ///   bytes long;
    /// - `stretches N TEXT`: a text message arrives in which so many letters `x` stand for each
    ///   `*`;
    /// - `text TEXT`, `line TEXT`, `hex 81 0f ..` and `fills N`: this text arrives, or a line of a
    ///   head, or these bytes, or so many letters `x`;
    /// - `ends` or `ends 81 0f ..`: these bytes arrive, and then the input ends;
    /// - `reads FAULT` or `writes FAULT`: each later read or write has this fault. `well` is none.
    ///
    /// After an error a part of it may have been done.
    pub fn perform(&mut self, alloc: Global, act: &str) -> Result<bool, AllocError> {
        let (word, rest) = cut(act);
        match word {
            "asks" => self.ask(alloc, rest).map(|_| true),
            "says" => self.say(rest).map(|_| true),
            "text" => self.feed(rest.as_bytes()).map(|_| true),
            "line" => {
                self.feed(rest.as_bytes())?;
                self.feed(b"\r\n").map(|_| true)
            }
            "pads" => self.pad(alloc, rest),
            "stretches" => self.stretch(alloc, rest),
            "fills" => self.fill(alloc, rest),
            "hex" => self.feed_hex(rest),
            "ends" => {
                self.ended = true;
                self.feed_hex(rest)
            }
            _ => Ok(self.set_fault(word, rest)),
        }
    }

    fn ask(&mut self, alloc: Global, words: &str) -> Result<(), AllocError> {
        let (version, words) = cut(words);
        let (target, origin) = cut(words);
        let field = if origin.is_empty() {
            String::new(alloc)
        } else {
            format!(in alloc; "Origin: {origin}\r\n")?
        };
        let head = format!(in alloc;
            "GET {target} HTTP/1.1\r\n\
             Host: localhost\r\n\
             {field}\
             Upgrade: websocket\r\n\
             Connection: keep-alive, Upgrade\r\n\
             Sec-WebSocket-Key: dGhlIHNhbXBsZSBub25jZQ==\r\n\
             Sec-WebSocket-Version: {version}\r\n\
             Sec-WebSocket-Extensions: permessage-deflate\r\n\r\n"
        );
        self.feed(head?.as_bytes())
    }

    fn pad(&mut self, alloc: Global, words: &str) -> Result<bool, AllocError> {
        let (len, text) = cut(words);
        let Ok(len) = len.parse::<usize>() else {
            return Ok(false);
        };
        let blanks = " ".repeat(alloc, len.saturating_sub(text.len()))?;
        self.say(format!(in alloc; "{text}{blanks}")?.as_str())?;
        Ok(true)
    }

    fn stretch(&mut self, alloc: Global, words: &str) -> Result<bool, AllocError> {
        let (len, text) = cut(words);
        let Ok(len) = len.parse::<usize>() else {
            return Ok(false);
        };
        let letters = "x".repeat(alloc, len)?;
        self.say(text.replace(alloc, "*", letters.as_str())?.as_str())?;
        Ok(true)
    }

    fn fill(&mut self, alloc: Global, len: &str) -> Result<bool, AllocError> {
        let Ok(len) = len.parse::<usize>() else {
            return Ok(false);
        };
        self.feed("x".repeat(alloc, len)?.as_bytes())?;
        Ok(true)
    }

    /// Feeds bytes that are written as numbers to the base of 16. No text is no byte.
    fn feed_hex(&mut self, bytes: &str) -> Result<bool, AllocError> {
        for byte in bytes.split(' ') {
            let Ok(byte) = u8::from_str_radix(byte, 16) else {
                return Ok(bytes.is_empty());
            };
            self.feed(&[byte])?;
        }
        Ok(true)
    }

    fn set_fault(&mut self, word: &str, fault: &str) -> bool {
        let fault = match fault {
            "well" => None,
            "fail" => Some(InjectedFault::Fail),
            "not-ready" => Some(InjectedFault::Nothing),
            "interrupt" => Some(InjectedFault::Interrupt),
            "one-byte" => Some(InjectedFault::OneByte),
            "end" => Some(InjectedFault::End),
            _ => return false,
        };
        match word {
            "reads" => self.reads = fault,
            "writes" => self.writes = fault,
            _ => return false,
        }
        true
    }
}
