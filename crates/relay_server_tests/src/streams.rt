//! Tests with a reader and a writer that interrupt or fail at a chosen call.
use crate::story::{kind_of, number, on_one_line, with_end};
use relay_hub::HubConfig;
use relay_server::run_script;
use relay_test_stream::{Subject, cut, play};
use std::alloc::{AllocGlobal, Global};
use std::io;
use std::io::{ErrorKind, Read, Write};

/// A script of two lines is read or written with faults: after so many calls, so many of a kind.
const ROWS: &str = r#"
# The first call that fails is within the second line. The script goes on after 999 interruptions of its input.
reads 9 999 Interrupted => x unknown\ny unknown\n
reads 9 1000 Interrupted => x unknown\nfault: input
reads 9 1 Other => x unknown\nfault: input

# The first call that fails is within the second answer, which is cut there. The script goes on after 999 interruptions of its output.
writes 12 999 Interrupted => x unknown\ny unknown\n
writes 12 1000 Interrupted => x unknown\ny fault: output
writes 12 1 Other => x unknown\ny fault: output
"#;

#[test]
fn goes_on_after_999_interruptions(rt: HostRuntime) {
    play(&rt, &mut Streams, ROWS).expect(&rt, "each row holds");
}

#[derive(Clone, Copy)]
struct Streams;

impl<R: AllocGlobal> Subject<R> for Streams {
    fn act(&mut self, rt: &R, act: &str) -> Option<String> {
        let alloc = rt.alloc();
        let (word, faults) = cut(act);
        let told = match word {
            "reads" => played_with(alloc, faults_of(faults)?, NONE),
            "writes" => played_with(alloc, NONE, faults_of(faults)?),
            _ => None,
        };
        on_one_line(alloc, told?.as_str())
    }
}

/// Faults of successive calls: the number of calls before them, their own number, and their kind.
#[derive(Clone, Copy)]
struct Faults {
    before: u64,
    times: u64,
    kind: ErrorKind,
}

/// No faults.
const NONE: Faults = Faults {
    before: 0,
    times: 0,
    kind: ErrorKind::Other,
};

fn faults_of(words: &str) -> Option<Faults> {
    let (before, rest) = cut(words);
    let (times, kind) = cut(rest);
    Some(Faults {
        before: number(before)?,
        times: number(times)?,
        kind: kind_of(kind)?,
    })
}

impl Faults {
    /// Counts a call. Fails if the call has a fault.
    fn call(&mut self) -> io::Result<()> {
        if self.before > 0 {
            self.before -= 1;
        } else if self.times > 0 {
            self.times -= 1;
            return Err(io::Error::from(self.kind));
        }
        Ok(())
    }
}

/// A reader that returns one byte per read.
#[derive(Drop)]
struct FailingReader {
    bytes: &'static [u8],
    faults: Faults,
}

impl Read for FailingReader {
    fn read(&mut self, buf: &mut [u8]) -> io::Result<usize> {
        self.faults.call()?;
        let most = buf.len().min(1);
        self.bytes.read(&mut buf[..most])
    }
}

/// A writer that accepts one byte per write.
#[derive(Drop)]
struct FailingWriter {
    bytes: Vec<u8>,
    faults: Faults,
}

impl Write for FailingWriter {
    fn write(&mut self, buf: &[u8]) -> io::Result<usize> {
        self.faults.call()?;
        let most = buf.len().min(1);
        self.bytes.extend_from_slice(&buf[..most])?;
        Ok(most)
    }

    fn flush(&mut self) -> io::Result<()> {
        Ok(())
    }
}

/// Two lines, for names that are not open.
const TWO_LINES: &[u8] = b"x draw\ny draw";

/// The output of a script that is read and written with faults, followed by the fault that ended
/// it.
fn played_with(alloc: Global, of_reads: Faults, of_writes: Faults) -> Option<String> {
    let mut input = FailingReader {
        bytes: TWO_LINES,
        faults: of_reads,
    };
    let mut output = FailingWriter {
        bytes: Vec::new(alloc),
        faults: of_writes,
    };
    let ended = run_script(alloc, &mut input, &mut output, HubConfig::new(1, 1, 64, 32));
    with_end(alloc, output.bytes.as_slice(), ended)
}
