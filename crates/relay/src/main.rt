//! The program `relay`: it passes its arguments and standard streams to `relay_server`.
#![tactic(auto)]

use relay_server::{PolledOutput, refuse_words, start};
use std::process::ExitCode;
use std::{env, io};

fn main(rt: HostRuntime) -> ExitCode {
    let mut errors = PolledOutput::new(rt.alloc(), &rt, rt.stderr());
    let status = match words(&rt) {
        Ok(words) => start(
            &rt,
            words.as_slice(),
            &mut rt.stdin(),
            &mut rt.stdout(),
            &mut errors,
        ),
        Err(error) => refuse_words(error.kind(), &mut errors),
    };
    ExitCode::from(status)
}

fn words(rt: &HostRuntime) -> Result<Vec<String>, io::Error> {
    Ok(env::args(rt)?.collect(rt.alloc())?)
}
