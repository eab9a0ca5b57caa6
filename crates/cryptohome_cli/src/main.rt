//! The program: it reads the words of its command line, and serves the clients of its desk.
#![tactic(auto)]

mod client_files;
mod clock;
mod input;
mod output;
mod real_desk;

use real_desk::RealDesk;
use run_ending::Ending;
use serve_run::run;
use std::io::ErrorKind;
use std::process::ExitCode;
use std::{env, io};

// The words after the program's name. One that isn't UTF-8 is an error of data.
fn words_of(rt: &HostRuntime) -> io::Result<Vec<String>> {
    let mut words = Vec::new(rt.alloc());
    let mut args = env::args(rt)?;
    let _program = args.next();
    for word in args {
        words.push(word)?;
    }
    Ok(words)
}

// Ends with this status, also where the text can't be printed.
fn end(rt: &HostRuntime, status: u8, said: &[u8]) -> ExitCode {
    let _printed = if status == 0 {
        rt.stdout().write_all(said)
    } else {
        rt.stderr().write_all(said)
    };
    ExitCode::from(status)
}

fn main(rt: HostRuntime) -> ExitCode {
    let words = match words_of(&rt) {
        Ok(words) => words,
        Err(error) if error.kind() == ErrorKind::OutOfMemory => {
            return end(&rt, Ending::NoMemory.status(), b"no memory\n");
        }
        Err(_) => return end(&rt, Ending::BadWords.status(), b"bad words\n"),
    };
    let mut desk = RealDesk::new(rt);
    let outcome = run(&rt, rt.alloc(), &words, &mut desk);
    end(&rt, outcome.status, &outcome.said)
}
