//! Answers lines by the proved ciphers, so that another implementation can run beside them.
//!
//! A line has the name of a primitive and its words: bytes in hex, `-` for none, and numbers. The answer is a
//! line of bytes in hex, `-` for none, or `refused`. `bench/differential.py` writes such lines.
#![tactic(auto)]

use anyhow::Context;
use std::alloc::Global;

mod answers;
mod words;

// The bytes in hex, as they stand on a line.
fn spelled(alloc: Global, bytes: &[u8]) -> anyhow::Result<String> {
    let text = if bytes.is_empty() {
        String::from_str(alloc, "-").ok()
    } else {
        hex::encode(alloc, bytes).ok()
    };
    text.context("no memory")
}

fn main(rt: HostRuntime) -> anyhow::Result<()> {
    let alloc = rt.alloc();
    for line in rt.lines(alloc) {
        let line = line?;
        match answers::answer(alloc, line.as_str())? {
            Some(bytes) => {
                let text = spelled(alloc, &bytes)?;
                println!(rt; "{text}")?;
            }
            None => println!(rt; "refused")?,
        }
    }
    Ok(())
}
