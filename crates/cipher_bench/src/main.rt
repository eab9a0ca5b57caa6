//! Measures the ciphers and scrypt: `cipher_bench PRIMITIVE SIZE REPETITIONS`.
//!
//! A primitive runs over a buffer of SIZE bytes, REPETITIONS times. At `scrypt` SIZE is the cost, and
//! REPETITIONS keys are derived. The program prints the three words and how many microseconds all
//! repetitions took together. With no words it prints nothing.
#![tactic(auto)]

use anyhow::{Context, bail};
use derivation::{MOST_COST, derive_each};
use primitive::{MOST_BYTES, Primitive};
use std::alloc::AllocGlobal;
use std::env;
use std::time::{Clock, Instant};

mod derivation;
mod primitive;

// The number in a word.
fn number(word: &str) -> anyhow::Result<usize> {
    word.parse::<usize>()
        .ok()
        .context("the size and the repetitions are numbers")
}

// How many microseconds a primitive takes over a buffer of this size, so many times.
fn over_buffer<R: Clock + AllocGlobal>(
    rt: &R,
    primitive: Primitive,
    size: usize,
    repetitions: usize,
) -> anyhow::Result<u128> {
    if size > MOST_BYTES {
        bail!("the size is too large");
    }
    let mut buf = vec![in rt.alloc(); 0u8; size]?;
    let start = Instant::now(rt)?;
    for _ in 0..repetitions {
        primitive.run(&mut buf);
    }
    Ok(start.elapsed(rt)?.as_micros())
}

// How many microseconds so many keys of a cost take.
fn at_cost<R: Clock + AllocGlobal>(
    rt: &R,
    cost: usize,
    repetitions: usize,
) -> anyhow::Result<u128> {
    if cost < 1 || MOST_COST < cost {
        bail!("a cost is from 1 to 16");
    }
    let start = Instant::now(rt)?;
    derive_each(rt.alloc(), cost as u8, repetitions)
        .ok()
        .context("no memory for the rows of scrypt")?;
    Ok(start.elapsed(rt)?.as_micros())
}

fn main(rt: HostRuntime) -> anyhow::Result<()> {
    let mut words = env::args(&rt)?.skip(1);
    let Some(name) = words.next() else {
        return Ok(());
    };
    let size = number(&words.next().context("a size is missing")?)?;
    let repetitions = number(&words.next().context("the repetitions are missing")?)?;
    let micros = if name.as_str() == "scrypt" {
        at_cost(&rt, size, repetitions)?
    } else {
        let primitive = Primitive::named(&name).context("no such primitive")?;
        over_buffer(&rt, primitive, size, repetitions)?
    };
    println!(rt; "{name} {size} {repetitions} {micros}")?;
    Ok(())
}
