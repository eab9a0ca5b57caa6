//! Measures the host's tree: `tree_bench WORK COUNT`.
//!
//! The work is `edits`, so many changes of a tree's labels; `hashes`, so many SHA-256 of a node's 129 bytes;
//! or `opening`, a new tree with so many used labels. The program prints both words and how many
//! microseconds the work took. With no words it prints nothing.
#![tactic(auto)]

use anyhow::{Context, bail};
use std::env;
use std::time::{Clock, Instant};
use work::{Work, edit_each, hash_each, open_with};

mod work;

// How many microseconds the work takes.
fn measured<R: Clock + std::alloc::AllocGlobal>(
    rt: &R,
    work: Work,
    count: u32,
) -> anyhow::Result<u128> {
    let mut tree = label_tree::Tree::new(rt.alloc())
        .ok()
        .context("no memory for a tree")?;
    let start = Instant::now(rt)?;
    match work {
        Work::Edits => edit_each(&mut tree, count),
        Work::Hashes => hash_each(count),
        Work::Opening => open_with(rt.alloc(), count)
            .ok()
            .context("no memory for a tree")?,
    }
    Ok(start.elapsed(rt)?.as_micros())
}

fn main(rt: HostRuntime) -> anyhow::Result<()> {
    let mut words = env::args(&rt)?.skip(1);
    let Some(name) = words.next() else {
        return Ok(());
    };
    let work = Work::named(&name).context("the work is edits, hashes or opening")?;
    let count = words.next().context("a count is missing")?;
    let Some(number) = count.parse::<u32>().ok() else {
        bail!("the count is a number");
    };
    let micros = measured(&rt, work, number)?;
    println!(rt; "{name} {number} {micros}")?;
    Ok(())
}
