//! Stashes at their upper limits.

use crate::made::MAIN;
use ct_bytes::Text;
use name_map::NameMap;
use secret_stash::{Payload, Reset, Stash, StashFault};
use stash_format::{RecordFault, read_payload};
use std::alloc::{AllocError, Global};
use std::test;

type Outcome = Result<(), test::Fail>;

/// A record, spelled by hand: of this version and account, with a payload of so many zero bytes, and so many
/// blocks of edition 1, whose labels are the front and two letters.
#[derive(Clone, Copy)]
struct Shape {
    version: u8,
    account: &'static str,
    front: &'static str,
    payload: u16,
    blocks: u8,
}

const USUAL: Shape = Shape {
    version: 2,
    account: "ann",
    front: "",
    payload: 0,
    blocks: 1,
};

// The letters of a label, which rise with the number.
fn letters(at: u8) -> [u8; 2] {
    [b'a' + at / 16, b'a' + at % 16]
}

fn put_name(bytes: &mut Vec<u8>, front: &str, end: &[u8]) -> Result<(), AllocError> {
    let size = front.len().saturating_add(end.len()).min(255);
    bytes.push(size as u8)?;
    bytes.extend_from_slice(front.as_bytes())?;
    bytes.extend_from_slice(end)
}

fn put_block(bytes: &mut Vec<u8>, shape: &Shape, at: u8) -> Result<(), AllocError> {
    put_name(bytes, shape.front, &letters(at))?;
    bytes.extend_from_slice(&1u64.to_be_bytes())?;
    if shape.version == 2 {
        bytes.push(2)?;
    }
    bytes.extend_from_slice(&[0; 60])
}

fn record_of(alloc: Global, shape: &Shape) -> Result<Vec<u8>, AllocError> {
    let mut bytes = Vec::new(alloc);
    bytes.push(shape.version)?;
    put_name(&mut bytes, shape.account, b"")?;
    bytes.extend_from_slice(&2u64.to_be_bytes())?;
    bytes.push(1)?;
    bytes.extend_from_slice(&[0; 12])?;
    bytes.extend_from_slice(&shape.payload.to_be_bytes())?;
    for _ in 0..shape.payload {
        bytes.push(0)?;
    }
    bytes.extend_from_slice(&[0; 16])?;
    bytes.push(shape.blocks)?;
    for at in 0..shape.blocks {
        put_block(&mut bytes, shape, at)?;
    }
    Ok(bytes)
}

// The stash is written in version 2, with one byte more a block where it was read from version 1.
fn check_written(stash: &Stash, shape: &Shape, record: &[u8]) -> Outcome {
    if !stash.has_payload() || stash.count() < 1 {
        return Err(test::Fail::new("it has a payload and blocks"));
    }
    let written = stash.write()?;
    let bytes = written.as_slice();
    let same = if shape.version == 2 {
        bytes == record
    } else {
        bytes.len() == record.len().saturating_add(shape.blocks as usize)
    };
    if !same {
        return Err(test::Fail::new(format_args!("{} blocks", shape.blocks)));
    }
    Ok(())
}

// A record of this shape is read and written again.
fn check_read(alloc: Global, shape: Shape) -> Outcome {
    let record = record_of(alloc, &shape)?;
    let stash = Stash::read(alloc, &record)?;
    if stash.count() != shape.blocks as usize {
        return Err(test::Fail::new(format_args!("{} blocks", shape.blocks)));
    }
    check_written(&stash, &shape, &record)
}

// The number of blocks isn't allowed, and stands behind 44 bytes.
fn check_refused(alloc: Global, shape: Shape) -> Outcome {
    match Stash::read(alloc, &record_of(alloc, &shape)?) {
        Err(StashFault::BadStash(44)) => Ok(()),
        _ => Err(test::Fail::new(format_args!("{} blocks", shape.blocks))),
    }
}

#[test]
fn a_record_has_16_or_32_blocks_and_a_payload_of_65_535_bytes_at_most(rt: HostRuntime) -> Outcome {
    let rows = [
        (1, 0, 16),
        (2, 0, 1),
        (2, 0, 32),
        (2, 65_535, 1),
        (2, 65_535, 32),
    ];
    for (version, payload, blocks) in rows {
        let shape = Shape {
            version,
            payload,
            blocks,
            ..USUAL
        };
        check_read(rt.alloc(), shape)?;
    }
    Ok(())
}

#[test]
fn one_block_more_is_refused_and_so_is_none(rt: HostRuntime) -> Outcome {
    for (version, blocks) in [(1, 0), (1, 17), (2, 0), (2, 33)] {
        let shape = Shape {
            version,
            blocks,
            ..USUAL
        };
        check_refused(rt.alloc(), shape)?;
    }
    Ok(())
}

// A payload with so many reset secrets, spelled by hand.
fn payload_of(alloc: Global, count: u8) -> Result<Vec<u8>, AllocError> {
    let mut bytes = Vec::new(alloc);
    bytes.extend_from_slice(&[0; 32])?;
    bytes.push(count)?;
    for at in 0..count {
        put_name(&mut bytes, "", &letters(at))?;
        bytes.extend_from_slice(&[1; 40])?;
    }
    Ok(bytes)
}

// How many reset secrets are read, or the fault.
fn resets_read(alloc: Global, bytes: &[u8]) -> Result<usize, RecordFault> {
    Ok(read_payload(alloc, bytes)?.resets.len())
}

#[test]
fn a_payload_has_16_reset_secrets_at_most(rt: HostRuntime) -> Outcome {
    let alloc = rt.alloc();
    assert_eq!(rt; resets_read(alloc, &payload_of(alloc, 0)?), Ok(0));
    assert_eq!(rt; resets_read(alloc, &payload_of(alloc, 16)?), Ok(16));
    assert_eq!(rt;
        resets_read(alloc, &payload_of(alloc, 17)?),
        Err(RecordFault::BadStash(32))
    );
    Ok(())
}

const GREATEST: Shape = Shape {
    version: 2,
    account: "aaaaaaaaaaaaaaaaaaaaaaaaaaaaaaaa",
    front: "mmmmmmmmmmmmmm",
    payload: 0,
    blocks: 32,
};

// The greatest payload that the blocks of the greatest stash name.
fn greatest_payload(alloc: Global) -> Result<Payload, test::Fail> {
    let mut resets = NameMap::new(alloc);
    for at in 0..16u8 {
        let letters = letters(at);
        let label = format!(in alloc; "{}{}", GREATEST.front, str::from_utf8(&letters)?)?;
        let reset = Reset {
            edition: 1,
            secret: [5; 32],
        };
        resets.insert(Text::from_str(alloc, label.as_str())?, reset)?;
    }
    Ok(Payload {
        vault: [6; 32],
        resets,
    })
}

// A stash with this payload.
fn with_payload(alloc: Global, payload: &Payload) -> Result<Stash, test::Fail> {
    let mut stash = Stash::read(alloc, &record_of(alloc, &GREATEST)?)?;
    if payload.resets.len() > 16 {
        return Err(test::Fail::new("there are too many reset secrets"));
    }
    stash.set_payload(&MAIN, payload, [9; 12])?;
    Ok(stash)
}

#[test]
fn the_greatest_record_has_3_771_bytes(rt: HostRuntime) -> Outcome {
    let payload = greatest_payload(rt.alloc())?;
    let stash = with_payload(rt.alloc(), &payload)?;
    assert!(rt; stash.has_payload() && stash.count() >= 1);
    assert_eq!(rt; stash.write()?.as_slice().len(), 3_771);
    assert_eq!(rt; stash.payload(&MAIN)?.resets.len(), 16);
    Ok(())
}
