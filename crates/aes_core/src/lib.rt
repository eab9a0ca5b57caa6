//! AES with keys of 128, 192 and 256 bits (FIPS 197), and counter mode over it (SP 800-38D, 6.5).
#![tactic(auto)]

mod cipher;
mod columns;
mod rounds;
mod schedule;
mod stream;
mod tables;

pub use cipher::{Aes128, Aes192, Aes256, Cipher};
