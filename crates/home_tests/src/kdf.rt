//! Keys that are derived while others go on.

use crate::sign::{Sign, Signs};
use ct_bytes::NoMemory;
use std::alloc::Global;
use turn_secrets::Kdf;

// The secret of which a key waits.
const SECRET: &[u8] = b"pw";

/// Derives by scrypt. Of one secret it first gives the sign that it is at it, and waits until another client was
/// answered.
#[derive(Clone, Copy)]
pub struct WaitingKdf<'a> {
    pub signs: &'a Signs,
}

impl<'a> Kdf for WaitingKdf<'a> {
    // Where the answer doesn't come, there is no memory, which the client is told.
    fn derive(
        &mut self,
        alloc: Global,
        secret: &[u8],
        salt: &[u8; 16],
        cost: u8,
    ) -> Result<[u8; 64], NoMemory> {
        if secret == SECRET {
            self.signs.give(Sign::KeyBegun);
            if !self.signs.comes(Sign::Answered) {
                return Err(NoMemory);
            }
        }
        scrypt_kdf::derive(alloc, secret, salt, cost)
    }
}
