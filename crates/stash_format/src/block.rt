//! A factor's block: the main key, wrapped for it.

use ct_bytes::NoMemory;
use name_map::Copied;

/// What a block's main key is bound to, beside its wrap key.
#[derive(Clone, Copy, Debug, PartialEq, Eq)]
pub enum Form {
    /// To nothing. A record of version 1 has such blocks alone.
    Plain,
    /// To the account, the factor's label and the block's edition.
    Bound,
}

/// The main key of a stash, sealed under the wrap key of a factor.
#[derive(Clone, Copy, Debug, PartialEq, Eq)]
pub struct Block {
    /// The edition of the factor.
    pub edition: u64,
    pub form: Form,
    /// The IV that the main key is sealed under.
    pub iv: [u8; 12],
    /// The encrypted main key.
    pub text: [u8; 32],
    /// Its tag.
    pub tag: [u8; 16],
}

impl Copied for Block {
    fn copy(&self) -> Result<Block, NoMemory> {
        Ok(*self)
    }
}
