//! The records of all accounts, and which of their names are unsure.

use crate::unsure::Unsure;
use cabinet::Cabinet;

/// A cabinet, and which of its names are unsure.
#[derive(Drop)]
pub struct Records<B> {
    pub(crate) cabinet: Cabinet<B>,
    pub(crate) unsure: Unsure,
}
