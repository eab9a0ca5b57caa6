//! The cabinet, and the names that it keeps.

ghost use Rattle.std.specs.Prelude.{◌≤◌, vec_capacity};

use ct_bytes::Text;
use record_names::RecordName;

/// Records by name over a board.
#[derive(Drop)]
pub struct Cabinet<B> {
    pub(crate) board: B,
    pub(crate) names: Vec<RecordName>,
    pub(crate) accounts: Vec<Text>,
    pub(crate) most: usize,
    ghost room: { most ≤ vec_capacity names },
}
