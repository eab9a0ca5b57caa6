//! The platform.

ghost use Rattle.std.specs.Prelude.{bytes_eq};
ghost use Rattle.std.specs.List.{IsDistinct};
ghost use Rattle.std.proofs.Props.{props};
ghost use Rattle.cabinet.specs.Held.{accounts_of};

use crate::records::Records;

/// The records of several accounts over one board.
#[derive(Drop)]
pub struct Platform<B> {
    pub(crate) records: Records<B>,
    pub(crate) unsettled: bool,
    ghost distinct: { IsDistinct bytes_eq (accounts_of records.cabinet) } by { Prim.hlevel props },
}
