//! Room for one name more.

ghost use Rattle.std.specs.Prelude.{◌↔◌, IsTrue};
ghost use Rattle.cabinet.specs.Names.{HasRoom};
ghost use Rattle.platform_core.specs.Asked.{HasRoomFor};
ghost use Rattle.platform_core.specs.Held.{names_of, most_of};

use crate::platform::Platform;
use board_model::Board;
use record_names::RecordName;
use share_api::{Op, Write};

// Whether the name is held, or there is room for one more.
fn has_room(names: &[RecordName], most: usize, name: &RecordName) -> bool
    ensures { IsTrue result ↔ HasRoom names.now most name.now }
{
    names.contains(name) || names.len() < most
}

impl<B: Board> Platform<B> {
    /// Whether there is room for the step: the name of a put is held, or there is room for one more. No other step
    /// needs any.
    pub fn has_room(&self, op: &Op) -> bool
        ensures { IsTrue result ↔ HasRoomFor (names_of self.now) (most_of self.now) op.now }
    {
        let cabinet = &self.records.cabinet;
        match op {
            Op::Do(Write::Put(name, _)) => has_room(cabinet.names(), cabinet.most(), name),
            Op::Do(Write::Remove(_)) => true,
            Op::Do(Write::RemoveLeaf(_)) => true,
            Op::Names => true,
            Op::Get(_) => true,
            Op::InsertLeaf(_) => true,
            Op::TryLeaf(_, _) => true,
            Op::ResetLeaf(_, _) => true,
            Op::LookLeaf(_) => true,
        }
    }
}
