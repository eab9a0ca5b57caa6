//! A put by way of a temporary file.

ghost use Rattle.std.specs.Prelude.{◌≡◌, ◌⊎◌, ◌≤◌, ◌++◌, Some, OnOk, IsErr, length, take, codes};
ghost use Rattle.fault_count.specs.Causes.{HasCause};
ghost use Rattle.board_model.specs.Files.{IsTemporary};
ghost use Rattle.board_model.specs.Disk.{Follows, Leaves, Goes};
ghost use Rattle.staged_file.specs.Staged.{Kept, Replaced, KeptOr};

use board_model::Board;
use fault_count::Failed;

/// What the name of a temporary file has before the name of the file.
const FRONT: &[u8; 4] = b"tmp-";

/// The greatest length of a file's name, in bytes.
const LONGEST: usize = 166;

// The put by way of this temporary file.
fn put_by<B: Board>(board: &mut B, temporary: &str, name: &str, bytes: &[u8]) -> Result<(), Failed>
    requires temporary { IsTemporary temporary.now }
    requires plain { ¬ IsTemporary name.now }
    ensures any_moment { Leaves (B.disk board.old) (B.disk board.new)
        (KeptOr (Replaced name.now (Some bytes.now))) }
    ensures durable { OnOk result (Follows (Replaced name.now (Some bytes.now))
        (B.disk board.old).may_leave (B.disk board.new).may_leave) }
    ensures done { OnOk result (Goes (B.disk board.old) (B.disk board.new)
        (Replaced name.now (Some bytes.now))) }
    ensures done_or_not { Goes (B.disk board.old) (B.disk board.new) Kept
        ⊎ Goes (B.disk board.old) (B.disk board.new) (Replaced name.now (Some bytes.now)) }
    ensures cause { HasCause (B.faults board.old) (B.faults board.new) (IsErr result) }
{
    board.write_temp(temporary, bytes)?;
    // A file that isn't synced may hold any bytes, also under its new name.
    board.sync_temp(temporary)?;
    board.rename(temporary, name)?;
    board.sync_dir()
}

// Writes the name of a file's temporary file, and gives its length.
fn write_temporary_name(room: &mut [u8; 170], name: &str) -> usize
    requires { length name.now ≤ 166 }
    ensures name { take result room.new ≡ codes "tmp-" ++ name.now }
    ensures within { result ≤ 170 }
{
    let end = 4 + name.len();
    room[..4].copy_from_slice(FRONT);
    room[4..end].copy_from_slice(name.as_bytes());
    end
}

/// Makes or replaces a file, whole or not at all, by way of the temporary file `tmp-` and its name.
///
/// `name` has 166 bytes at most and isn't a temporary file's. At each moment a crash leaves the new
/// file or what it would have left before; after `Ok` it leaves the new one only. Takes no memory.
pub fn put<B: Board>(board: &mut B, name: &str, bytes: &[u8]) -> Result<(), Failed>
    requires short { length name.now ≤ 166 }
    requires plain { ¬ IsTemporary name.now }
    // Each image since the start is one of the start, with the new file or without it.
    ensures any_moment { Leaves (B.disk board.old) (B.disk board.new)
        (KeptOr (Replaced name.now (Some bytes.now))) }
    // After Ok each image is one of the start with the new file.
    ensures durable { OnOk result (Follows (Replaced name.now (Some bytes.now))
        (B.disk board.old).may_leave (B.disk board.new).may_leave) }
    ensures done { OnOk result (Goes (B.disk board.old) (B.disk board.new)
        (Replaced name.now (Some bytes.now))) }
    // After a fault the file is there or isn't, and so in each image once the directory is synced.
    ensures done_or_not { Goes (B.disk board.old) (B.disk board.new) Kept
        ⊎ Goes (B.disk board.old) (B.disk board.new) (Replaced name.now (Some bytes.now)) }
    ensures cause { HasCause (B.faults board.old) (B.faults board.new) (IsErr result) }
{
    let mut room = [0u8; 170];
    let end = write_temporary_name(&mut room, name);
    let Ok(temporary) = str::from_utf8(&room[..end]) else {
        unreachable!()
    };
    put_by(board, temporary, name, bytes)
}
