//! What a home that was begun can do, and what one that wasn't leaves. Each function has an empty body: its contract is the law.

ghost use Rattle.std.specs.Prelude.{ℕ, ◌<◌, List, Option, map, length};
ghost use Rattle.account_machine.specs.User.{opened};
ghost use Rattle.account_machine.specs.declared.user.Durable.{Durable};
ghost use Rattle.share_api.specs.Contents.{Bytes};
ghost use Rattle.share_api.specs.declared.step.Step.{Step};
ghost use Rattle.turn_lock.specs.Seats.{LockId, SeatView};
ghost use Rattle.board_device.specs.Device.{era_of, seen_by};
ghost use Rattle.board_device.specs.Standing.{IsOpened};
ghost use Rattle.board_device.specs.declared.device.BoardDevice.{BoardDevice};
ghost use Rattle.home_locks.specs.Accounts.{started_at};
ghost use Rattle.home_locks.specs.Settled.{AreOpened};
ghost use Rattle.image_path.specs.Showing.{ByAccount};
ghost use Rattle.turn_meaning.specs.Meanings.{HoldsPart, Part, user_rules};
ghost use Rattle.user_accounts.specs.Parts.{part_images_since, parts_of};
ghost use Rattle.home_seats.specs.Seats.{LockSeen};
ghost use Rattle.home_opening.specs.declared.fault.HomeFault.{HomeFault};
ghost use Rattle.home_opening.specs.declared.opening.Opening.{Opening};
ghost use Rattle.user_home.specs.Ending.{CanEnd};
ghost use Rattle.user_home.specs.Open.{IsServable};
ghost use Rattle.home_begin.specs.Begins.{IsBegun, StopsAt};

use board_model::Board;

/// Clients' requests can be made at it.
pub fn begun_home_is_servable<B: Board>()
    ensures { (board : B) (named : List Bytes) (opening : Opening) (device : BoardDevice B) (shared : LockId)
        (names : List Bytes) (locks : List LockSeen) (idle : Option (SeatView Step))
        → IsBegun B.disk B.faults board named opening device shared names locks idle
        → IsServable (seen_by B.faults device) shared names locks }
{}

/// It can be ended.
pub fn begun_home_can_end<B: Board>()
    ensures { (board : B) (named : List Bytes) (opening : Opening) (device : BoardDevice B) (shared : LockId)
        (names : List Bytes) (locks : List LockSeen) (idle : Option (SeatView Step))
        → IsBegun B.disk B.faults board named opening device shared names locks idle
        → CanEnd shared (era_of device) locks idle }
{}

/// Where each account's part of the device holds a durable part, the accounts' first steps open users with these.
pub fn begun_accounts_open<B: Board>()
    ensures { (board : B) (named : List Bytes) (opening : Opening) (device : BoardDevice B) (shared : LockId)
        (names : List Bytes) (locks : List LockSeen) (idle : Option (SeatView Step)) (durable : ℕ → Durable)
        → IsBegun B.disk B.faults board named opening device shared names locks idle
        → ((account : ℕ) → account < length names → HoldsPart (parts_of B.disk device account) (durable account))
        → AreOpened (user_rules (era_of device)) (parts_of B.disk device)
        (λ account. opened (durable account) opening.moment) 0
        (map (λ at. started_at at.seat at.state) locks) }
{}

/// A start that was refused takes nothing from anybody: the durable part that an account's part of the device held is
/// held by its part of what is left, and by its part of each image that a crash since the opening might have left.
pub fn refused_start_keeps_homes<B: Board>()
    ensures left { (device : BoardDevice B) (opening : Opening) (fault : HomeFault) (left : B)
        (stops : StopsAt B.disk B.faults device opening fault left) (account : ℕ) (durable : Durable)
        → IsOpened B.disk device
        → HoldsPart (parts_of B.disk device account) durable
        → HoldsPart (parts_of B.disk stops.last account) durable }
    ensures images { (device : BoardDevice B) (opening : Opening) (fault : HomeFault) (left : B)
        (stops : StopsAt B.disk B.faults device opening fault left) (account : ℕ) (durable : Durable)
        → IsOpened B.disk device
        → HoldsPart (parts_of B.disk device account) durable
        → (parts : ByAccount Part) → part_images_since B.disk device stops.last parts
        → HoldsPart (parts account) durable }
{}
