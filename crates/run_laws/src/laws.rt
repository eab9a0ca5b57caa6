//! Laws of runs. What a function does is to cite others: its contract is the law.

ghost use Rattle.std.specs.Prelude.{ℕ, List};
ghost use Rattle.home_locks.specs.declared.account.Entry.{Entry};
ghost use Rattle.home_opening.specs.declared.opening.Opening.{Opening};
ghost use Rattle.platform_lock.specs.Devices.{DeviceSeen};
ghost use Rattle.share_api.specs.Contents.{Bytes};
ghost use Rattle.share_api.specs.declared.step.Step.{Step};
ghost use Rattle.turn_lock.specs.Seats.{LockId};
ghost use Rattle.turn_meaning.specs.declared.taken.TurnTaken.{TurnTaken};
ghost use Rattle.run_ending.specs.declared.ending.Ending.{Ending};
ghost use Rattle.run_ending.specs.Ending.{EndsWell, status_of};
ghost use Rattle.serve_words.specs.Words.{Asked};
ghost use Rattle.serve_run.specs.Left.{LeftOver};
ghost use Rattle.serve_run.specs.Run.{Did};
ghost use Rattle.serve_run.specs.Says.{AccountSays};
ghost use Rattle.run_laws.specs.Quiet.{IsQuiet};
ghost use Rattle.run_laws.specs.Words.{KeepsToOpening};

use board_model::Board;
use request_loop::{Clock, Sink, Source};
use run_desk::Desk;
use turn_meaning::books_keep_to_the_first_state;

/// A run of words that ask something ends with status 0, or with 5 for want of memory, where nothing outside gave a
/// cause for another end (`IsQuiet`).
pub fn quiet_runs_end_well<D: Desk>()
    ensures { (asked : Asked) (before after : D) (left_over : LeftOver D.Board D.Source D.Sink D.Clock)
        (ending : Ending)
        → Did
        (record {
          disk = D.Board.disk;
          board_faults = D.Board.faults;
          left = D.Source.left;
          taken = D.Source.taken;
          source_faults = D.Source.faults;
          written = D.Sink.written;
          sink_faults = D.Sink.faults;
          given = D.Clock.given;
        })
        (D.seen before) (D.seen after) left_over asked ending
        → IsQuiet
        (record {
          disk = D.Board.disk;
          board_faults = D.Board.faults;
          left = D.Source.left;
          taken = D.Source.taken;
          source_faults = D.Source.faults;
          written = D.Sink.written;
          sink_faults = D.Sink.faults;
          given = D.Clock.given;
        })
        asked (D.seen before) (D.seen after) left_over
        → EndsWell (status_of ending) }
{}

/// The factors' records that an account's entries put have the cost that the words ask, and the tails of its tokens are
/// stretches of the generator that the desk's entropy gives to the account.
///
/// A run says of each account `AccountSays`, with the opening that has the words' cost and the desk's entropy.
pub fn accounts_keep_to_their_opening()
    ensures { (device : DeviceSeen) (shared : LockId) (opening : Opening) (chain : List Step) (account : ℕ)
        (name : Bytes) (book : List (Entry TurnTaken))
        (says : AccountSays device shared opening chain account name book)
        → KeepsToOpening opening name says.own book }
{
    books_keep_to_the_first_state();
}
