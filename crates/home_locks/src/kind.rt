//! What the locks need of a platform and of users' turns.

ghost use Rattle.std.specs.Prelude.{◌≡◌, ℕ, List};
ghost use Rattle.pw_types.specs.declared.era.Era.{Era};
ghost use Rattle.image_path.specs.Paths.{IsLedIn, Recovers};
ghost use Rattle.image_path.specs.Showing.{ByAccount};
ghost use Rattle.share_api.specs.declared.step.Step.{Step};
ghost use Rattle.home_locks.specs.Accounts.{Readiness, StaysReady};
ghost use Rattle.home_locks.specs.Meanings.{Rules, meaning_of};
ghost use Rattle.home_locks.specs.Turns.{ActStands};

use platform_lock::Device;
use share_api::Share;
use std::alloc::Global;

/// A platform of several accounts, and the turns of their users.
pub trait AccountTurns {
    /// The platform.
    type Platform: Device + Drop;

    /// What an account has on the platform.
    type Contents;

    /// The durable part of a user.
    type Durable;

    /// A user of the machine.
    type User;

    /// What a client asks, with what it brings along.
    type Asked: Drop;

    /// A turn as the book keeps it: what was asked, with the answer.
    type Turn: Drop;

    /// What is told of a turn to the client that asked it.
    type Told: Drop;

    /// The state of an account in memory.
    type State: Drop;

    /// What steps, turns and states mean in an era, and what a turn's own steps do to the state.
    ghost rules: { Era → Rules Self.Contents Self.Durable Self.User Self.Turn Self.State };

    /// What was asked became this turn once it was done, and this was told of it.
    ghost tells: { Self.Asked → Self.Turn → Self.Told → Type 0 };

    /// Which states a turn can begin with over the share of an account of this name, where the tree of leaves is lost
    /// or not.
    ghost ready: { Readiness Self.State };

    /// What a platform has of each account.
    ghost contents: { Self.Platform → ByAccount Self.Contents };

    /// What has to be so of the platform that a run begins with, so that images have what it has: as that its board
    /// tells its content.
    ghost opened: { Self.Platform → Type 0 };

    /// What the images have of each account that a crash since the first platform may leave of the second.
    ghost images: { Self.Platform → Self.Platform → ByAccount Self.Contents → Type 0 };

    /// What the images have of each account that a crash may leave of a platform now.
    ghost images_now: { Self.Platform → ByAccount Self.Contents → Type 0 };

    /// A turn that says nothing yet.
    fn blank() -> Self::Turn;

    /// Takes one turn, and gives what the book keeps of it, and what is told of it.
    fn act<S: Share>(
        alloc: Global,
        share: &mut S,
        state: &mut Self::State,
        asked: Self::Asked,
    ) -> (Self::Turn, Self::Told)
        requires ready { ready (S.seen share.old).owner (S.seen share.old).lost state.old }
        ensures goes { S.goes share.old share.new }
        ensures stands { ActStands (rules (S.seen share.old).era) state.old state.new result.0 (S.seen share.old)
            (S.seen share.new) }
        ensures stays_ready { StaysReady ready state.old state.new }
        ensures tells { tells asked result.0 result.1 };

    /// Each image has of all accounts what their steps among the first so many lead to, and the platform has what
    /// all of them lead to.
    ghost recovers: { (first now : Self.Platform) (chain : List Step)
        → opened first
        → Self.Platform.stands first now chain
        → Recovers (meaning_of (rules (Self.Platform.seen first).era)) (contents first) (contents now)
        (images first now) chain };

    /// Each image that a crash may leave now has of all accounts what all their steps lead to.
    ghost lasts: { (first now : Self.Platform) (chain : List Step)
        → opened first
        → Self.Platform.stands first now chain
        → (image : ByAccount Self.Contents)
        → images_now now image
        → (account : ℕ)
        → IsLedIn (meaning_of (rules (Self.Platform.seen first).era)) (images first now) chain account
        (contents first account) (image account) };
}
