//! The turns of users, as their accounts' locks take them.

use crate::answers::{Answered, kept_and_told};
use crate::asked::TurnAsked;
use crate::part::AccountPart;
use crate::told::TurnTold;
use account_machine::{Answer, Durable, Token, Told, Turn, User};
use board_device::BoardDevice;
use board_model::Board;
use home_locks::AccountTurns;
use share_api::Share;
use std::alloc::Global;
use std::marker::PhantomData;
use turn_meaning::TurnTaken;
use user_state::UserState;
use user_turn::act;

/// The turns of the users of a board's accounts.
pub struct UserTurns<B> {
    pub board: PhantomData<B>,
}

impl<B: Board + Drop> AccountTurns for UserTurns<B> {
    ghost use Rattle.board_device.specs.Device.{board_of};
    ghost use Rattle.board_device.specs.Standing.{IsOpened};
    ghost use Rattle.turn_meaning.specs.Meanings.{user_rules};
    ghost use Rattle.user_accounts.specs.Parts.{parts_of, part_images_now, part_images_since};
    ghost use Rattle.user_accounts.specs.Ready.{IsReadyFor};
    ghost use Rattle.user_accounts.specs.Recovered.{parts_last, parts_recover};
    ghost use Rattle.user_accounts.specs.Told.{TellsTurn};

    type Platform = BoardDevice<B>;

    type Contents = AccountPart;

    type Durable = Durable;

    type User = User;

    type Asked = TurnAsked;

    type Turn = TurnTaken;

    type Told = TurnTold;

    type State = UserState;

    ghost rules = { user_rules };

    ghost tells = { TellsTurn };

    ghost ready = { IsReadyFor };

    ghost contents = { parts_of B.disk };

    ghost opened = { IsOpened B.disk };

    ghost images = { part_images_since B.disk };

    ghost images_now = { part_images_now B.disk };

    ghost recovers = { λ first now chain opened stands. parts_recover B.disk first now chain opened stands
        (B.synced_now (board_of now)) (B.is_image (board_of now)) };

    ghost lasts = { parts_last B.disk };

    fn blank() -> TurnTaken {
        TurnTaken {
            given: 0,
            moment: 0,
            told: Told::Settled,
            turn: Turn::Clear(Token {
                number: 0,
                tail: [0; 16],
            }),
            answer: Answer::NoMemory,
        }
    }

    /// One turn of a user, by `user_turn`, with its answer as the book keeps it and as it is told.
    fn act<S: Share>(
        alloc: Global,
        share: &mut S,
        state: &mut UserState,
        asked: TurnAsked,
    ) -> (TurnTaken, TurnTold) {
        let TurnAsked {
            turn,
            derived,
            moment,
        } = asked;
        let acted = act(alloc, state, share, &turn, derived, moment);
        let Answered { kept, told } = kept_and_told(acted.answer);
        let taken = TurnTaken {
            given: moment,
            moment: state.last,
            told: acted.told,
            turn,
            answer: kept,
        };
        let told = TurnTold {
            answer: told,
            seen: acted.seen,
        };
        (taken, told)
    }
}
