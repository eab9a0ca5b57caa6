//! What an account has, as a type.

use std::marker::Model;

/// What an account has on a board, with its name, as a type for traits that name one. Contracts alone speak of it.
pub struct AccountPart;

impl Model for AccountPart {
    ghost use Rattle.turn_meaning.specs.Meanings.{Part};
    ghost use Rattle.user_accounts.specs.Coding.{coded_part, no_part};

    ghost Value = { Part };

    ghost coded = { coded_part };

    ghost view = { λ part. no_part };
}
