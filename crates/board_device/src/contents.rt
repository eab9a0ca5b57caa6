//! What an account has, as a type.

use std::marker::Model;

/// What an account has on a platform of records, as a type for traits that name one. Contracts alone speak of it.
pub struct AccountContents;

impl Model for AccountContents {
    ghost use Rattle.share_api.specs.Contents.{Contents, no_contents};
    ghost use Rattle.board_device.specs.Coding.{coded_contents};

    ghost Value = { Contents };

    ghost coded = { coded_contents };

    ghost view = { λ contents. no_contents };
}
