//! Laws of the texts. Each function has an empty body: its contract is the law.

ghost use Rattle.std.specs.Prelude.{◌≡◌, ◌<◌, ◌^◌, ℕ, List, length, Some, codes};
ghost use Rattle.serde_json.specs.Data.{string};
ghost use Rattle.serde_json.specs.Written.{compact_text};
ghost use Rattle.hex.specs.Hex.{IsBytes, decode_sized};
ghost use Rattle.account_machine.specs.declared.session.Token.{Token};
ghost use Rattle.client_lang.specs.Fields.{token_by};
ghost use Rattle.client_lang.specs.Replies.{quoted, token_text};

/// Strings in replies are spelled as `serde_json` writes them.
pub fn strings_are_as_serde_json_writes_them()
    ensures { (text : List ℕ) → compact_text (string text) ≡ quoted text }
{}

/// A token that a reply shows is read in a request as that token.
pub fn printed_tokens_are_read()
    ensures { (token : Token) → token.number < 2 ^ 64 → length token.tail ≡ 16 → IsBytes token.tail
        → token_by (decode_sized (token_text token) 24) ≡ Some token }
{}
