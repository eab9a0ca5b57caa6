//! Names as fields: a length byte, and so many bytes.

ghost use Rattle.std.specs.Prelude.{◌≡◌, false, IsTrue, IfOk, IfErr, IfSome, IfNone, Ok, Err};
ghost use Rattle.std.specs.List.{list_all};
ghost use Rattle.home_names.specs.Names.{is_name_byte, is_account_name, is_factor_label};
ghost use Rattle.record_fields.specs.Names.{account_at, label_at};

use crate::fault::BadField;
use ct_bytes::Reader;
use home_names::{is_account_name, is_factor_label};

// The bytes as text. None only where one of them may not stand in a name.
#[tactic(auto, using(crate::proofs::NameLemmas::not_text))]
fn text_of(field: &[u8]) -> Option<&str>
    ensures some { IfSome result (λ text. text.now ≡ field.now) }
    ensures none { IfNone result (list_all is_name_byte field.now ≡ false) }
{
    match str::from_utf8(field) {
        Ok(text) => Some(text),
        Err(_) => None,
    }
}

/// The account that stands next.
///
/// `BadField` where it is cut short or isn't an account name. The reader has then any state.
#[tactic(auto, using(crate::proofs::NameLemmas::plain_account), unfolding(crate::specs::Names::account_at))]
pub fn take_account<'a>(reader: &mut Reader<'a>) -> Result<&'a str, BadField>
    ensures ok { IfOk result (λ account. account_at reader.old ≡ Ok (account.now, reader.new)) }
    ensures err { IfErr result (λ fault. account_at reader.old ≡ Err fault) }
    ensures plain { IfOk result (λ account. IsTrue (is_account_name account.now)) }
{
    let place = reader.place();
    let Ok(field) = reader.field8() else {
        return Err(BadField(place));
    };
    let Some(account) = text_of(field) else {
        return Err(BadField(place));
    };
    if !is_account_name(account) {
        return Err(BadField(place));
    }
    Ok(account)
}

/// The factor label that stands next.
///
/// `BadField` where it is cut short or isn't a factor label. The reader has then any state.
#[tactic(auto, using(crate::proofs::NameLemmas::plain_label), unfolding(crate::specs::Names::label_at))]
pub fn take_label<'a>(reader: &mut Reader<'a>) -> Result<&'a str, BadField>
    ensures ok { IfOk result (λ label. label_at reader.old ≡ Ok (label.now, reader.new)) }
    ensures err { IfErr result (λ fault. label_at reader.old ≡ Err fault) }
    ensures plain { IfOk result (λ label. IsTrue (is_factor_label label.now)) }
{
    let place = reader.place();
    let Ok(field) = reader.field8() else {
        return Err(BadField(place));
    };
    let Some(label) = text_of(field) else {
        return Err(BadField(place));
    };
    if !is_factor_label(label) {
        return Err(BadField(place));
    }
    Ok(label)
}
