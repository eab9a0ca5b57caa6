//! The fields of a factor record, one by one.

ghost use Rattle.std.specs.Prelude.{◌≡◌, ◌≤◌, ◌<◌, IfOk, IfErr, Ok, Err};
ghost use Rattle.factor_files.specs.Fields.{version_at, kind_at, edition_at, cost_at, leaf_at};
ghost use Rattle.factor_files.specs.Record.{LeafFits};

use crate::fault::FactorFault;
use account_machine::Kind;
use ct_bytes::Reader;
use pw_path::Label;

/// The version of a record.
pub(crate) const VERSION: u8 = 1;

/// The greatest cost of a derivation.
const MAX_COST: u8 = 16;

#[tactic(auto, unfolding(crate::specs::Fields::version_at))]
pub(crate) fn take_version(reader: &mut Reader<'_>) -> Result<u8, FactorFault>
    ensures ok { IfOk result (λ version. version_at reader.old ≡ Ok (version, reader.new)) }
    ensures err { IfErr result (λ fault. version_at reader.old ≡ Err fault) }
{
    let place = reader.place();
    let version = reader.take_u8()?;
    if version != VERSION {
        return Err(FactorFault::BadRecord(place));
    }
    Ok(version)
}

#[tactic(auto, unfolding(crate::specs::Fields::kind_at))]
pub(crate) fn take_kind(reader: &mut Reader<'_>) -> Result<Kind, FactorFault>
    ensures ok { IfOk result (λ kind. kind_at reader.old ≡ Ok (kind, reader.new)) }
    ensures err { IfErr result (λ fault. kind_at reader.old ≡ Err fault) }
{
    let place = reader.place();
    match reader.take_u8()? {
        1 => Ok(Kind::Password),
        2 => Ok(Kind::Pin),
        _ => Err(FactorFault::BadRecord(place)),
    }
}

#[tactic(auto, unfolding(crate::specs::Fields::edition_at))]
pub(crate) fn take_edition(reader: &mut Reader<'_>) -> Result<u64, FactorFault>
    ensures ok { IfOk result (λ edition. edition_at reader.old ≡ Ok (edition, reader.new)) }
    ensures err { IfErr result (λ fault. edition_at reader.old ≡ Err fault) }
    ensures from { IfOk result (λ edition. 1 ≤ edition) }
{
    let place = reader.place();
    let edition = reader.take_u64()?;
    if edition < 1 {
        return Err(FactorFault::BadRecord(place));
    }
    Ok(edition)
}

#[tactic(auto, unfolding(crate::specs::Fields::cost_at))]
pub(crate) fn take_cost(reader: &mut Reader<'_>) -> Result<u8, FactorFault>
    ensures ok { IfOk result (λ cost. cost_at reader.old ≡ Ok (cost, reader.new)) }
    ensures err { IfErr result (λ fault. cost_at reader.old ≡ Err fault) }
    ensures from { IfOk result (λ cost. 1 ≤ cost) }
    ensures most { IfOk result (λ cost. cost ≤ 16) }
{
    let place = reader.place();
    let cost = reader.take_u8()?;
    if cost < 1 || cost > MAX_COST {
        return Err(FactorFault::BadRecord(place));
    }
    Ok(cost)
}

// The tree label of a PIN.
#[tactic(auto, unfolding(crate::specs::Fields::leaf_at))]
pub(crate) fn take_leaf(reader: &mut Reader<'_>, kind: Kind) -> Result<Option<Label>, FactorFault>
    ensures ok { IfOk result (λ leaf. leaf_at kind reader.old ≡ Ok (leaf, reader.new)) }
    ensures err { IfErr result (λ fault. leaf_at kind reader.old ≡ Err fault) }
    ensures fits { IfOk result (LeafFits kind) }
{
    match kind {
        Kind::Password => Ok(None),
        Kind::Pin => {
            let place = reader.place();
            let number = reader.take_u16()?;
            match Label::new(number) {
                Some(label) => Ok(Some(label)),
                None => Err(FactorFault::BadRecord(place)),
            }
        }
    }
}
