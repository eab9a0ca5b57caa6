//! A factor's record.

ghost use Rattle.std.specs.Prelude.{◌≡◌, ◌++◌, ◌<◌, ◌≤◌, length, IfSome, IfOk, IfErr, OnOk, Ok, Some};
ghost use Rattle.factor_files.specs.Fields.{number_of};
ghost use Rattle.factor_files.specs.Record.{factor_read, factor_at, Refuses, IsFactor, HasFactorSizes, factor_bytes, leaf_bytes, most_factor};

use crate::fault::FactorFault;
use crate::fields::{VERSION, take_cost, take_edition, take_kind, take_leaf, take_version};
use account_machine::Kind;
use ct_bytes::{Blob, NoMemory, Reader, Text};
use name_map::Copied;
use pw_path::Label;
use record_fields::take_label;
use std::alloc::Global;

/// What is public of a factor.
#[derive(Debug, Drop)]
pub struct FactorRecord {
    pub kind: Kind,
    /// The factor's label.
    pub label: Text,
    /// The factor's edition, from 1.
    pub edition: u64,
    /// The cost exponent of its derivation, 1 to 16.
    pub cost: u8,
    /// The salt of its derivation.
    pub salt: [u8; 16],
    /// The tree label of a PIN's leaf, and none of a password.
    pub leaf: Option<Label>,
}

impl FactorRecord {
    /// The factor of a record (docs/FORMATS.md, "Factor record").
    ///
    /// `BadRecord` with the first place where the bytes are outside the grammar.
    #[tactic(auto, unfolding(crate::specs::Record::factor_read))]
    pub fn read(alloc: Global, bytes: &[u8]) -> Result<FactorRecord, FactorFault>
        ensures found { IfOk result (λ factor. factor_at bytes.now ≡ Some factor) }
        ensures exact { IfErr result (λ fault. Refuses fault (factor_read bytes.now)) }
        ensures kept { IfOk result IsFactor }
    {
        let mut reader = Reader::new(bytes);
        let _version = take_version(&mut reader)?;
        let kind = take_kind(&mut reader)?;
        let label = take_label(&mut reader)?;
        let edition = take_edition(&mut reader)?;
        let cost = take_cost(&mut reader)?;
        let mut salt = [0; 16];
        salt.copy_from_slice(reader.take(16)?);
        let leaf = take_leaf(&mut reader, kind)?;
        reader.finish()?;
        Ok(FactorRecord {
            kind,
            label: Text::from_str(alloc, label)?,
            edition,
            cost,
            salt,
            leaf,
        })
    }

    /// The record of the factor, at most 46 bytes.
    #[tactic(auto, using(crate::proofs::FactorAgain::factor_again, crate::proofs::FactorSize::factor_within))]
    pub fn write(&self, alloc: Global) -> Result<Blob, NoMemory>
        requires { IsFactor self.now }
        ensures value { IfOk result (λ bytes. bytes ≡ factor_bytes self.now) }

        // What is written is read again.
        ensures read { IfOk result (λ bytes. factor_at bytes ≡ Some self.now) }
        ensures size { IfOk result (λ bytes. length bytes ≤ most_factor) }
    {
        written(alloc, self)
    }
}

impl Copied for FactorRecord {
    fn copy(&self) -> Result<FactorRecord, NoMemory> {
        Ok(FactorRecord {
            kind: self.kind,
            label: self.label.copy()?,
            edition: self.edition,
            cost: self.cost,
            salt: self.salt,
            leaf: self.leaf,
        })
    }
}

// The number of a kind in a record.
fn kind_number(kind: Kind) -> u8
    ensures value { result ≡ number_of kind }
{
    match kind {
        Kind::Password => 1,
        Kind::Pin => 2,
    }
}

// The tree label of a PIN.
fn put_leaf(out: &mut Blob, leaf: &Option<Label>) -> Result<(), NoMemory>
    ensures ok { OnOk result (out.new ≡ out.old ++ leaf_bytes leaf.now) }
    ensures small { IfSome leaf.now (λ label. label < 16384) }
{
    match leaf {
        Some(label) => out.push_slice(&label.number().to_be_bytes()),
        None => Ok(()),
    }
}

// The record of a factor, and what its types say of its sizes.
#[tactic(auto, unfolding(crate::specs::Record::factor_bytes))]
fn written(alloc: Global, factor: &FactorRecord) -> Result<Blob, NoMemory>
    requires { IsFactor factor.now }
    ensures value { IfOk result (λ bytes. bytes ≡ factor_bytes factor.now) }
    ensures sizes { IfOk result (λ _. HasFactorSizes factor.now) }
{
    let label = factor.label.as_str().as_bytes();
    let mut out = Blob::from_slice(alloc, &[VERSION, kind_number(factor.kind)])?;
    out.push_slice(&[label.len() as u8])?;
    out.push_slice(label)?;
    out.push_slice(&factor.edition.to_be_bytes())?;
    out.push_slice(&[factor.cost])?;
    out.push_slice(&factor.salt)?;
    put_leaf(&mut out, &factor.leaf)?;
    Ok(out)
}
