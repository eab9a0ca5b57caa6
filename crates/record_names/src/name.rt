//! The name of one record.

use crate::name_bytes::NameBytes;
use crate::reading::{read_label, read_parts};
use crate::spelling::{spell_factor, spell_file, spell_leaf, spell_stash};
use pw_path::Label;
use std::cmp::Ordering;
use std::marker::Model;

/// The name of a record of an account, seen as its bytes.
///
/// | Record | Name |
/// |---|---|
/// | stash | `ACCOUNT.stash` |
/// | factor | `ACCOUNT.fac.LABEL.EDITION`, the edition in decimal without leading zeros |
/// | leaf | `ACCOUNT.leaf.DDDDD`, the label, below 16,384, in five decimal digits |
/// | vault file | `ACCOUNT.file.HEX`, the file's name of 1 to 64 bytes in lower-case hex |
///
/// An account is 1 to 32 of `a` to `z` and `0` to `9`, and a factor's label is 1 to 16 of these. A name
/// has at most 166 bytes and takes no heap memory.
#[derive(Clone, Copy, Debug)]
pub struct RecordName {
    pub(crate) bytes: NameBytes,
}

impl Model for RecordName {
    ghost use Rattle.std.specs.Prelude.{List, ℕ};

    ghost Value = { List ℕ };

    ghost view = { λ name. name.bytes };

    ghost use Rattle.record_names.specs.Names.{IsRecordName};

    ghost invariant = { λ name. IsRecordName name.bytes };

    ghost inverse = { λ bytes. record { bytes = bytes } };
}

impl RecordName {
    ghost use Rattle.std.specs.Prelude.{◌≡◌, ℕ, ◌≤◌, ◌<◌, List, length, IsTrue, Some, IsSome, IfSome};
    ghost use Rattle.record_names.specs.Names.{IsRecordName, is_account_name, is_factor_label, account_of};
    ghost use Rattle.record_names.specs.Names.{stash_name, factor_name, leaf_name, file_name};

    /// The name of the account's stash. `account` is in its grammar.
    pub fn stash(account: &str) -> RecordName
        requires { IsTrue (is_account_name account.now) }
        ensures value { result ≡ stash_name account.now }
    {
        spell_stash(account.as_bytes())
    }

    /// The name of a factor's record. `account` and `label` are in their grammars.
    pub fn factor(account: &str, label: &str, edition: u64) -> RecordName
        requires account { IsTrue (is_account_name account.now) }
        requires label { IsTrue (is_factor_label label.now) }
        ensures value { result ≡ factor_name account.now label.now edition }
    {
        spell_factor(account.as_bytes(), label.as_bytes(), edition)
    }

    /// The name of a leaf's record. `account` is in its grammar.
    pub fn leaf(account: &str, label: Label) -> RecordName
        requires { IsTrue (is_account_name account.now) }
        ensures value { result ≡ leaf_name account.now label }
    {
        spell_leaf(account.as_bytes(), label)
    }

    /// The name of a vault file's record. `account` is in its grammar, and `name` has 1 to 64 bytes.
    pub fn file(account: &str, name: &str) -> RecordName
        requires account { IsTrue (is_account_name account.now) }
        requires least { 1 ≤ length name.now }
        requires most { length name.now ≤ 64 }
        ensures value { result ≡ file_name account.now name.now }
    {
        spell_file(account.as_bytes(), name.as_bytes())
    }

    /// The name that this text is, and `None` exactly where it isn't the name of a record.
    pub fn read(text: &str) -> Option<RecordName>
        ensures value { IfSome result (λ name. name ≡ text.now) }
        ensures found { IsRecordName text.now → result ≡ Some text.now }
        ensures only { IsSome result → IsRecordName text.now }
    {
        let name = read_parts(text)?;
        if name.as_str() == text {
            Some(name)
        } else {
            None
        }
    }

    /// The name as text.
    pub fn as_str(&self) -> &str
        ensures value { result.now ≡ self.now }
        ensures name { IsRecordName self.now }
        ensures within { length self.now ≤ 166 }
    {
        let Ok(text) = str::from_utf8(self.bytes.as_slice()) else {
            unreachable!()
        };
        text
    }

    /// The account whose record it is.
    pub fn account(&self) -> &str
        ensures value { result.now ≡ account_of self.now }
        ensures name { IsTrue (is_account_name (account_of self.now)) }
    {
        let Some((account, _)) = self.as_str().split_once('.') else {
            unreachable!()
        };
        account
    }

    /// The label whose leaf's record it is, and `None` where it is the name of another record.
    pub fn leaf_label(&self) -> Option<Label>
        ensures value { IfSome result (λ label. self.now ≡ leaf_name (account_of self.now) label) }
        ensures found { (account : List ℕ) (label : ℕ) → IsTrue (is_account_name account) → label < 16384
            → self.now ≡ leaf_name account label → result ≡ Some label }
    {
        let label = read_label(self.as_str().as_bytes())?;
        if RecordName::leaf(self.account(), label) == *self {
            Some(label)
        } else {
            None
        }
    }
}

impl PartialEq for RecordName {
    ghost use Rattle.std.specs.Str.{bytes_eq};
    ghost use Rattle.std.specs.Cmp.{partial_equiv_from_equiv};
    ghost use Rattle.std.specs.Cmp.Lexicographic.{nat_list_eq_equiv};

    ghost eq = { bytes_eq };

    ghost laws = { partial_equiv_from_equiv nat_list_eq_equiv };

    fn eq(&self, other: &RecordName) -> bool {
        self.as_str() == other.as_str()
    }
}

impl Eq for RecordName {
    ghost use Rattle.std.specs.Cmp.Lexicographic.{nat_list_eq_equiv};

    ghost laws = { nat_list_eq_equiv };
}

impl Ord for RecordName {
    ghost use Rattle.std.specs.Ordering.{nat_cmp};
    ghost use Rattle.std.specs.Cmp.Lexicographic.{slice_cmp, nat_list_cmp_total};
    ghost use Rattle.std.specs.Cmp.Rules.{comparing};
    ghost use Rattle.std.proofs.Common.{rules};

    ghost cmp = { slice_cmp nat_cmp };

    ghost total = { nat_list_cmp_total };

    ghost matches_partial_cmp = { Prim.search (comparing, rules) };

    ghost matches_eq = { Prim.search (comparing, rules) };

    fn cmp(&self, other: &RecordName) -> Ordering {
        self.as_str().cmp(other.as_str())
    }
}

impl PartialOrd for RecordName {
    ghost use Rattle.std.specs.Ordering.{nat_cmp, as_partial_cmp};
    ghost use Rattle.std.specs.Cmp.{partial_order_from_own_ties};
    ghost use Rattle.std.specs.Cmp.Lexicographic.{slice_cmp};
    ghost use Rattle.std.specs.Cmp.Rules.{comparing};
    ghost use Rattle.std.proofs.Common.{rules};

    ghost partial_cmp = { as_partial_cmp (slice_cmp nat_cmp) };

    ghost laws = { partial_order_from_own_ties (Prim.search (comparing, rules)) (Prim.search (comparing, rules)) };

    fn partial_cmp(&self, other: &RecordName) -> Option<Ordering> {
        Some(self.cmp(other))
    }
}
