//! The bounds of a home with factors.

ghost use Rattle.std.specs.Prelude.{◌≡◌, ◌↔◌, ◌&&◌, nat_le, not, count_by, IsTrue, IfOk, IfErr};
ghost use Rattle.std.specs.List.{list_any};
ghost use Rattle.std.specs.FinMap.{entries, len};
ghost use Rattle.account_machine.specs.Outline.{is_pin_kind, is_password_kind};
ghost use Rattle.record_names.specs.Names.{is_account_name, stash_name};
ghost use Rattle.stored_home.specs.Loaded.{HasFactors};
ghost use Rattle.stored_home.specs.declared.fault.StoreFault.{StoreFault};
ghost use Rattle.home_recovery.specs.Bounds.{BreaksBounds};
ghost use Rattle.stored_home.specs.Coherent.{KeepsBounds};
ghost use Rattle.home_recovery.specs.Home.{Row, is_rival};

use account_machine::Kind;
use ct_bytes::Text;
use factor_files::FactorRecord;
use share_api::RecordName;
use stored_home::{StoreFault, Stored};

/// The most PINs.
const MOST_PINS: usize = 8;

/// The most vault files.
const MOST_FILES: usize = 256;

// Whether one of the factors is a password.
fn has_password(rows: &[(Text, FactorRecord)]) -> bool
    ensures { result ≡ list_any (λ (row : Row). is_password_kind row.1.kind) rows.now }
{
    rows.iter().any(|row| matches!(row.1.kind, Kind::Password))
}

// How many of them are PINs.
fn pins_among(rows: &[(Text, FactorRecord)]) -> usize
    ensures { result ≡ count_by (λ (row : Row). is_pin_kind row.1.kind) rows.now }
{
    rows.iter()
        .filter(|row| matches!(row.1.kind, Kind::Pin))
        .count()
}

// Whether the records of two labels name one leaf.
fn is_rival(one: &(Text, FactorRecord), other: &(Text, FactorRecord)) -> bool
    ensures { result ≡ is_rival one.now other.now }
{
    match (one.1.leaf, other.1.leaf) {
        (Some(leaf), Some(another)) => leaf == another && one.0 != other.0,
        _ => false,
    }
}

// Whether another label's record names the row's leaf.
fn has_rival(rows: &[(Text, FactorRecord)], row: &(Text, FactorRecord)) -> bool
    ensures { result ≡ list_any (is_rival row.now) rows.now }
{
    rows.iter().any(|other| is_rival(row, other))
}

// Whether two labels' records name one leaf.
fn have_rivals(rows: &[(Text, FactorRecord)]) -> bool
    ensures { result ≡ list_any (λ (row : Row). list_any (is_rival row) rows.now) rows.now }
{
    rows.iter().any(|row| has_rival(rows, row))
}

// Whether the home keeps the bounds of one with factors.
fn keeps_bounds(stored: &Stored) -> bool
    ensures { result ≡ (list_any (λ (row : Row). is_password_kind row.1.kind) (entries stored.now.factors)
        && (nat_le (count_by (λ (row : Row). is_pin_kind row.1.kind) (entries stored.now.factors)) 8
        && (not (list_any (λ (row : Row). list_any (is_rival row) (entries stored.now.factors)) (entries stored.now.factors))
        && nat_le (len stored.now.files) 256))) }
{
    let rows = stored.factors.rows();
    has_password(rows)
        && (pins_among(rows) <= MOST_PINS
            && (!have_rivals(rows) && stored.files.len() <= MOST_FILES))
}

/// Whether the home has factors.
pub(crate) fn has_factors(stored: &Stored) -> bool
    ensures { IsTrue result ↔ HasFactors stored.now }
{
    match &stored.stash {
        Some(stash) => stash.has_payload(),
        None => false,
    }
}

/// The home, where it keeps its bounds.
pub(crate) fn checked(account: &str, stored: Stored) -> Result<Stored, StoreFault>
    requires { IsTrue (is_account_name account.now) }
    ensures kept { IfOk result (λ kept. (kept ≡ stored) × (HasFactors stored → KeepsBounds stored)) }
    ensures broken { IfErr result (λ fault. (fault ≡ StoreFault.Damaged (stash_name account.now))
        × HasFactors stored × BreaksBounds stored) }
{
    if !has_factors(&stored) {
        return Ok(stored);
    }
    if keeps_bounds(&stored) {
        Ok(stored)
    } else {
        Err(StoreFault::Damaged(RecordName::stash(account)))
    }
}
