//! The accounts of a cabinet.

ghost use Rattle.std.specs.Prelude.{◌≡◌, map, OnOk};
ghost use Rattle.record_names.specs.Names.{account_of};
ghost use Rattle.cabinet.specs.Names.{is_held, with_name, with_names};

use ct_bytes::{NoMemory, Text};
use record_names::RecordName;
use std::alloc::Global;

// Whether the account is there.
fn is_there(accounts: &[Text], account: &str) -> bool
    ensures { result ≡ is_held accounts.now account.now }
{
    accounts.iter().any(|held| held.as_str() == account)
}

// Adds an account that isn't there yet.
fn add_account(alloc: Global, accounts: &mut Vec<Text>, account: &str) -> Result<(), NoMemory>
    ensures { OnOk result (accounts.new.items ≡ with_name accounts.old.items account.now) }
{
    if is_there(accounts, account) {
        return Ok(());
    }
    accounts.push(Text::from_str(alloc, account)?)?;
    Ok(())
}

/// Adds the accounts that are named, each once, in the order given.
pub fn add_named(alloc: Global, accounts: &mut Vec<Text>, named: &[Text]) -> Result<(), NoMemory>
    ensures { OnOk result (accounts.new.items ≡ with_names accounts.old.items named.now) }
{
    for account in named {
        add_account(alloc, accounts, account.as_str())?;
    }
    Ok(())
}

/// Adds the accounts of records, each once, in the order of the names.
pub fn add_found(
    alloc: Global,
    accounts: &mut Vec<Text>,
    names: &[RecordName],
) -> Result<(), NoMemory>
    ensures { OnOk result (accounts.new.items ≡ with_names accounts.old.items (map account_of names.now)) }
{
    for name in names {
        add_account(alloc, accounts, name.account())?;
    }
    Ok(())
}
