//! The accounts that are named.

ghost use Rattle.std.specs.Prelude.{◌≡◌, [], ◌∷◌, ◌++◌, map, string_bytes, IfOk, OnOk, if◌then◌else◌};
ghost use Rattle.std.specs.List.{list_all};
ghost use Rattle.home_names.specs.Names.{is_account_name};
ghost use Rattle.serve_words.specs.Words.{each_once, is_among};

use ct_bytes::{NoMemory, Text};
use home_names::is_account_name;
use std::alloc::Global;

// Whether each of these is an account name.
fn each_is_account_name(names: &[String]) -> bool
    ensures { result ≡ list_all (λ name. is_account_name (string_bytes name)) names.now }
{
    names.iter().all(|name| is_account_name(name.as_str()))
}

/// Whether these are account names.
pub fn are_account_names(names: &[String]) -> bool
    ensures value { result ≡ list_all is_account_name (map string_bytes names.now) }
{
    each_is_account_name(names)
}

// Whether the account is there.
fn is_among(accounts: &[Text], account: &str) -> bool
    ensures { result ≡ is_among accounts.now account.now }
{
    accounts.iter().any(|held| held.as_str() == account)
}

// Adds a name that isn't there yet.
fn add_name(alloc: Global, accounts: &mut Vec<Text>, name: &str) -> Result<(), NoMemory>
    ensures { OnOk result (accounts.new.items ≡
        (if is_among accounts.old.items name.now then accounts.old.items else accounts.old.items ++ name.now ∷ [])) }
{
    if is_among(accounts, name) {
        return Ok(());
    }
    accounts.push(Text::from_str(alloc, name)?)?;
    Ok(())
}

/// Each name once, in the order given.
pub fn each_once(alloc: Global, names: &[String]) -> Result<Vec<Text>, NoMemory>
    ensures value { IfOk result (λ accounts. accounts.items ≡ each_once (map string_bytes names.now)) }
{
    let mut accounts = Vec::new(alloc);
    for name in names {
        add_name(alloc, &mut accounts, name.as_str())?;
    }
    Ok(accounts)
}
