//! Laws of vault files. Each function has an empty body: its contract is the law.

ghost use Rattle.std.specs.Prelude.{◌≡◌, ◌≤◌, List, ℕ, length, Ok, IsTrue};
ghost use Rattle.home_names.specs.Names.{is_account_name};
ghost use Rattle.sealed_text.specs.declared.sealed.Sealed.{Sealed};
ghost use Rattle.sealed_text.specs.Sealing.{sealed_under};
ghost use Rattle.vault_crypt.specs.VaultFile.{file_bytes, file_extra, file_read, opened_file};

/// What a record was written with is read from it.
pub fn spelled_file_is_read()
    ensures { (sealed : Sealed)
        → length sealed.iv ≡ 12
        → length sealed.text ≤ 49152
        → length sealed.tag ≡ 16
        → file_read (file_bytes sealed) ≡ Ok sealed }
{}

/// Bytes that are read as a record are, each of them, the record of what they hold.
pub fn read_file_is_spelled()
    ensures { (bytes : List ℕ) (sealed : Sealed)
        → file_read bytes ≡ Ok sealed
        → bytes ≡ file_bytes sealed }
{}

/// The record of a file opens under the key, for the account and the name that it was made for.
pub fn sealed_file_opens()
    ensures { (key iv account name bytes : List ℕ)
        → length iv ≡ 12
        → length bytes ≤ 49152
        → opened_file key account name
        (file_bytes (sealed_under key iv (file_extra account name) bytes)) ≡ Ok bytes }
{}

/// The associated data of a file tells its account and its name.
pub fn data_of_one_file()
    ensures { (account other name another : List ℕ)
        → IsTrue (is_account_name account)
        → IsTrue (is_account_name other)
        → file_extra account name ≡ file_extra other another
        → (account ≡ other) × (name ≡ another) }
{}
