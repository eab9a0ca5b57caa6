//! The vault is closed, and its files' names are listed.

ghost use Rattle.std.specs.Prelude.{◌≡◌, ◌⊎◌, ℕ, List, map, IfOk};
ghost use Rattle.std.specs.FinMap.{keys};
ghost use Rattle.account_machine.specs.declared.answer.Answer.TheVariants as answers;
ghost use Rattle.account_machine.specs.declared.request.Request.TheVariants.{Unmount, ListFiles};
ghost use Rattle.account_machine.specs.declared.request.Turn.TheVariants.{Act};
ghost use Rattle.share_api.specs.Seen.{ShareSeen};
ghost use Rattle.user_state.specs.Sound.{IsSound};
ghost use Rattle.user_state.specs.Turns.{IsGiven};
ghost use Rattle.stored_home.specs.declared.stored.Kept.{Kept as KeptSeen};
ghost use Rattle.turn_rows.specs.Due.{IsReady, IsDue};

use account_machine::{Answer, FileNames};
use ct_bytes::{NoMemory, Text};
use std::alloc::Global;
use stored_home::Kept;
use user_state::UserState;

/// Closes the vault: its key is forgotten.
pub fn unmount(state: &mut UserState) -> Answer
    requires ready { IsReady state.old }
    requires due { IsDue state.old (Act (Unmount state.old.account)) }
    ensures given { (share : ShareSeen) (account : List ℕ)
        → IsGiven share share state.old state.new (Act (Unmount account)) result }
    ensures answer { result ≡ answers.Ok }
    ensures sound { IsSound state.old → IsSound state.new }
    ensures last { state.new.last ≡ state.old.last }
    ensures doubt { state.new.doubt ≡ state.old.doubt }
    ensures draws { state.new.generator ≡ state.old.generator }
{
    state.vault = None;
    Answer::Ok
}

// The names of the files, in order of bytes.
fn names_of(alloc: Global, rows: &[(Text, Kept)]) -> Result<FileNames, NoMemory>
    ensures value { IfOk result (λ names. names ≡ map (λ (row : List ℕ × KeptSeen). row.0) rows.now) }
{
    let mut names = FileNames::new(alloc);
    for row in rows {
        names.push(row.0.copy()?)?;
    }
    Ok(names)
}

/// Lists the names of the vault's files, in order of bytes. Want of memory is the only other answer.
pub fn list_files(alloc: Global, state: &UserState) -> Answer
    requires ready { IsReady state.now }
    requires due { IsDue state.now (Act (ListFiles state.now.account)) }
    ensures given { (share : ShareSeen) (account : List ℕ)
        → IsGiven share share state.now state.now (Act (ListFiles account)) result }
    ensures answer { (result ≡ answers.OkFiles (keys state.now.stored.files)) ⊎ (result ≡ answers.NoMemory) }
{
    match names_of(alloc, state.stored.files.rows()) {
        Ok(names) => Answer::OkFiles(names),
        Err(NoMemory) => Answer::NoMemory,
    }
}
