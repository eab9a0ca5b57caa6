//! That the table's edits, at the place of a token's session, are the machine's by the token. Each
//! function has an empty body: its contract is the law.

ghost use Rattle.std.specs.Prelude.{◌≡◌, ℕ, ◌<◌, true, List, length};
ghost use Rattle.std.specs.List.{remove};
ghost use Rattle.account_machine.specs.declared.session.Session.{Session};
ghost use Rattle.account_machine.specs.declared.session.Token.{Token};
ghost use Rattle.account_machine.specs.Sessions.{place_of, changed, ended, with_session};
ghost use Rattle.account_machine.specs.Effect.{extended_end, proved};
ghost use Rattle.auth_session.specs.Table.{sessions_in, with_kept, edit_at, extended_kept, proved_kept, first_proved_kept};
ghost use Rattle.auth_session.specs.declared.table.Kept.{Kept};

/// A session that starts is the machine's new one.
pub fn start_is_the_machines()
    ensures { (kept : List Kept) (k : Kept) → sessions_in (with_kept kept k) ≡ with_session (sessions_in kept) k.session }
{}

/// A moved end is the machine's.
pub fn extension_is_the_machines()
    ensures { (kept : List Kept) (token : Token) (seconds moment : ℕ)
        → sessions_in (edit_at (extended_kept seconds moment) (place_of token (sessions_in kept)) kept)
        ≡ changed token (λ s. record s { ends = extended_end seconds moment s }) (sessions_in kept) }
{}

/// A proof is the machine's.
pub fn proof_is_the_machines()
    ensures { (kept : List Kept) (token : Token) (main : List ℕ) (moment : ℕ)
        → sessions_in (edit_at (proved_kept main moment) (place_of token (sessions_in kept)) kept)
        ≡ changed token (proved moment) (sessions_in kept) }
{}

/// And so is that of a home's first factor.
pub fn first_proof_is_the_machines()
    ensures { (kept : List Kept) (token : Token) (main : List ℕ)
        → sessions_in (edit_at (first_proved_kept main) (place_of token (sessions_in kept)) kept)
        ≡ changed token (λ s. record s { authenticated = true }) (sessions_in kept) }
{}

/// A session that is dropped is dropped from the machine's.
pub fn end_is_the_machines()
    ensures { (kept : List Kept) (token : Token)
        → place_of token (sessions_in kept) < length kept
        → sessions_in (remove kept (place_of token (sessions_in kept))) ≡ ended token (sessions_in kept) }
{}
