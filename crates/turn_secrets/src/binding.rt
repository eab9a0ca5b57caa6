//! A right password's block is bound to account, label and edition.

ghost use Rattle.std.specs.Prelude.{◌≡◌, ◌≤◌, List, ℕ, false, IsTrue, IsOk, IsErrOf, IfSome, IfErr, OnOk, OnErr};
ghost use Rattle.std.specs.FinMap.{get};
ghost use Rattle.record_names.specs.Names.{is_account_name};
ghost use Rattle.home_edits.specs.Costs.{PutsCost};
ghost use Rattle.home_edits.specs.Edits.{IsEditFault};
ghost use Rattle.share_api.specs.Conditions.{IsOf};
ghost use Rattle.stash_format.specs.Kept.{HasRows};
ghost use Rattle.stored_home.specs.Coherent.{IsCoherent};
ghost use Rattle.stored_home.specs.Loaded.{block_in};
ghost use Rattle.turn_secrets.specs.Binding.{is_unbound, drawn_by, LoadsBound, IsBoundAt, Binds};
ghost use Rattle.turn_secrets.specs.Checked.{IsPasswordAt};

use ct_bytes::Text;
use home_edits::reseal_password;
use random_values::Generator;
use secret_stash::Stash;
use share_api::Share;
use stored_home::{StoreFault, Stored};

/// The form of a block that is bound to nothing.
const PLAIN: u8 = 1;

// Whether the label's block in the stash is bound to nothing.
fn is_plain_in(stash: &Stash, label: &Text) -> bool
    ensures value { result ≡ is_unbound (get stash.now.blocks label.now) }
    ensures rows { HasRows stash.now.next stash.now.blocks }
{
    // the blocks' editions are below the next one
    let _next = stash.next();
    for at in 0..stash.count() {
        if stash.block(at).0 == label.as_str() {
            return stash.form(at) == PLAIN;
        }
    }
    false
}

// Whether the label's block is bound to nothing.
fn is_unbound(stored: &Stored, label: &Text) -> bool
    ensures value { result ≡ is_unbound (block_in stored.now.stash label.now) }
    ensures rows { IfSome stored.now.stash (λ stash. HasRows stash.next stash.blocks) }
{
    match &stored.stash {
        Some(stash) => is_plain_in(stash, label),
        None => false,
    }
}

/// Seals the block of the label's password anew where it is bound to nothing, under the generator's next IV. The put of
/// the stash is then the one device step. The faults are those of `reseal_password`.
pub(crate) fn bind<S: Share>(
    stored: &mut Stored,
    generator: &mut Generator,
    share: &mut S,
    account: &str,
    label: &Text,
    key: &[u8; 64],
    main: &[u8; 32],
) -> Result<(), StoreFault>
    requires plain { IsTrue (is_account_name account.now) }
    requires coherent { IsCoherent account.now stored.old }
    requires password { IsPasswordAt stored.old label.now }
    requires own { IsOf (S.seen share.old).owner account.now }
    requires spare { 1 ≤ (S.seen share.old).spare }
    ensures binds { Binds (S.seen share.old) (S.seen share.new) account.now stored.old stored.new
        label.now key.now main.now (IsOk result) (IsErrOf result StoreFault.Failed) }
    ensures cost { (cost : ℕ) → PutsCost (S.seen share.old) (S.seen share.new) account.now cost }
    ensures coherent { IsCoherent account.now stored.new }
    ensures bound { OnOk result (IsBoundAt stored.new label.now) }
    ensures loaded { OnOk result (LoadsBound (is_unbound (block_in stored.old.stash label.now))
        stored.old label.now key.now main.now generator.old stored.new) }
    ensures drawn { generator.new ≡ drawn_by (is_unbound (block_in stored.old.stash label.now)) generator.old }
    ensures err { OnErr result (stored.new ≡ stored.old) }
    ensures only { IfErr result IsEditFault }
    ensures quiet { is_unbound (block_in stored.old.stash label.now) ≡ false
        → (S.seen share.new ≡ S.seen share.old) × (stored.new ≡ stored.old) × IsOk result }
    ensures same { stored.new ≡ record stored.old { stash = stored.new.stash } }
    ensures calm { IsErrOf result StoreFault.NoMemory → S.seen share.new ≡ S.seen share.old }
    ensures goes { S.goes share.old share.new }
{
    if !is_unbound(stored, label) {
        return Ok(());
    }
    let iv = generator.iv();
    reseal_password(stored, share, account, label, key, main, iv)
}
