//! Laws of stashes. Each function has an empty body: its contract is the law.

ghost use Rattle.std.specs.Prelude.{◌≡◌, ℕ, ◌<◌, ◌^◌, List, IsTrue, Ok, Err};
ghost use Rattle.home_names.specs.Names.{is_account_name};
ghost use Rattle.home_names.specs.Names.{is_factor_label};
ghost use Rattle.stash_format.specs.declared.block.Block.{Block};
ghost use Rattle.stash_format.specs.declared.block.Form.TheVariants.{Bound};
ghost use Rattle.stash_format.specs.declared.contents.Contents.{Contents};
ghost use Rattle.stash_format.specs.Forms.{extra_by};
ghost use Rattle.secret_stash.specs.declared.fault.StashFault.TheVariants.{NoBlock};
ghost use Rattle.secret_stash.specs.Keys.{opened_block, new_block};
ghost use Rattle.secret_stash.specs.Edits.{with_block, without_block};

/// A block that was added opens under its wrap key to the main key; what other labels open to stays.
pub fn added_block_opens()
    ensures opens { (stash : Contents) (label wrap main iv : List ℕ) (edition : ℕ)
        → opened_block (with_block stash label (new_block stash.account label edition wrap main iv)) label wrap ≡ Ok main }
    ensures others { (stash : Contents) (label other wrap : List ℕ) (block : Block)
        → (other ≡ label → ⊥)
        → opened_block (with_block stash label block) other wrap ≡ opened_block stash other wrap }
{}

/// A block that was taken away is gone; what other labels open to stays.
pub fn dropped_block_is_gone()
    ensures gone { (stash : Contents) (label wrap : List ℕ)
        → opened_block (without_block stash label) label wrap ≡ Err NoBlock }
    ensures others { (stash : Contents) (label other wrap : List ℕ)
        → (other ≡ label → ⊥)
        → opened_block (without_block stash label) other wrap ≡ opened_block stash other wrap }
{}

/// The associated data of a bound block tells its account, its label and its edition.
pub fn data_of_one_block()
    ensures { (account other label another : List ℕ) (edition later : ℕ)
        → IsTrue (is_account_name account)
        → IsTrue (is_account_name other)
        → IsTrue (is_factor_label label)
        → IsTrue (is_factor_label another)
        → edition < 2 ^ 64
        → later < 2 ^ 64
        → extra_by Bound account label edition ≡ extra_by Bound other another later
        → (account ≡ other) × (label ≡ another) × (edition ≡ later) }
{}
