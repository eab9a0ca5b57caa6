//! Laws of the names.

ghost use Rattle.std.specs.Prelude.{◌≡◌};
ghost use Rattle.record_names.specs.Names.{Parts, AreParts, owner_of, name_of, account_of};

/// Two names differ where any of their parts does.
pub fn different_parts_have_different_names()
    ensures { (one other : Parts) → AreParts one → AreParts other → name_of one ≡ name_of other → one ≡ other }
{}

/// The account of a name is that of its parts.
pub fn name_tells_its_account()
    ensures { (parts : Parts) → AreParts parts → account_of (name_of parts) ≡ owner_of parts }
{}
