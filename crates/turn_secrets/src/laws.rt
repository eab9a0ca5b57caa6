//! Laws of passwords. Each function has an empty body: its contract is the law.

ghost use Rattle.turn_secrets.specs.Opening.{OnlyPasswordLaw, RightPasswordLaw};

/// Where no two recorded inputs coincide, a password's block has the tag of a secret's wrap key exactly where the
/// secret is the factor's: a tag that differs means that the secret is wrong, and one that fits that it is right.
pub fn only_the_password_opens()
    ensures { OnlyPasswordLaw }
{}

/// A password's block opens under its factor's secret to the main key, whatever coincides.
pub fn password_opens_to_the_main_key()
    ensures { RightPasswordLaw }
{}
