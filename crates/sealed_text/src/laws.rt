//! Laws of sealed texts. Each function has an empty body: its contract is the law.

ghost use Rattle.std.specs.Prelude.{◌≡◌, List, ℕ, Some};
ghost use Rattle.sealed_text.specs.declared.sealed.Sealed.{Sealed};
ghost use Rattle.sealed_text.specs.Sealing.{sealed_under};
ghost use Rattle.sealed_text.specs.OpeningSealed.{opened, Opens};

/// What was sealed under a key with associated data opens under both, and gives the text.
pub fn sealed_text_opens()
    ensures { (key iv extra plain : List ℕ)
        → Opens key extra (sealed_under key iv extra plain) plain }
{}

/// A sealed text opens to one text alone, and it is the one that opening gives.
pub fn text_opens_to_one()
    ensures opened { (key extra plain : List ℕ) (sealed : Sealed)
        → Opens key extra sealed plain → opened key extra sealed ≡ Some plain }
    ensures opens { (key extra plain : List ℕ) (sealed : Sealed)
        → opened key extra sealed ≡ Some plain → Opens key extra sealed plain }
{}
