//! The laws of the words. Each function has an empty body: its contract is the law.

ghost use Rattle.std.specs.Prelude.{◌≡◌, List, Some, Ok};
ghost use Rattle.serve_words.specs.Words.{Word, Asked, asked_by};
ghost use Rattle.serve_words.specs.Grammar.{Asks};
ghost use Rattle.serve_words.specs.Limits.{answer_to, IsBounded};

/// Words ask exactly what the grammar spells by them.
pub fn words_ask_what_they_spell()
    ensures found { (words : List Word) (what : Asked) → asked_by words ≡ Some what → Asks words what }
    ensures only { (words : List Word) (what : Asked) → Asks words what → asked_by words ≡ Some what }
{}

/// What is served is within all bounds.
pub fn what_is_asked_is_bounded()
    ensures { (words : List Word) (what : Asked) → answer_to words ≡ Ok what → IsBounded what }
{}
