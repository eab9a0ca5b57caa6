//! Laws of words. Each function has an empty body: its contract is the law.

ghost use Rattle.std.specs.Prelude.{◌≡◌, ◌<◌, ◌^◌, ℕ, List, Some, Ok, length, All};
ghost use Rattle.pw_leaf.specs.declared.keys.ChipKeys.{ChipKeys};
ghost use Rattle.pw_chip.specs.State.{ChipState, new_state, booted};
ghost use Rattle.pw_chip.specs.Calls.{CallData};
ghost use Rattle.pw_chip.specs.Step.{step};
ghost use Rattle.pw_chip.specs.Ledger.{Event};
ghost use Rattle.pw_chip.specs.Law.{IsCall, AreEvents};
ghost use Rattle.pw_chip.specs.History.{words_in_the_end};
ghost use Rattle.pw_chip.specs.WordsBytes.{IsWords, words_at, words_bytes};
ghost use Rattle.pw_chip.specs.Reach.{IsReached};

/// What words were written with is read from them.
pub fn written_words_are_read()
    ensures { (w : ChipState) → IsWords w → words_at (words_bytes w) ≡ Ok (Some w) }
{}

/// From its first boot on a chip reaches only words that are read as they were written.
pub fn reached_words_are_read()
    ensures { (keys : ChipKeys) (moment : ℕ) (events : List Event)
        → length keys.mac ≡ 32
        → length keys.enc ≡ 32
        → moment < 2 ^ 40
        → AreEvents events
        → IsWords (words_in_the_end (booted (new_state keys) moment) events) }
{}

/// Bytes that are read as words are the words that they hold, written; and these can be kept.
pub fn accepted_words_are_written()
    ensures { (bytes : List ℕ) (w : ChipState)
        → length bytes ≡ 256
        → All (λ byte. byte < 256) bytes
        → words_at bytes ≡ Ok (Some w)
        → IsWords w × (bytes ≡ words_bytes w) }
{}

/// Calls and boots lead from words that can be kept to such words: so from any words that were read.
pub fn kept_words_stay_kept()
    ensures { (from to : ChipState)
        → IsWords from
        → IsReached from to
        → IsWords to }
{}

/// How words are reached: each call and each boot leads on, and ways join.
pub fn reached_step_by_step()
    ensures start { (w : ChipState) → IsReached w w }
    ensures joined { (from middle to : ChipState)
        → IsReached from middle
        → IsReached middle to
        → IsReached from to }
    ensures boot { (w : ChipState) (moment : ℕ) → moment < 2 ^ 40 → IsReached w (booted w moment) }
    ensures call { (w : ChipState) (call : CallData) (now : ℕ)
        → now < 2 ^ 40
        → IsCall call
        → IsReached w (step w call now).1 }
{}
