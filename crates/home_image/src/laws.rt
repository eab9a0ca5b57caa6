//! Laws over books and device steps. Each function has an empty body: its contract is the law.

ghost use Rattle.std.specs.Prelude.{◌≡◌, ◌≢◌, ◌⊎◌, ◌↔◌, ◌≤◌, ◌<◌, ◌+◌, ◌^◌, ℕ, List, [], ◌∷◌, ◌++◌, take, length};
ghost use Rattle.std.specs.List.{AllByRecursion};
ghost use Rattle.turn_lock.specs.Lists.{entries_from};
ghost use Rattle.home_image.specs.Chain.{steps_of, place_of};
ghost use Rattle.home_image.specs.Book.{Made, AreClean};
ghost use Rattle.home_image.specs.Place.{At, HasPlace};
ghost use Rattle.home_image.specs.Settled.{BookStands, TurnStands, IsLed, IsStateOf, Opens, BookEnds, IsLeft, IsAtPlace, owned, BooksGo, AreTurnOf, OneTurn};

use crate::parts::Parts;

/// An empty book stands.
pub fn new_book_stands<P: Parts>()
    ensures { (state : P.State) → BookStands P.meaning state state [] [] }
{}

/// Where no steps open an account, its state is that of the user at once.
pub fn no_steps_open_at_once<P: Parts>()
    ensures { (state : P.State) (contents : P.Contents) (user : P.User)
        → Opens P.meaning state [] contents user ↔ IsStateOf P.meaning state contents user }
{}

/// A book stands after one turn more, whose device steps are the account's next.
pub fn turn_keeps_the_book<P: Parts>()
    ensures { (first before after : P.State) (own : List (ℕ × P.Step)) (book : List P.Entry)
        (turn : Made P.Step P.Entry)
        → BookStands P.meaning first before own book
        → TurnStands P.meaning before after turn
        → BookStands P.meaning first after (own ++ turn.own) (book ++ turn.entry ∷ []) }
{}

/// Turns and then more turns. With `steps_and_then_more` this joins what two parts of a run say.
pub fn more_turns_keep_the_book<P: Parts>()
    ensures { (first mid last : P.State) (own more_own : List (ℕ × P.Step))
        (book more_book : List P.Entry)
        → BookStands P.meaning first mid own book
        → BookStands P.meaning mid last more_own more_book
        → BookStands P.meaning first last (own ++ more_own) (book ++ more_book) }
{}

/// An account's steps in a chain and then more steps: those in the chain, and those in the rest at the
/// places that follow.
pub fn steps_and_then_more<P: Parts>()
    ensures { (account : ℕ) (chain more : List P.Step)
        → owned P.meaning account (chain ++ more)
        ≡ owned P.meaning account chain
        ++ entries_from P.meaning.account (length chain) account more }
{}

/// The last step of the chain is that of an entry, whose place is the chain's length, or it is the last of
/// those that open its account. No entry has a greater place. So where the last step is a turn's, the end of
/// the chain is the greatest place in the books.
///
/// The account's steps in the chain are first those that open it, `early`, and then those of its book.
pub fn end_is_the_greatest_place<P: Parts>()
    ensures last { (chain : List P.Step) (step : P.Step) (early own : List (ℕ × P.Step))
        (before after : P.State) (book : List P.Entry)
        → BookStands P.meaning before after own book
        → owned P.meaning (P.meaning.account step) (chain ++ step ∷ []) ≡ early ++ own
        → length (chain ++ step ∷ []) < 2 ^ 64
        → HasPlace P.meaning (length (chain ++ step ∷ [])) book
        ⊎ (place_of early ≡ length (chain ++ step ∷ [])) }
    ensures within { (account : ℕ) (chain : List P.Step) (early own : List (ℕ × P.Step))
        (before after : P.State) (book : List P.Entry)
        → BookStands P.meaning before after own book
        → owned P.meaning account chain ≡ early ++ own
        → length chain < 2 ^ 64
        → AllByRecursion (λ e. P.meaning.place e ≤ length chain) book }
{}

/// A book is legal up to a user of whom the contents now hold a durable part. Each entry that changed a
/// durable part has a place from 1 to the end of the chain.
///
/// The account's steps in the chain are first those that open it, `early`, and then those of its book.
pub fn book_is_legal_and_held<P: Parts>()
    ensures { (account : ℕ) (chain : List P.Step) (early own : List (ℕ × P.Step)) (before after : P.State)
        (first now : P.Contents) (seen : List P.Contents) (user : P.User) (book : List P.Entry)
        → BookStands P.meaning before after own book
        → owned P.meaning account chain ≡ early ++ own
        → Opens P.meaning before (steps_of early) first user
        → AreClean P.meaning seen user book
        → length chain < 2 ^ 64
        → IsLed P.meaning chain account seen first now
        → BookEnds P.meaning (length chain) after user book now }
{}

/// Contents to which an account's device steps among the first `n` lead are those at place `n` of its
/// book. Where all of them are steps that open the account, no change is done there.
///
/// The account's steps in the chain are first those that open it, `early`, and then those of its book.
pub fn contents_are_at_their_place<P: Parts>()
    ensures { (n account : ℕ) (chain : List P.Step) (early own : List (ℕ × P.Step))
        (before after : P.State) (first image : P.Contents) (seen : List P.Contents) (user : P.User)
        (book : List P.Entry)
        → BookStands P.meaning before after own book
        → owned P.meaning account chain ≡ early ++ own
        → Opens P.meaning before (steps_of early) first user
        → AreClean P.meaning seen user book
        → length chain < 2 ^ 64
        → n ≤ length chain
        → IsLed P.meaning (take n chain) account seen first image
        → At P.meaning n user book image }
{}

/// An image is at one and the same place of the books of all accounts. Each account's steps in the chain are
/// first those that open it, and then those of its book.
pub fn image_is_at_one_place<P: Parts>()
    ensures { (n accounts : ℕ) (chain : List P.Step) (early own : ℕ → List (ℕ × P.Step))
        (before after : ℕ → P.State) (first image : ℕ → P.Contents) (seen : ℕ → List P.Contents)
        (user : ℕ → P.User) (book : ℕ → List P.Entry)
        → ((account : ℕ) → account < accounts
        → BookStands P.meaning (before account) (after account) (own account) (book account))
        → ((account : ℕ) → account < accounts
        → owned P.meaning account chain ≡ early account ++ own account)
        → ((account : ℕ) → account < accounts
        → Opens P.meaning (before account) (steps_of (early account)) (first account) (user account))
        → ((account : ℕ) → account < accounts
        → AreClean P.meaning (seen account) (user account) (book account))
        → length chain < 2 ^ 64
        → IsLeft P.meaning n accounts chain seen first image
        → IsAtPlace P.meaning n accounts user book image }
{}

/// A crash within a step leaves of the step's account what its steps lead to with or without this one,
/// and of each other account what its steps before this one lead to. That is what all steps before this
/// one leave, or all up to this one.
pub fn step_in_flight_is_done_or_not<P: Parts>()
    ensures { (accounts : ℕ) (before after : List P.Step) (step : P.Step) (first image : ℕ → P.Contents)
        (seen : ℕ → List P.Contents)
        → ((account : ℕ) → account < accounts → account ≢ P.meaning.account step
        → IsLed P.meaning before account (seen account) (first account) (image account))
        → (let account = P.meaning.account step in
        IsLed P.meaning before account (seen account) (first account) (image account)
        ⊎ IsLed P.meaning (before ++ step ∷ []) account (seen account) (first account) (image account))
        → IsLeft P.meaning (length before) accounts (before ++ step ∷ after) seen first image
        ⊎ IsLeft P.meaning (length before + 1) accounts (before ++ step ∷ after) seen first image }
{}

/// A turn of one account, over a platform that made so many steps before.
pub fn books_go_by_a_turn<P: Parts>()
    ensures { (made_before account : ℕ) (steps : List P.Step) (turn : Made P.Step P.Entry)
        (before after : ℕ → P.State) (turns : ℕ → List P.Entry)
        → AreTurnOf P.meaning made_before account steps turn
        → OneTurn P.meaning account turn before after turns
        → BooksGo P.meaning made_before before after steps turns }
{}

/// Steps and turns, and then more of them.
pub fn books_go_on<P: Parts>()
    ensures { (made_before : ℕ) (steps more : List P.Step) (before mid after : ℕ → P.State)
        (turns more_turns : ℕ → List P.Entry)
        → BooksGo P.meaning made_before before mid steps turns
        → BooksGo P.meaning (made_before + length steps) mid after more more_turns
        → BooksGo P.meaning made_before before after (steps ++ more)
        (λ account. turns account ++ more_turns account) }
{}
