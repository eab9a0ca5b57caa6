//! Laws of images after device steps. Each function has an empty body: its contract is the law.

ghost use Rattle.std.specs.Prelude.{◌≡◌, ◌≤◌, ◌<◌, ◌^◌, ℕ, List, [], ◌∷◌, ◌++◌, length};
ghost use Rattle.board_model.specs.Disk.{Image, Leaves};
ghost use Rattle.home_image.specs.Chain.{steps_of};
ghost use Rattle.home_image.specs.Settled.{BookStands, Opens, IsAtPlace, owned};
ghost use Rattle.image_path.specs.Showing.{ByAccount, AreSame, Shown, StepGoes};
ghost use Rattle.image_path.specs.Paths.{Stands, StandsSince, AreBooksClean};
ghost use Rattle.image_path.specs.Doubt.{StepGoesFrom, StandsFrom};

use crate::shown::ImageParts;
use board_model::Board;

/// At the start each image shows the first contents.
pub fn first_images_show_the_first_contents<P: ImageParts, B: Board>()
    ensures now { (board : B) (first : ByAccount P.Contents)
        → ((image : Image) → (B.disk board).may_leave image → P.shows image first)
        → Stands P.meaning.account P.meaning.does P.shows (B.disk board).ticks first (B.disk board) [] }
    ensures since { (board : B) (since : ℕ) (first : ByAccount P.Contents) (chain : List P.Step)
        → Stands P.meaning.account P.meaning.does P.shows since first (B.disk board) chain
        → StandsSince P.meaning.account P.meaning.does P.shows since first (B.disk board).ticks (length chain)
        (B.disk board) chain }
{}

/// A step more: each image now shows what all steps lead to, and each since a tick what the first `n` lead
/// to, where `n` is no less than the steps that had ended by the tick.
pub fn images_go_on_by_a_step<P: ImageParts, B: Board>()
    ensures now { (since : ℕ) (first : ByAccount P.Contents) (old new : B) (chain : List P.Step) (step : P.Step)
        → StepGoes P.meaning.account P.meaning.does P.shows (B.disk old) (B.disk new) step
        → Stands P.meaning.account P.meaning.does P.shows since first (B.disk old) chain
        → Stands P.meaning.account P.meaning.does P.shows since first (B.disk new) (chain ++ step ∷ []) }
    ensures since { (since tick ended : ℕ) (first : ByAccount P.Contents) (old new : B) (chain : List P.Step)
        (step : P.Step)
        → StepGoes P.meaning.account P.meaning.does P.shows (B.disk old) (B.disk new) step
        → Stands P.meaning.account P.meaning.does P.shows since first (B.disk old) chain
        → StandsSince P.meaning.account P.meaning.does P.shows since first tick ended (B.disk old) chain
        → since ≤ tick
        → ended ≤ length chain
        → StandsSince P.meaning.account P.meaning.does P.shows since first tick ended (B.disk new)
        (chain ++ step ∷ []) }
{}

/// A step that settling may undo where it failed: of each image two families of contents are led by the
/// steps, those that it shows and those to which settling may go back.
pub fn images_go_on_by_a_step_that_may_be_undone<P: ImageParts, B: Board>()
    ensures now { (since : ℕ) (first : ByAccount P.Contents) (old new : B) (chain : List P.Step) (step : P.Step)
        (before after : P.Doubt)
        → StepGoesFrom P.meaning.account P.meaning.does P.shows (P.goes_back before) (P.goes_back after)
        (B.disk old) (B.disk new) step
        → StandsFrom P.meaning.account P.meaning.does P.shows since first (P.goes_back before) (B.disk old) chain
        → StandsFrom P.meaning.account P.meaning.does P.shows since first (P.goes_back after) (B.disk new)
        (chain ++ step ∷ []) }
    ensures since { (since tick ended : ℕ) (first : ByAccount P.Contents) (old new : B) (chain : List P.Step)
        (step : P.Step) (before after : P.Doubt)
        → StepGoesFrom P.meaning.account P.meaning.does P.shows (P.goes_back before) (P.goes_back after)
        (B.disk old) (B.disk new) step
        → StandsFrom P.meaning.account P.meaning.does P.shows since first (P.goes_back before) (B.disk old) chain
        → StandsSince P.meaning.account P.meaning.does P.shows since first tick ended (B.disk old) chain
        → since ≤ tick
        → ended ≤ length chain
        → StandsSince P.meaning.account P.meaning.does P.shows since first tick ended (B.disk new)
        (chain ++ step ∷ []) }
{}

/// Work that is no step and shows nothing anew, as the syncs of settling and of opening, leaves what stands.
pub fn images_stay_where_nothing_is_shown_anew<P: ImageParts, B: Board>()
    ensures now { (since : ℕ) (first : ByAccount P.Contents) (old new : B) (chain : List P.Step)
        → Leaves (B.disk old) (B.disk new) (Shown P.shows AreSame)
        → Stands P.meaning.account P.meaning.does P.shows since first (B.disk old) chain
        → Stands P.meaning.account P.meaning.does P.shows since first (B.disk new) chain }
    ensures since { (since tick ended : ℕ) (first : ByAccount P.Contents) (old new : B) (chain : List P.Step)
        → Leaves (B.disk old) (B.disk new) (Shown P.shows AreSame)
        → Stands P.meaning.account P.meaning.does P.shows since first (B.disk old) chain
        → StandsSince P.meaning.account P.meaning.does P.shows since first tick ended (B.disk old) chain
        → ended ≤ length chain
        → StandsSince P.meaning.account P.meaning.does P.shows since first tick ended (B.disk new) chain }
{}

/// Each image since the tick shows contents that are at one place of all books, no earlier than the steps
/// that had ended by the tick. Each account's steps in the chain are first those that open it, and then those of
/// its book.
pub fn every_image_is_at_one_place<P: ImageParts, B: Board>()
    ensures { (since tick ended accounts : ℕ) (first : ByAccount P.Contents) (board : B) (chain : List P.Step)
        (early own : ℕ → List (ℕ × P.Step)) (before after : ℕ → P.State) (user : ℕ → P.User)
        (book : ℕ → List P.Entry)
        → StandsSince P.meaning.account P.meaning.does P.shows since first tick ended (B.disk board) chain
        → ((account : ℕ) → account < accounts
        → BookStands P.meaning (before account) (after account) (own account) (book account))
        → ((account : ℕ) → account < accounts
        → owned P.meaning account chain ≡ early account ++ own account)
        → ((account : ℕ) → account < accounts
        → Opens P.meaning (before account) (steps_of (early account)) (first account) (user account))
        → AreBooksClean P.meaning P.shows since (B.disk board) accounts user book
        → length chain < 2 ^ 64
        → (image : Image) → (B.disk board).left_since tick image
        → (parts : ByAccount P.Contents) × P.shows image parts
        × (n : ℕ) × (ended ≤ n) × (n ≤ length chain)
        × IsAtPlace P.meaning n accounts user book parts }
{}
