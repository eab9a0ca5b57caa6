//! Laws of platforms. A function has an empty body: its contract is the law.

ghost use Rattle.std.specs.Prelude.{◌≡◌, List, [], ◌∷◌, ◌++◌, false};
ghost use Rattle.board_model.specs.Disk.{Image};
ghost use Rattle.image_path.specs.Showing.{ByAccount};
ghost use Rattle.pw_types.specs.declared.era.Era.{Era};
ghost use Rattle.share_api.specs.Contents.{Bytes, Contents};
ghost use Rattle.share_api.specs.declared.step.Step.{Step};
ghost use Rattle.platform_core.specs.Records.{Shows, ShowsSome};
ghost use Rattle.platform_core.specs.Standing.{IsRight, IsIdle, AreThere, ChainStands};
ghost use Rattle.platform_core.specs.Held.{board_of, accounts_of, memory_of, is_unsettled, contents_of};
ghost use Rattle.platform_core.specs.declared.platform.Platform.{Platform};

use board_model::Board;

/// A platform stands to itself, with no steps.
pub fn chain_begins<B: Board>()
    ensures { (era : Era) (first : Platform B)
        → ChainStands era (accounts_of first) (B.disk (board_of first)) (memory_of first) (B.disk (board_of first))
        (memory_of first) (is_unsettled first) [] }
{}

/// A step that leaves contents without leaves as they are needs no work of the platform: it stands in the chain
/// where the platform is as it was.
pub fn chain_goes_on_idly<B: Board>()
    ensures { (era : Era) (first now : Platform B) (chain : List Step) (step : Step)
        → IsIdle era step
        → ChainStands era (accounts_of now) (B.disk (board_of first)) (memory_of first) (B.disk (board_of now))
        (memory_of now) (is_unsettled now) chain
        → ChainStands era (accounts_of now) (B.disk (board_of first)) (memory_of first) (B.disk (board_of now))
        (memory_of now) (is_unsettled now) (chain ++ step ∷ []) }
{}

/// What is there shows contents of each account: those under the names that a platform holds.
pub fn what_is_there_shows_contents<B: Board>()
    ensures { (platform : Platform B)
        → IsRight (B.disk (board_of platform)) (memory_of platform) (is_unsettled platform)
        → AreThere (accounts_of platform) (B.disk (board_of platform))
        (contents_of (B.disk (board_of platform)) platform) }
{}

/// So does each image that a crash may leave, where no step has failed since the board was last settled.
pub fn images_of_a_settled_board_show_contents<B: Board>()
    ensures { (platform : Platform B) (image : Image)
        → IsRight (B.disk (board_of platform)) (memory_of platform) false
        → (B.disk (board_of platform)).may_leave image
        → Shows (accounts_of platform) image (contents_of (B.disk (board_of platform)) platform) }
{}

/// Each image since a run began shows contents of each account, whatever steps there were, failed ones among them.
pub fn images_since_a_run_began_show_contents<B: Board>()
    ensures { (era : Era) (first now : Platform B) (chain : List Step) (image : Image)
        → ChainStands era (accounts_of now) (B.disk (board_of first)) (memory_of first) (B.disk (board_of now))
        (memory_of now) (is_unsettled now) chain
        → IsRight (B.disk (board_of first)) (memory_of first) false
        → (B.disk (board_of now)).left_since (B.disk (board_of first)).ticks image
        → ShowsSome (accounts_of now) image }
{}

/// An image shows no other contents than these.
pub fn an_image_shows_one_contents()
    ensures { (accounts : List Bytes) (image : Image) (one other : ByAccount Contents)
        → Shows accounts image one → Shows accounts image other → one ≡ other }
{}
