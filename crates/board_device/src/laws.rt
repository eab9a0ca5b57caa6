//! Laws of devices. A function has an empty body: its contract is the law.

ghost use Rattle.std.specs.Prelude.{◌≤◌, ℕ, List, IsTrue, take, length};
ghost use Rattle.std.specs.List.{list_all};
ghost use Rattle.cabinet.specs.Opening.{Opened};
ghost use Rattle.home_names.specs.Names.{is_account_name};
ghost use Rattle.image_path.specs.Showing.{ByAccount};
ghost use Rattle.platform_core.specs.Held.{accounts_of, names_of, most_of};
ghost use Rattle.platform_core.specs.Held as held;
ghost use Rattle.platform_core.specs.declared.platform.Platform.{Platform};
ghost use Rattle.share_api.specs.Contents.{Bytes, Contents};
ghost use Rattle.share_api.specs.declared.step.Step.{Step};
ghost use Rattle.board_device.specs.Standing.{StandsTo, IsOpened, AreLed, contents_of, images_now, images_since};
ghost use Rattle.board_device.specs.declared.device.BoardDevice.{BoardDevice};

use board_model::Board;

/// The accounts of an opened platform are in their grammar, where those that were named are.
pub fn found_accounts_have_names<B: Board>()
    ensures { (board : B) (named : List Bytes) (platform : Platform B)
        → Opened (B.disk board) (B.disk (held.board_of platform)) named (most_of platform) (names_of platform)
        (accounts_of platform)
        → IsTrue (list_all is_account_name named)
        → IsTrue (list_all is_account_name (accounts_of platform)) }
{}

/// Each image since the opening has of all accounts what their steps among the first so many lead to. What is there is
/// what all of them lead to, and so is what each image has that a crash may leave now.
pub fn images_are_led_by_the_first_steps<B: Board>()
    ensures image { (first now : BoardDevice B) (chain : List Step) (parts : ByAccount Contents)
        → StandsTo B.disk first now chain
        → IsOpened B.disk first
        → images_since B.disk first now parts
        → (n : ℕ) × (n ≤ length chain) × AreLed B.disk first now (take n chain) parts }
    ensures now { (first now : BoardDevice B) (chain : List Step)
        → StandsTo B.disk first now chain
        → IsOpened B.disk first
        → AreLed B.disk first now chain (contents_of B.disk now) }
    ensures last { (first now : BoardDevice B) (chain : List Step) (parts : ByAccount Contents)
        → StandsTo B.disk first now chain
        → IsOpened B.disk first
        → images_now B.disk now parts
        → AreLed B.disk first now chain parts }
{}
