//! What images show.

ghost use Rattle.std.specs.Prelude.{ℕ};
ghost use Rattle.board_model.specs.Disk.{Image};
ghost use Rattle.image_path.specs.Showing.{ByAccount};

use home_image::Parts;

/// Contents of accounts that images of a board show.
pub trait ImageParts: Parts {
    /// What settling may have to undo.
    type Doubt;

    /// The image shows these contents, by the account's number. It may show several.
    ghost shows: { Image → ByAccount Self.Contents → Type 0 };

    /// From the one contents settling may go back to the others.
    ghost goes_back: { Self.Doubt → ByAccount Self.Contents → ByAccount Self.Contents → Type 0 };
}
