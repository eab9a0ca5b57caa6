//! The laws of images and platforms. Each function has an empty body: its contract is the law.

ghost use Rattle.std.specs.Prelude.{◌≡◌, ◌≤◌, ◌<◌, ◌^◌, ℕ, List, length, Some, None, Ok};
ghost use Rattle.std.specs.FinMap.{get};
ghost use Rattle.board_model.specs.Disk.{Image};
ghost use Rattle.staged_file.specs.Staged.{Kept, Replaced, KeptOr};
ghost use Rattle.leaf_writes.specs.Writes.{StoredAlone, StoredWith, NoneOneOrBoth};
ghost use Rattle.record_names.specs.Names.{leaf_name};
ghost use Rattle.share_api.specs.Contents.{Bytes, Contents};
ghost use Rattle.image_path.specs.Showing.{ByAccount};
ghost use Rattle.platform_core.specs.Records as records;
ghost use Rattle.platform_core.specs.Records.{IsRecordOf, account_at};
ghost use Rattle.pw_path.specs.Tree.{no_hash};
ghost use Rattle.pw_chip.specs.State.{ChipState, booted};
ghost use Rattle.pw_chip.specs.WordsBytes.{IsWords, words_at, words_bytes};
ghost use Rattle.pin_recovery.specs.Devices.{AreInStep, tree_of};
ghost use Rattle.pin_recovery.specs.LeafCalls.{LeafOp, label_of};
ghost use Rattle.pin_recovery.specs.Recovery.{resync_of, booted_devices, recovered};
ghost use Rattle.platform_model.specs.Views.{Platform};
ghost use Rattle.platform_model.specs.Steps.{Op, Puts, Removes, Asks, done_by, IsAllowedOp};
ghost use Rattle.platform_model.specs.Crashes.{halfway, IsImageOf};
ghost use Rattle.platform_images.specs.Shown.{AreAccounts, Shows, IsStorable, ShowsImageOf, AwaitsCall};
ghost use Rattle.platform_images.specs.Shown.{AreAlike, words_after, record_after, without_leaves};
ghost use Rattle.platform_images.specs.Openings.{CarriesOut, OpensPartly, ShowsOpening, IsLeafOf, with_devices};

/// Where an image shows a platform in step, each image that the two writes of a leaf call of an account may leave of
/// it shows the platform before the call, between its writes, or after it.
pub fn two_writes_show_the_step()
    ensures any_moment { (accounts : List Bytes) (old new : Image) (s : Platform) (number : ℕ) (op : LeafOp) (now : ℕ)
        → AwaitsCall accounts old s number op now
        → NoneOneOrBoth (words_after s op now) (leaf_name (account_at accounts number) (label_of op))
        (record_after s op now) old new
        → ShowsImageOf accounts new s number (Asks op) now }
    // With the words stored alone the image shows the platform between the two writes.
    ensures between { (accounts : List Bytes) (old new : Image) (s : Platform) (number : ℕ) (op : LeafOp) (now : ℕ)
        → AwaitsCall accounts old s number op now
        → StoredAlone (words_after s op now) old new
        → Shows accounts new (halfway s number op now) }
    // With both writes done it shows the platform after the call.
    ensures done { (accounts : List Bytes) (old new : Image) (s : Platform) (number : ℕ) (op : LeafOp) (now : ℕ)
        → AwaitsCall accounts old s number op now
        → StoredWith (words_after s op now) (leaf_name (account_at accounts number) (label_of op))
        (record_after s op now) old new
        → Shows accounts new (done_by s number (Asks op) now) }
{}

/// Where an image shows a platform, each image that a put of an account's record may leave of it shows the platform
/// before the put or after it.
pub fn a_put_shows_the_step()
    ensures any_moment { (accounts : List Bytes) (old new : Image) (s : Platform) (number : ℕ) (name bytes : Bytes)
        (now : ℕ)
        → AreAccounts accounts
        → Shows accounts old s
        → IsRecordOf (account_at accounts number) name
        → length bytes ≤ 49182
        → KeptOr (Replaced name (Some bytes)) old new
        → ShowsImageOf accounts new s number (Puts name bytes) now }
    // Once it is done the image shows the platform after it.
    ensures done { (accounts : List Bytes) (old new : Image) (s : Platform) (number : ℕ) (name bytes : Bytes)
        (now : ℕ)
        → AreAccounts accounts
        → Shows accounts old s
        → IsRecordOf (account_at accounts number) name
        → length bytes ≤ 49182
        → Replaced name (Some bytes) old new
        → Shows accounts new (done_by s number (Puts name bytes) now) }
{}

/// Where an image shows a platform, each image that a removal of an account's record may leave of it shows the
/// platform before the removal or after it.
pub fn a_removal_shows_the_step()
    ensures any_moment { (accounts : List Bytes) (old new : Image) (s : Platform) (number : ℕ) (name : Bytes)
        (now : ℕ)
        → AreAccounts accounts
        → Shows accounts old s
        → IsRecordOf (account_at accounts number) name
        → KeptOr (Replaced name None) old new
        → ShowsImageOf accounts new s number (Removes name) now }
    // Once it is done the image shows the platform after it.
    ensures done { (accounts : List Bytes) (old new : Image) (s : Platform) (number : ℕ) (name : Bytes) (now : ℕ)
        → AreAccounts accounts
        → Shows accounts old s
        → IsRecordOf (account_at accounts number) name
        → Replaced name None old new
        → Shows accounts new (done_by s number (Removes name) now) }
{}

/// Images that are alike but for temporary files show the same platforms, as after a look or a sync.
pub fn alike_images_show_the_same()
    ensures { (accounts : List Bytes) (old new : Image) (s : Platform)
        → AreAccounts accounts
        → Kept old new
        → Shows accounts old s
        → Shows accounts new s }
{}

/// What a crash may leave of a storable platform in an allowed step of an account is storable.
pub fn each_image_of_a_step_is_storable()
    ensures { (accounts : List Bytes) (s q : Platform) (number : ℕ) (op : Op) (now : ℕ)
        → IsStorable accounts s
        → AreInStep s.devices
        → number < length accounts
        → IsAllowedOp s number op now
        → IsImageOf s number op now q
        → IsStorable accounts q }
{}

/// An image shows no two storable platforms that differ in a device, or in what an account has.
pub fn an_image_shows_one_platform()
    ensures { (accounts : List Bytes) (image : Image) (one other : Platform)
        → IsStorable accounts one
        → IsStorable accounts other
        → Shows accounts image one
        → Shows accounts image other
        → AreAlike one other }
{}

/// Where an image shows a platform, one in which the words of the counted boot are stored alone shows it with that
/// boot.
pub fn a_stored_boot_shows_opening()
    ensures shown { (accounts : List Bytes) (old new : Image) (s : Platform) (moment : ℕ)
        → AreAccounts accounts
        → IsStorable accounts s
        → Shows accounts old s
        → moment < 2 ^ 40
        → StoredAlone (words_bytes (booted s.devices.words moment)) old new
        → Shows accounts new (with_devices s (booted_devices s.devices moment)) }
    ensures storable { (accounts : List Bytes) (s : Platform) (moment : ℕ)
        → IsStorable accounts s
        → moment < 2 ^ 40
        → IsStorable accounts (with_devices s (booted_devices s.devices moment)) }
{}

/// Where an image shows a platform, one in which the answer of the resync is carried out by its one write shows it
/// recovered.
pub fn a_replay_shows_recovery()
    ensures shown { (accounts : List Bytes) (old new : Image) (s : Platform) (now : ℕ)
        → AreAccounts accounts
        → IsStorable accounts s
        → Shows accounts old s
        → now < 2 ^ 40
        → CarriesOut accounts s now (resync_of s.devices) old new
        → Shows accounts new (with_devices s (recovered s.devices now)) }
    ensures storable { (accounts : List Bytes) (s : Platform) (now : ℕ)
        → IsStorable accounts s
        → now < 2 ^ 40
        → IsStorable accounts (with_devices s (recovered s.devices now)) }
{}

/// Where an image shows a platform, each image that the writes of opening may leave of it shows the platform with what
/// a crash in opening may leave of its devices.
pub fn each_image_of_opening_is_shown()
    ensures { (accounts : List Bytes) (old new : Image) (s : Platform) (moment : ℕ)
        → AreAccounts accounts
        → IsStorable accounts s
        → Shows accounts old s
        → moment < 2 ^ 40
        → OpensPartly accounts s moment old new
        → ShowsOpening accounts new s moment }
{}

/// The files under leaves' names tell the leaves of the platform that is shown, and the values of its tree.
pub fn files_tell_the_leaves()
    // A file that is there is the record of that account's leaf.
    ensures there { (accounts : List Bytes) (image : Image) (s : Platform) (number label : ℕ) (bytes : Bytes)
        → IsStorable accounts s
        → Shows accounts image s
        → number < length accounts
        → label < 16384
        → get image.files (leaf_name (account_at accounts number) label) ≡ Some bytes
        → IsLeafOf s number label bytes }
    // Where no account has one, the label isn't used.
    ensures absent { (accounts : List Bytes) (image : Image) (s : Platform) (label : ℕ)
        → IsStorable accounts s
        → Shows accounts image s
        → ((number : ℕ) → number < length accounts → label < 16384
        → get image.files (leaf_name (account_at accounts number) label) ≡ None)
        → (s.devices.leaves label ≡ None) × (tree_of s.devices label ≡ no_hash) }
{}

/// An image without a leaf's record shows the platform that has its words, no leaf, and the records that
/// `platform_core` says it shows.
pub fn an_image_without_leaves_shows_its_records()
    ensures shown { (accounts : List Bytes) (image : Image) (w : ChipState) (parts : ByAccount Contents)
        → words_at image.words ≡ Ok (Some w)
        → records.Shows accounts image parts
        → ((number label : ℕ) → number < length accounts → label < 16384
        → get image.files (leaf_name (account_at accounts number) label) ≡ None)
        → Shows accounts image (without_leaves w parts) }
    ensures storable { (accounts : List Bytes) (w : ChipState) (parts : ByAccount Contents)
        → IsWords w
        → IsStorable accounts (without_leaves w parts) }
{}
