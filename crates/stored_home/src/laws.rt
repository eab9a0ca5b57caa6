//! Laws of edits. Each function has an empty body: its contract is the law.

ghost use Rattle.stored_home.specs.EditLaws.{CreateLaw, AddLaw, UpdateLaw, AddPinLaw, UpdatePinLaw};
ghost use Rattle.stored_home.specs.EditLaws.{RemoveLaw, RemovePinLaw, ResealLaw, PutFileLaw};
ghost use Rattle.stored_home.specs.EditLaws.{UnnamedRecordLaw, UnnamedLeafLaw, CountLaw};

/// A home is made by the put of its stash.
pub fn home_is_made()
    ensures { CreateLaw }
{}

/// A factor without a leaf is added by the put of the stash, once its record is put.
pub fn factor_is_added()
    ensures { AddLaw }
{}

/// A factor without a leaf gets another secret by the put of the stash; its old record goes afterwards.
pub fn factor_is_updated()
    ensures { UpdateLaw }
{}

/// A PIN is added by the put of the stash, once its leaf is inserted and its record put.
pub fn pin_is_added()
    ensures { AddPinLaw }
{}

/// A PIN gets another secret by the put of the stash; its old leaf and record go afterwards.
pub fn pin_is_updated()
    ensures { UpdatePinLaw }
{}

/// A factor without a leaf is removed by the put of the stash; its record goes afterwards.
pub fn factor_is_removed()
    ensures { RemoveLaw }
{}

/// A PIN is removed by the put of the stash; its leaf and its record go afterwards.
pub fn pin_is_removed()
    ensures { RemovePinLaw }
{}

/// A block that is sealed anew changes nothing that is held.
pub fn block_is_sealed_anew()
    ensures { ResealLaw }
{}

/// A vault file is put by the put of its record.
pub fn vault_file_is_put()
    ensures { PutFileLaw }
{}

/// The removal of a record that the home doesn't name changes nothing that is held.
pub fn unnamed_record_is_removed()
    ensures { UnnamedRecordLaw }
{}

/// The removal of a leaf that no factor's record names changes nothing that is held.
pub fn unnamed_leaf_is_removed()
    ensures { UnnamedLeafLaw }
{}

/// A PIN's count and stamp are those of its leaf, before and after a try, a reset or a clearing.
pub fn pin_is_counted()
    ensures { CountLaw }
{}
