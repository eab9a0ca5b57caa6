//! The list of names.

ghost use Rattle.std.specs.Prelude.{◌≡◌, vec_capacity};
ghost use Rattle.cabinet.specs.Names.{with_name, without_name, HasRoom};

use record_names::RecordName;

/// Puts a name into the list, unless it is there. There is room for it.
pub fn hold(names: &mut Vec<RecordName>, name: &RecordName)
    requires { HasRoom names.old.items (vec_capacity names.old) name.now }
    ensures names { names.new.items ≡ with_name names.old.items name.now }
    ensures room { vec_capacity names.new ≡ vec_capacity names.old }
{
    if !names.contains(name) {
        names.push_reserved(*name);
    }
}

/// Takes a name out of the list.
pub fn forget(names: &mut Vec<RecordName>, name: &RecordName)
    ensures names { names.new.items ≡ without_name names.old.items name.now }
    ensures room { vec_capacity names.new ≡ vec_capacity names.old }
{
    names.retain(|held| held != name);
}
