//! Names whose records may be there or not.

use record_names::RecordName;

/// Which names are unsure: a put or a removal of such a record failed, and it wasn't looked at since.
#[derive(Clone, Copy, Debug)]
pub enum Unsure {
    /// None is.
    Nothing,
    /// This one is.
    Name(RecordName),
    /// More than one was, and any may be.
    Anything,
}

impl Unsure {
    ghost use Rattle.std.specs.Prelude.{◌≡◌};
    ghost use Rattle.platform_core.specs.Unsure.{is_unsure, unsure_with, unsure_without};

    /// Whether the name is unsure.
    pub fn has(&self, name: &RecordName) -> bool
        ensures { result ≡ is_unsure self.now name.now }
    {
        match self {
            Unsure::Nothing => false,
            Unsure::Name(held) => held == name,
            Unsure::Anything => true,
        }
    }

    /// After a put or a removal that failed.
    pub fn with(self, name: &RecordName) -> Unsure
        ensures { result ≡ unsure_with self name.now }
    {
        match self {
            Unsure::Nothing => Unsure::Name(*name),
            Unsure::Name(held) => {
                if held == *name {
                    Unsure::Name(held)
                } else {
                    Unsure::Anything
                }
            }
            Unsure::Anything => Unsure::Anything,
        }
    }

    /// After a put, a removal or a read that didn't fail.
    pub fn without(self, name: &RecordName) -> Unsure
        ensures { result ≡ unsure_without self name.now }
    {
        match self {
            Unsure::Nothing => Unsure::Nothing,
            Unsure::Name(held) => {
                if held == *name {
                    Unsure::Nothing
                } else {
                    Unsure::Name(held)
                }
            }
            Unsure::Anything => Unsure::Anything,
        }
    }
}
