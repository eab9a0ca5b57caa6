//! Values of which an equal one can be made where there is memory.

ghost use Rattle.std.specs.Prelude.{◌≡◌, IfOk};

use ct_bytes::{Blob, NoMemory, Text};

/// A value of which an equal one can be made.
pub trait Copied: Sized {
    /// An equal value.
    fn copy(&self) -> Result<Self, NoMemory>
        ensures value { IfOk result (λ copy. copy ≡ self.now) };
}

impl Copied for Text {
    fn copy(&self) -> Result<Text, NoMemory> {
        Text::copy(self)
    }
}

impl Copied for Blob {
    fn copy(&self) -> Result<Blob, NoMemory> {
        Blob::copy(self)
    }
}
