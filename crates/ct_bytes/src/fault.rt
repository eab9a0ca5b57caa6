//! Why bytes couldn't be read or written.

ghost use Rattle.std.specs.Prelude.{◌≡◌};
ghost use Rattle.ct_bytes.specs.Fault.{place_of};

/// Why bytes couldn't be read or written. A place is a number of bytes.
#[derive(Clone, Copy, Debug, PartialEq, Eq)]
pub enum ByteFault {
    /// Fewer bytes are left than the piece has: so many stood before the missing piece.
    Short(usize),
    /// Bytes are left at the end: so many stood before the first of them.
    Trailing(usize),
    /// The room is too small, or a field has over 255 bytes.
    TooLong,
}

impl ByteFault {
    /// The place of a reader's fault. `TooLong` has none, and no reader answers it: 0 stands for it.
    pub fn place(self) -> usize
        ensures value { result ≡ place_of self }
    {
        match self {
            ByteFault::Short(place) | ByteFault::Trailing(place) => place,
            ByteFault::TooLong => 0,
        }
    }
}
