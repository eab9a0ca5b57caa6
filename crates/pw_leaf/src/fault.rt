//! Why bytes are no leaf record.

/// The first rule of a leaf record that bytes break, in this order.
#[derive(Clone, Copy, Debug, PartialEq, Eq)]
pub enum LeafFault {
    /// They are so many, and not 296.
    BadLength(usize),
    /// The version is this one, and not 1.
    BadVersion(u8),
    /// The public field at this place breaks its rule.
    BadShape(usize),
    /// The MAC isn't that of the bytes before it.
    BadMac,
}
