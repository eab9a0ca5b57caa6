//! Where a field breaks its rule.

/// A field is cut short or breaks its rule: so many bytes stand before it.
#[derive(Clone, Copy, Debug, PartialEq, Eq)]
pub struct BadField(pub usize);
