//! Lists of which the tests make what is outside.

use std::alloc::{AllocError, Global};

/// A list of these bytes.
pub fn bytes_of(alloc: Global, bytes: &[u8]) -> Result<Vec<u8>, AllocError> {
    Vec::from_slice(alloc, bytes)
}

/// A list of these moments, or numbers of calls.
pub fn numbers(alloc: Global, numbers: &[u64]) -> Result<Vec<u64>, AllocError> {
    Vec::from_slice(alloc, numbers)
}
