//! Names are copied.

ghost use Rattle.std.specs.Prelude.{◌≡◌, IfOk};

use ct_bytes::{NoMemory, Text};
use std::alloc::Global;

/// The names, copied.
pub(crate) fn copied_names(alloc: Global, names: &[Text]) -> Result<Vec<Text>, NoMemory>
    ensures { IfOk result (λ copied. copied.items ≡ names.now) }
{
    let mut copied = Vec::with_capacity(alloc, names.len())?;
    for name in names {
        copied.push(name.copy()?)?;
    }
    Ok(copied)
}
