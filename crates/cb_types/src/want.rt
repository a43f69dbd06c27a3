//! Running out of memory, from the field's crate into this one.

use cb_member::NoMemory;

/// Running out of memory in the field's crate, which stands on no other, as running out of memory.
/// Takes none.
pub fn no_memory(_refused: cb_gf256::NoMemory) -> NoMemory {
    NoMemory
}
