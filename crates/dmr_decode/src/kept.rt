//! A function that is generic in what it keeps. A function that owns a carrier, and can end while it does, is expensive
//! to prove; a call of this one is cheap.

use std::alloc::AllocError;

/// Adds an item to a list. On an error memory ran out, and the item is lost.
pub fn push<T: Drop>(list: &mut Vec<T>, item: T) -> Result<(), AllocError> {
    list.push(item)?;
    Ok(())
}
