//! Functions that are generic in what they keep or compare. A test that owns a site, a desk or a port, and that can end
//! meanwhile, is expensive to prove. So is an assertion. A call of one of these functions is cheap.

use std::alloc::AllocError;
use std::fmt::{Debug, Display};
use std::process::Abort;
use std::test::Fail;

/// Returns `value` if something was done, and otherwise the fault.
pub fn keep<T: Drop, E>(done: Result<(), E>, value: T) -> Result<T, E> {
    match done {
        Ok(()) => Ok(value),
        Err(fault) => Err(fault),
    }
}

/// Returns both values if the second one was made, and otherwise the fault.
pub fn both<A: Drop, B, E>(first: A, second: Result<B, E>) -> Result<(A, B), E> {
    match second {
        Ok(second) => Ok((first, second)),
        Err(fault) => Err(fault),
    }
}

/// Adds an item to a list.
pub fn push<T: Drop>(list: &mut Vec<T>, item: T) -> Result<(), AllocError> {
    list.push(item)?;
    Ok(())
}

/// Returns the three items of a list, or `None` if it has fewer.
pub fn three<T: Drop>(list: Vec<T>) -> Option<(T, T, T)> {
    let mut list = list;
    let third = list.pop()?;
    let second = list.pop()?;
    let first = list.pop()?;
    Some((first, second, third))
}

/// Drops what is handed back with a fault.
pub fn without_rest<T, E, B: Drop>(made: Result<T, (E, B)>) -> Result<T, E> {
    match made {
        Ok(made) => Ok(made),
        Err((fault, rest)) => {
            drop(rest);
            Err(fault)
        }
    }
}

/// Returns a list if a word of its items was known, and otherwise a fault.
pub fn known<T: Drop>(known: Result<bool, AllocError>, list: T) -> Result<T, Fail> {
    match known {
        Ok(true) => Ok(list),
        Ok(false) => Err("a step".into()),
        Err(refused) => Err(refused.into()),
    }
}

/// Checks that a value is the expected one. `case` and `number` name it in a failure.
pub fn expect_same<V: Copy + PartialEq + Debug, N: Copy + Display>(
    rt: &impl Abort,
    case: &str,
    number: N,
    value: V,
    wanted: V,
) {
    assert_eq!(rt; value, wanted, "{case}, {number}");
}
