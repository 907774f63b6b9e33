//! What is printed of a fault.

use std::alloc::{AllocError, Global};
use wit_packages::PackageFault;

/// The printed text of a fault; out of memory is an error of the program itself.
pub(crate) fn print_fault(alloc: Global, fault: PackageFault) -> Result<String, AllocError> {
    match fault {
        PackageFault::Memory => Err(AllocError),
        _ => format!(in alloc; "{fault:?}"),
    }
}
