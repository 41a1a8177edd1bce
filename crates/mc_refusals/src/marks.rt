//! Marks around the one call of a case: two allocations of sizes that nothing else asks for.
use std::alloc::{AllocError, Global};

// The size of the mark before a call, in bytes, and of the one after it.
const BEFORE: usize = 777_777;

const AFTER: usize = 777_778;

/// Marks a call, if they are on.
#[derive(Clone, Copy)]
pub(crate) struct Marks {
    pub(crate) alloc: Global,
    pub(crate) on: bool,
}

// The memory of a mark. It is returned, so that no compiler leaves it out.
#[inline(never)]
fn mark(alloc: Global, bytes: usize) -> Result<Vec<u8>, AllocError> {
    Vec::with_capacity(alloc, bytes)
}

impl Marks {
    /// Stands before the call.
    pub(crate) fn begin(&self) {
        if self.on {
            let _ = mark(self.alloc, BEFORE);
        }
    }

    /// Stands after the call.
    pub(crate) fn end(&self) {
        if self.on {
            let _ = mark(self.alloc, AFTER);
        }
    }
}
