//! An allocator for tests, which counts the requests for memory and can refuse one of them.
#![tactic(auto)]

use std::alloc::{AllocError, Allocator};
use std::cell::Cell;

/// How many requests were made, and the number of the one that is refused.
#[derive(Drop)]
struct Requests {
    made: Cell<u64>,
    refused: u64,
}

impl Requests {
    fn refuse_next(&self) -> bool {
        self.made.set(self.made.get().wrapping_add(1));
        self.made.get() == self.refused
    }
}

/// Passes each request for memory on to another allocator, except the one that it refuses, if any.
/// Growing or shrinking a block is a request too.
#[derive(Drop)]
pub struct Refusing<B: Allocator> {
    inner: B,
    requests: Requests,
}

impl<B: Allocator> Refusing<B> {
    /// Returns an allocator that refuses the request with this number, counted from 1. If the
    /// number is 0, it refuses none.
    pub fn nth(inner: B, refused: u64) -> Refusing<B> {
        let made = Cell::new(0);
        Refusing {
            inner,
            requests: Requests { made, refused },
        }
    }

    /// Returns how many requests were made, including the refused one.
    pub fn made(&self) -> u64 {
        self.requests.made.get()
    }
}

unsafe impl<B: Allocator> Allocator for Refusing<B> {
    ghost dealloc_token = { λ heap ty ptr. B.dealloc_token heap.inner ty ptr };

    fn allocate(&self, size: usize, align: usize) -> Result<*mut u8, AllocError> {
        if self.requests.refuse_next() {
            return Err(AllocError);
        }
        self.inner.allocate(size, align)
    }

    unsafe fn deallocate(&self, ptr: *mut u8, size: usize, align: usize) {
        self.inner.deallocate(ptr, size, align);
    }
}
