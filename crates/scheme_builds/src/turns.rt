// A scratch that gives other threads their turn.
use std::alloc::{AllocError, Allocator};
use std::thread;

/// The scratch of a worker that is not to hold up others. A build takes its scratch anew for each root: then threads that wait for the
/// worker's processor run first.
#[derive(Drop)]
pub(crate) struct InTurns<B: Allocator> {
    pub(crate) inner: B,
}

impl<B: Allocator + Clone> Clone for InTurns<B> {
    fn clone(&self) -> Result<InTurns<B>, AllocError> {
        thread::yield_now();
        Ok(InTurns {
            inner: self.inner.clone()?,
        })
    }
}

unsafe impl<B: Allocator> Allocator for InTurns<B> {
    ghost dealloc_token = { λ scratch ty ptr. B.dealloc_token scratch.inner ty ptr };

    fn allocate(&self, size: usize, align: usize) -> Result<*mut u8, AllocError> {
        self.inner.allocate(size, align)
    }

    unsafe fn deallocate(&self, ptr: *mut u8, size: usize, align: usize) {
        self.inner.deallocate(ptr, size, align);
    }
}
