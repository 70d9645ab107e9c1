// A count of calls that several devices share.
use std::alloc::{AllocError, Global};
use std::sync::Arc;
use std::sync::atomic::{AtomicU64, Ordering};

// How many calls the devices that share it had, and how many they may have before each call fails.
#[derive(Drop)]
pub(crate) struct Share {
    calls: Arc<AtomicU64>,
    most: u64,
}

impl Share {
    pub(crate) fn new(alloc: Global, most: u64) -> Result<Share, AllocError> {
        let calls = Arc::new(alloc, AtomicU64::new(0))?;
        Ok(Share { calls, most })
    }

    // Returns the same count once more, or `None` if there is no room to count those that share it.
    pub(crate) fn another(&self) -> Option<Share> {
        let Ok(calls) = Arc::try_clone(&self.calls) else {
            return None;
        };
        Some(Share {
            calls,
            most: self.most,
        })
    }

    // Counts a call, and returns whether it is to fail.
    pub(crate) fn begin(&self) -> bool {
        self.calls.fetch_add(1, Ordering::SeqCst) >= self.most
    }
}
