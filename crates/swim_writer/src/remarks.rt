//! What a journal file is to remark of a call that it was given.

use std::sync::atomic::{AtomicBool, Ordering};

/// A remark that waits for the journal file of the life that runs: that the call which it was given last is a join that
/// the daemon made by itself. The recorder's thread alone leaves it and takes it; the file of the next life is given
/// none of an earlier one.
#[derive(Drop)]
pub struct Remarks {
    is_own_join: AtomicBool,
}

impl Remarks {
    /// None waits.
    pub fn new() -> Remarks {
        Remarks {
            is_own_join: AtomicBool::new(false),
        }
    }

    /// The call that was written last is a join that the daemon made by itself.
    pub fn add(&self) {
        self.is_own_join.store(true, Ordering::SeqCst);
    }

    /// Takes the remark: whether there was one.
    pub(crate) fn take(&self) -> bool {
        let is_own_join = self.is_own_join.load(Ordering::SeqCst);
        if is_own_join {
            self.is_own_join.store(false, Ordering::SeqCst);
        }
        is_own_join
    }
}
