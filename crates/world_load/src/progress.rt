use std::sync::atomic::{AtomicBool, AtomicU64, Ordering};

/// How far the clients of a load are, which their threads share.
#[derive(Drop)]
pub struct Progress {
    batches: AtomicU64,
    ended: AtomicU64,
    failed: AtomicBool,
}

impl Progress {
    /// Nothing is done yet.
    pub fn new() -> Self {
        Progress {
            batches: AtomicU64::new(0),
            ended: AtomicU64::new(0),
            failed: AtomicBool::new(false),
        }
    }

    /// A batch was answered.
    pub fn batch_answered(&self) {
        self.batches.fetch_add(1, Ordering::SeqCst);
    }

    /// A client has ended, be it by a failure.
    pub fn client_ended(&self) {
        self.ended.fetch_add(1, Ordering::SeqCst);
    }

    /// Something failed: no client is to go on.
    pub fn fail(&self) {
        self.failed.store(true, Ordering::SeqCst);
    }

    /// How many batches were answered.
    pub fn batches(&self) -> u64 {
        self.batches.load(Ordering::SeqCst)
    }

    /// How many clients have ended.
    pub fn ended(&self) -> u64 {
        self.ended.load(Ordering::SeqCst)
    }

    /// True if something failed.
    pub fn has_failed(&self) -> bool {
        self.failed.load(Ordering::SeqCst)
    }
}
