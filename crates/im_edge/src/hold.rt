// A gate for tests of threads.
use crate::gate::{At, Gate};
use std::sync::Wait;
use std::sync::atomic::{AtomicBool, AtomicU64, Ordering};
use std::thread;

/// A gate that holds one step up until another was taken.
///
/// It tells who calls by the number alone, and counts the calls of each of two numbers. It does not wait for ever: it looks so
/// often whether the other step was taken, and gives up then.
#[derive(Drop)]
pub struct HoldGate {
    held: (u32, u32),
    until: (u32, u32),
    looks: u64,
    begun: AtomicU64,
    answered: AtomicU64,
    has_given_up: AtomicBool,
}

impl HoldGate {
    /// A gate that holds the call `held.1`, from 1, of the number `held.0` until so many calls, `until.1`, of the number `until.0`
    /// were answered, or until it has looked so often whether they were. Between two looks it lets other threads run.
    pub fn new(held: (u32, u32), until: (u32, u32), looks: u64) -> HoldGate {
        HoldGate {
            held,
            until,
            looks,
            begun: AtomicU64::new(0),
            answered: AtomicU64::new(0),
            has_given_up: AtomicBool::new(false),
        }
    }

    /// Whether it let the call go on before what it waited for had come.
    pub fn gave_up(&self) -> bool {
        self.has_given_up.load(Ordering::SeqCst)
    }

    /// Whether what it waits for has come.
    fn is_open(&self) -> bool {
        self.answered.load(Ordering::SeqCst) >= u64::from(self.until.1)
    }

    /// Waits until it is open, or until all looks were made.
    fn hold(&self) {
        for _ in 0..self.looks {
            if self.is_open() {
                return;
            }
            thread::yield_now();
        }
        self.has_given_up.store(true, Ordering::SeqCst);
    }
}

impl Gate for HoldGate {
    fn before<R: Wait>(&self, _rt: &R, who: u32, _at: At) {
        let (held, number) = self.held;
        if who != held {
            return;
        }
        let before = self.begun.fetch_add(1, Ordering::SeqCst);
        if before.saturating_add(1) == u64::from(number) {
            self.hold();
        }
    }

    fn after(&self, who: u32, _at: At) {
        if who == self.until.0 {
            self.answered.fetch_add(1, Ordering::SeqCst);
        }
    }
}
