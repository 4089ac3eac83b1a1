//! The time that a storm has.

use std::rt::Clock;
use std::time::{Duration, Instant};

/// A time that has begun, and how long it is. If the clock can't be read it is over.
#[derive(Clone, Copy)]
pub(crate) struct Span {
    begun: Option<Instant>,
    length: Duration,
}

impl Span {
    /// Begins a time of `milliseconds` milliseconds.
    pub(crate) fn begin<R: Clock>(rt: &R, milliseconds: u64) -> Span {
        Span {
            begun: Instant::now(rt).ok(),
            length: Duration::from_millis(milliseconds),
        }
    }

    /// Returns how much time has passed since it began.
    pub(crate) fn elapsed<R: Clock>(&self, rt: &R) -> Option<Duration> {
        match self.begun {
            Some(begun) => begun.elapsed(rt).ok(),
            None => None,
        }
    }

    pub(crate) fn is_over<R: Clock>(&self, rt: &R) -> bool {
        match self.elapsed(rt) {
            Some(time) => time >= self.length,
            None => true,
        }
    }
}
