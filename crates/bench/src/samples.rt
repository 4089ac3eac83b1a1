//! Medians and rates of samples, and printing them.

use std::io;

/// Returns the error that stands for any refusal: a bench has no use for its name.
pub(crate) fn refused<E: Drop>(_refusal: E) -> io::Error {
    io::Error::from(io::ErrorKind::Other)
}

/// Sorts the samples, and returns the median.
pub(crate) fn median(samples: &mut [u128]) -> u128 {
    samples.sort_unstable();
    samples.get(samples.len() / 2).copied().unwrap_or(1)
}

/// Returns how many times in a second something is done that was done `count` times in `nanos`
/// nanoseconds.
pub(crate) fn rate(count: u64, nanos: u128) -> u128 {
    u128::from(count) * 1_000_000_000 / nanos.max(1)
}

/// Prints a line `name value unit`.
pub(crate) fn print<R: Print>(rt: &R, name: &str, value: u128, unit: &str) -> io::Result<()> {
    println!(rt; "{name} {value} {unit}")
}
