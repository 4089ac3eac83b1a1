//! The writes and syncs of an append, bare.

use std::fs::File;
use std::io;
use std::os::unix::fs::FileExt;
use std::time::Instant;

/// Makes two writes with their syncs: of the bytes after the gate at `gate`, and of the gate.
fn append_bare(file: &File, gate: u64, bytes: &[u8]) -> io::Result<()> {
    file.write_all_at(bytes, gate.saturating_add(1))?;
    file.sync_data()?;
    file.write_all_at(&[1], gate)?;
    file.sync_data()
}

fn time_of_bare(rt: &HostRuntime, file: &File, gate: u64, bytes: &[u8]) -> io::Result<u128> {
    let start = Instant::now(rt)?;
    append_bare(file, gate, bytes)?;
    Ok(start.elapsed(rt)?.as_nanos())
}

/// Makes `count` bare appends of `size` bytes, the first at `gate`, and adds the nanoseconds of
/// each to `samples`. Returns where the next one goes.
pub(crate) fn bare_writes(
    rt: &HostRuntime,
    file: &File,
    gate: u64,
    size: usize,
    count: usize,
    samples: &mut Vec<u128>,
) -> io::Result<u64> {
    let bytes = vec![in rt.alloc(); 7u8; size]?;
    let mut gate = gate;
    for _ in 0..count {
        samples.push(time_of_bare(rt, file, gate, &bytes)?)?;
        gate = gate.saturating_add(bytes.len() as u64);
    }
    Ok(gate)
}
