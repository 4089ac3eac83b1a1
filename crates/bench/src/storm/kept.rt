//! What the file of a node holds, as lines.

use crate::begun::read;
use crate::storm::written::text_of;
use dvvset::Entry;
use meta_store::{Rows, Store};
use std::io;

/// Prints the number of the last life; then, for each key and each life in which it was written:
/// the key, the life, how many writes it counts, and the newest of them if it still stands.
pub(crate) fn tell(rt: &HostRuntime, path: &str) -> io::Result<()> {
    let (table, life) = read(rt, path)?;
    let done = tell_table(rt, &table, life);
    drop(table);
    done
}

fn tell_table(rt: &HostRuntime, table: &Store, life: u32) -> io::Result<()> {
    println!(rt; "life {life}")?;
    for (_prefix, rows) in table.iter() {
        tell_rows(rt, rows)?;
    }
    Ok(())
}

fn tell_rows(rt: &HostRuntime, rows: &Rows) -> io::Result<()> {
    for (key, object) in rows.iter() {
        tell_object(rt, text_of(key.as_slice()), object.entries())?;
    }
    Ok(())
}

fn tell_object(rt: &HostRuntime, key: &str, entries: &[Entry]) -> io::Result<()> {
    for entry in entries {
        println!(rt;
            "{key} {} {} {}",
            entry.id().incarnation(),
            entry.count(),
            newest(entry)
        )?;
    }
    Ok(())
}

/// Returns the newest value that the entry shows, `-` for none.
fn newest(entry: &Entry) -> &str {
    match entry.values() {
        [value, ..] => text_of(value.body().unwrap_or(b"tombstone")),
        _ => "-",
    }
}
