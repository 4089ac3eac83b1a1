//! Node files when memory is refused: a call that was refused memory returns 99, and the file is as
//! it was or has the record.

use crate::files::{EMPTY, ONE, SERVED, TWO, TWO_ANEW};
use crate::parts::{device, found_in};
use devices::MemoryDevice;
use dvvset::Entries;
use meta_store::size::may_be_held;
use meta_types::MetaKey;
use node_file::{
    BatchFault, FileFault, NewObject, NodeFile, has_room_for_all, open_node, rewrite, serve,
};
use std::alloc::Global;

/// Returns whether the bytes open as one of the two: the last life and the number of keys.
fn is_one_of(alloc: Global, bytes: &[u8], states: [(u32, usize); 2]) -> bool {
    let found = found_in(alloc, bytes);
    found == Ok(states[0]) || found == Ok(states[1])
}

/// Returns whether serving the empty file leaves the served one; `None` if memory is refused and it
/// leaves one of these two.
fn is_served(alloc: Global) -> Option<bool> {
    match serve(alloc, device(alloc, EMPTY).ok()?, None) {
        Ok((file, _, life)) => Some(life == 1 && file.device().content() == SERVED),
        Err((device, FileFault::Memory)) => {
            if is_one_of(alloc, device.content(), [(0, 0), (1, 0)]) {
                None
            } else {
                Some(false)
            }
        }
        Err(_) => Some(false),
    }
}

/// Returns the key of a file, and its object.
fn key_and_object(alloc: Global, file: &[u8]) -> Option<(MetaKey, Entries)> {
    let (_, table, _) = open_node(alloc, device(alloc, file).ok()?, None).ok()?;
    let (prefix, rows) = table.iter().next()?;
    let (key, object) = rows.iter().next()?;
    let own = key.as_slice().to_vec(alloc).ok()?;
    let key = MetaKey::new(prefix.copy().ok()?, own).ok()?;
    Some((key, object.copy().ok()?))
}

/// Returns whether an append that ended so left these bytes; `None` if memory was refused and it
/// left the served file, or stopped the file once it had written something.
fn left(
    alloc: Global,
    file: &NodeFile<MemoryDevice>,
    ended: Result<(), FileFault>,
    whole: &[u8],
) -> Option<bool> {
    let content = file.device().content();
    match ended {
        Ok(()) => Some(content == whole),
        Err(FileFault::Memory) => {
            let is_left = if file.is_stopped() {
                content != SERVED && is_one_of(alloc, content, [(1, 0), (1, 1)])
            } else {
                content == SERVED
            };
            if is_left { None } else { Some(false) }
        }
        Err(_) => Some(false),
    }
}

/// Appends the object under the key to the served file, and returns what `left` says of it.
fn append_leaves(alloc: Global, key: &MetaKey, object: &Entries) -> Option<bool> {
    let (mut file, table, _) = serve(alloc, device(alloc, EMPTY).ok()?, None).ok()?;
    let fits = may_be_held(object) && table.has_room_for(key);
    drop(table);
    let left = if fits {
        let ended = file.append(alloc, key, object);
        left(alloc, &file, ended, ONE)
    } else {
        Some(false)
    };
    drop(file);
    left
}

/// Returns whether an append to the served file leaves the file of one record.
fn is_appended(alloc: Global) -> Option<bool> {
    let (key, object) = key_and_object(alloc, ONE)?;
    let left = append_leaves(alloc, &key, &object);
    drop(key);
    drop(object);
    left
}

/// Appends the objects at once to the served file, and returns what `left` says of it.
fn batch_leaves(alloc: Global, objects: &[NewObject<'_>]) -> Option<bool> {
    let (mut file, table, _) = serve(alloc, device(alloc, EMPTY).ok()?, None).ok()?;
    let fits = has_room_for_all(&table, objects);
    drop(table);
    let left = if fits {
        match file.append_all(alloc, objects) {
            Ok(()) => left(alloc, &file, Ok(()), TWO),
            Err(BatchFault::File(fault)) => left(alloc, &file, Err(fault), TWO),
            Err(_) => Some(false),
        }
    } else {
        Some(false)
    };
    drop(file);
    left
}

/// Lends the objects, and returns what `left` says once they were appended at once.
fn rows_leave(alloc: Global, rows: &[(MetaKey, Entries)]) -> Option<bool> {
    let mut objects = Vec::new(alloc);
    for row in rows {
        if !may_be_held(&row.1) {
            return Some(false);
        }
        objects.push(NewObject::new(&row.0, &row.1)).ok()?;
    }
    batch_leaves(alloc, &objects)
}

/// Returns whether a batch of two objects leaves the file of two records.
fn are_appended(alloc: Global) -> Option<bool> {
    let x = key_and_object(alloc, ONE)?;
    let y = key_and_object(alloc, TWO)?;
    let rows = [x, y];
    let left = rows_leave(alloc, &rows);
    drop(rows);
    left
}

/// Returns whether a file with two records is rewritten.
fn is_written_anew(alloc: Global) -> Option<bool> {
    let (file, table, life) = match open_node(alloc, device(alloc, TWO).ok()?, None) {
        Ok(opened) => opened,
        Err((_, fault)) => return if fault == FileFault::Memory {
            None
        } else {
            Some(false)
        },
    };
    let mut target = device(alloc, b"").ok()?;
    match rewrite(alloc, file.node(), &table, life, &mut target) {
        Ok(()) => Some(target.content() == TWO_ANEW),
        Err(fault) => if fault == FileFault::Memory {
            None
        } else {
            Some(false)
        },
    }
}

// Each passes whichever single allocation is refused: what was refused memory is done again.
#[test]
fn a_file_is_served_again_under_refused_memory(rt: HostRuntime) {
    let done = is_served(rt.alloc()).or_else(|| is_served(rt.alloc()));
    assert!(rt; done == Some(true));
}

#[test]
fn a_file_is_appended_to_again_under_refused_memory(rt: HostRuntime) {
    let done = is_appended(rt.alloc()).or_else(|| is_appended(rt.alloc()));
    assert!(rt; done == Some(true));
}

#[test]
fn a_batch_is_appended_again_under_refused_memory(rt: HostRuntime) {
    let done = are_appended(rt.alloc()).or_else(|| are_appended(rt.alloc()));
    assert!(rt; done == Some(true));
}

#[test]
fn a_file_is_written_anew_again_under_refused_memory(rt: HostRuntime) {
    let done = is_written_anew(rt.alloc()).or_else(|| is_written_anew(rt.alloc()));
    assert!(rt; done == Some(true));
}
