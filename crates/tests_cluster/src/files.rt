//! The nodes on files in a folder of its own.

use cluster::{ClusterPlan, NoHook, Workload};
use devices::OpenFault;
use plumctl_file::{Purpose, report_path};
use plumctl_live::{new_files, run_live_on, tell_unmade};
use std::fs;
use std::process::Abort;
use std::sync::Wait;
use std::thread::Threads;

const FOLDER: &str = "files_of_a_run";

/// Returns the exit status of a run on files in a new folder, or of what couldn't be made.
fn status<R: Threads + Wait + Sync>(files: &HostRuntime, rt: &R, folder: &str) -> u8 {
    let mut writer = Vec::new(files.alloc());
    let mut errors = Vec::new(files.alloc());
    let plan = ClusterPlan {
        nodes: 2,
        turns: 8,
        seed: 1,
        workload: Workload::Fixed,
    };
    match new_files(files, folder, plan.nodes) {
        Ok(devices) => {
            let alloc = files.alloc();
            let live = run_live_on(rt, alloc, plan, devices, &NoHook, &mut writer, &mut errors);
            let status = live.status;
            // Dropped by a call: no case of the proof then takes it apart.
            drop(live);
            status
        }
        Err(fault) => tell_unmade(&mut errors, folder, fault),
    }
}

/// Returns what `plumctl file` prints of the file of a node.
fn front(files: &HostRuntime, path: &str) -> Vec<u8> {
    let mut printed = Vec::new(files.alloc());
    let mut told = Vec::new(files.alloc());
    let _ = report_path(files, path, Purpose::Report, &mut printed, &mut told);
    printed
}

#[test]
fn nodes_run_on_new_files(rt: HostRuntime) {
    let _ = fs::remove_dir_all(&rt, FOLDER);
    assert!(&rt; status(&rt, &rt, FOLDER) == 0);
    let first = front(&rt, "files_of_a_run/node-0");
    assert!(&rt; first.starts_with(b"node 0 life 1 keys "));
    let second = front(&rt, "files_of_a_run/node-1");
    assert!(&rt; second.starts_with(b"node 1 life 1 keys "));
    assert!(&rt; status(&rt, &rt, FOLDER) == 3);
    let _ = fs::remove_dir_all(&rt, FOLDER);
}

/// Returns what is printed of a fault.
fn told(rt: &HostRuntime, fault: OpenFault) -> Vec<u8> {
    let mut errors = Vec::new(rt.alloc());
    let _ = tell_unmade(&mut errors, "a\nfolder", fault);
    errors
}

#[test]
fn what_is_there_is_told(rt: HostRuntime) {
    let there =
        b"error 30 Device\ncause: a?folder: is there already, and nothing is written over\n";
    assert!(&rt; told(&rt, OpenFault::Exists).as_slice() == there.as_slice());
    assert!(&rt; told(&rt, OpenFault::Memory).as_slice() == b"error 99 Memory\n".as_slice());
}
