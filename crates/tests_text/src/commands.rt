//! Runs of the command `run`, explained or not: exit statuses, what is written, and what is printed
//! at standard error; and what is printed there of a file that can't be opened.

use crate::devices::{Device, End, Feed};
use plumctl_core::{NoProgress, Progress, run_scenario, tell_unopened};
use std::alloc::Global;
use std::io::ErrorKind;
use std::sync::atomic::{AtomicU64, Ordering};
use streams::MayFail;

/// A run: its text, and how the reader goes on after it; for how many bytes the writer has room;
/// the exit status, what is written, what an explained run writes, and what is printed at standard
/// error.
struct Run {
    text: &'static [u8],
    end: End,
    room: usize,
    status: u8,
    output: &'static [u8],
    explained: &'static [u8],
    told: &'static [u8],
}

static RUNS: [Run; 18] = [
    Run {
        text: b"nodes 1\n",
        end: End::Over,
        room: 200,
        status: 0,
        output: b"ok\n",
        explained: b"  1: nodes 1\nok\n",
        told: b"",
    },
    Run {
        text: b"\n# two nodes\n nodes 2\njoin 1 0\n",
        end: End::Over,
        room: 200,
        status: 0,
        output: b"ok\nok\nframe 1 JOIN 1 0\n",
        explained: b"  3:  nodes 2\nok\n  4: join 1 0\nok\nframe 1 JOIN 1 0\n  on their way: 1\n",
        told: b"",
    },
    Run {
        text: b"nodes 1\nput 0 a/b/k x\nrestart 0 0\n",
        end: End::Over,
        room: 200,
        status: 0,
        output: b"ok\nwrote ctx 0.1:1\nok\n",
        explained: b"  1: nodes 1\nok\n  2: put 0 a/b/k x\nwrote ctx 0.1:1\n\
\x20 node 0 shows a/b/k ctx 0.1:1 values x\n  3: restart 0 0\nok\n\x20 node 0 shows a/b/k ctx - values -\n",
        told: b"",
    },
    Run {
        text: b"nonsense\n",
        end: End::Over,
        room: 200,
        status: 1,
        output: b"error 70 BadLine 1\n",
        explained: b"error 70 BadLine 1\n",
        told: b"line 1: nonsense\nthe first command is nodes COUNT; COUNT is 1 to 16\n",
    },
    Run {
        text: b"nodes 1\nput 0 a/b x\n",
        end: End::Over,
        room: 200,
        status: 1,
        output: b"error 70 BadLine 2\n",
        explained: b"error 70 BadLine 2\n",
        told: b"line 2: put 0 a/b x\n\
wanted: put N KEY VALUE [stamp S] [read R]; a/b is wrong: KEY is as a/b/k, of letters, digits, . _ and -\n",
    },
    Run {
        text: b"nodes 1\nget 0 a/b/k\n",
        end: End::Over,
        room: 200,
        status: 1,
        output: b"error 70 BadLine 2\n",
        explained: b"error 70 BadLine 2\n",
        told: b"line 2: get 0 a/b/k\nno such command\n",
    },
    Run {
        text: b"nodes 1\n\tputs 0\tx\xC3\nputs 0 x\n",
        end: End::Over,
        room: 200,
        status: 1,
        output: b"error 70 BadLine 2\n",
        explained: b"error 70 BadLine 2\n",
        told: b"line 2: \tputs 0\tx?\nthe line has a tab: words are separated by spaces alone\n",
    },
    Run {
        text: b"nodes 1\nputs 0 x\n",
        end: End::Over,
        room: 200,
        status: 1,
        output: b"error 70 BadLine 2\n",
        explained: b"error 70 BadLine 2\n",
        told: b"line 2: puts 0 x\nno such command; did you mean put?\n",
    },
    Run {
        text: b"nodes 1\nshwo 0 a/b/k\n",
        end: End::Over,
        room: 200,
        status: 1,
        output: b"error 70 BadLine 2\n",
        explained: b"error 70 BadLine 2\n",
        told: b"line 2: shwo 0 a/b/k\n\
no such command; did you mean show?\n",
    },
    Run {
        text: b"nodes 1\nput 0 a/b/k red car\n",
        end: End::Over,
        room: 200,
        status: 1,
        output: b"error 70 BadLine 2\n",
        explained: b"error 70 BadLine 2\n",
        told: b"line 2: put 0 a/b/k red car\n\
wanted: put N KEY VALUE [stamp S] [read R]; car is too many\n",
    },
    Run {
        text: b"nodes 1\nwatch 0 a/b\n",
        end: End::Over,
        room: 200,
        status: 1,
        output: b"error 70 BadLine 2\n",
        explained: b"error 70 BadLine 2\n",
        told: b"line 2: watch 0 a/b\n\
wanted: watch N PREFIX CAP; a word is missing: a number has 1 to 20 digits, and is below 2^64\n",
    },
    Run {
        text: b"nodes 1\nresolve 0 a/b/k lwww\n",
        end: End::Over,
        room: 200,
        status: 1,
        output: b"error 70 BadLine 2\n",
        explained: b"error 70 BadLine 2\n",
        told: b"line 2: resolve 0 a/b/k lwww\n\
wanted: resolve N KEY lww|largest; lwww is wrong: a resolver is lww or largest\n",
    },
    Run {
        text: b"nodes 1\ndel 0 a/b/k stamp x\n",
        end: End::Over,
        room: 200,
        status: 1,
        output: b"error 70 BadLine 2\n",
        explained: b"error 70 BadLine 2\n",
        told: b"line 2: del 0 a/b/k stamp x\n\
wanted: del N KEY [stamp S] [read R]; stamp is wrong: a number follows it\n",
    },
    Run {
        text: b"nodes 1\nroot 0\r\n",
        end: End::Over,
        room: 200,
        status: 1,
        output: b"error 70 BadLine 2\n",
        explained: b"error 70 BadLine 2\n",
        told: b"line 2: root 0?\n\
the line ends with a carriage return: end lines with a line feed alone\n",
    },
    Run {
        text: b"\xEF\xBB\xBFnodes 1\n",
        end: End::Over,
        room: 200,
        status: 1,
        output: b"error 70 BadLine 1\n",
        explained: b"error 70 BadLine 1\n",
        told: b"line 1: ???nodes 1\n\
the line begins with a byte order mark: save the text without one\n",
    },
    Run {
        text: b"nodes 1\nroot 0\nnodes 1\n",
        end: End::Over,
        room: 200,
        status: 1,
        output: b"error 70 BadLine 3\n",
        explained: b"error 70 BadLine 3\n",
        told: b"line 3: nodes 1\n\
wanted: nodes COUNT, once, as the first command\n",
    },
    Run {
        text: b"nodes 1\n",
        end: End::Fails(ErrorKind::Other),
        room: 100,
        status: 3,
        output: b"",
        explained: b"",
        told: b"error 7 Read\n",
    },
    Run {
        text: b"nodes 1\n",
        end: End::Over,
        room: 0,
        status: 3,
        output: b"",
        explained: b"",
        told: b"error: the output could not be written\n",
    },
];

/// Returns whether a run ends, writes and reports as is wanted.
fn is_run(alloc: Global, run: &Run, explain: bool) -> bool {
    let mut reader = MayFail(Feed {
        end: run.end,
        ..Feed::new(run.text)
    });
    let output = if explain { run.explained } else { run.output };
    let mut writer = MayFail(Device {
        room: run.room,
        ..Device::new(output)
    });
    let mut errors = MayFail(Device::new(run.told));
    let status = run_scenario(
        alloc,
        &mut reader,
        &mut writer,
        &mut errors,
        explain,
        &NoProgress,
    );
    let written = writer.0.is_right & writer.0.wanted.is_empty();
    let told = errors.0.is_right & errors.0.wanted.is_empty();
    (status == run.status) & written & told
}

#[test]
fn each_run_ends_with_its_status_and_tells_its_fault(rt: HostRuntime) {
    for run in &RUNS {
        assert!(rt; is_run(rt.alloc(), run, false));
        assert!(rt; is_run(rt.alloc(), run, true));
    }
}

#[test]
fn a_file_that_is_not_there_is_told_with_its_name(rt: HostRuntime) {
    let mut errors = MayFail(Device::new(b"error 7 Read\ncause: /no?where ~: not found\n"));
    let status = tell_unopened(&mut errors, "/no\nwhere ~", ErrorKind::NotFound);
    assert!(rt; (status == 3) & errors.0.is_right & errors.0.wanted.is_empty());
}

/// How many lines were announced, and the numbers of those that were reached, as digits of one
/// number.
#[derive(Drop)]
struct Seen {
    lines: AtomicU64,
    reached: AtomicU64,
}

impl Progress for Seen {
    fn begin(&self, lines: u64) {
        self.lines.store(lines, Ordering::SeqCst);
    }

    fn reach(&self, line: u64) {
        let before = self.reached.load(Ordering::SeqCst);
        let after = before.saturating_mul(10).saturating_add(line);
        self.reached.store(after, Ordering::SeqCst);
    }
}

/// Returns what is seen of a run.
fn seen_of(alloc: Global, text: &[u8], explain: bool) -> (u64, u64) {
    let seen = Seen {
        lines: AtomicU64::new(0),
        reached: AtomicU64::new(0),
    };
    let mut reader = text;
    let mut writer = Vec::new(alloc);
    let mut errors = Vec::new(alloc);
    let _ = run_scenario(alloc, &mut reader, &mut writer, &mut errors, explain, &seen);
    (
        seen.lines.load(Ordering::SeqCst),
        seen.reached.load(Ordering::SeqCst),
    )
}

#[test]
fn each_line_with_a_command_is_reached(rt: HostRuntime) {
    let text = b"# a\nnodes 1\n\n  # b\nroot 0\nroot 0\n\n";
    assert!(rt; seen_of(rt.alloc(), text, false) == (7, 256));
    assert!(rt; seen_of(rt.alloc(), text, true) == (7, 256));
    let text = b"nodes 1\nroot 0\nputs 0\nroot 0";
    assert!(rt; seen_of(rt.alloc(), text, false) == (4, 0));
}
