//! Which of several siblings a resolver chooses.

use crate::parts::value;
use meta_types::Value;
use resolvers::{Largest, Lww, Resolver};
use std::alloc::Global;
use std::process::Abort;

/// A body and a stamp; `~` is a tombstone.
type Sibling = (&'static str, u64);

/// Siblings, and the place of the chosen one.
type Row = (&'static [Sibling], usize);

static LAST_WRITERS: [Row; 6] = [
    (&[("~", 0), ("w", 0)], 1),
    (&[("x", 5), ("y", 4)], 0),
    (&[("~", 0), ("", 0)], 1),
    (&[("x", 0), ("x", 0)], 0),
    (&[("~", 9), ("x", 5)], 0),
    (&[("a", 1), ("c", 2), ("b", 2)], 1),
];

static LARGEST: [Row; 5] = [
    (&[("x", 5), ("y", 4)], 1),
    (&[("x", 1), ("x", 5)], 1),
    (&[("~", 9), ("x", 0)], 1),
    (&[("ab", 0), ("b", 0), ("a", 0)], 1),
    (&[("~", 1), ("~", 1)], 0),
];

static GREATEST_WRITERS: [Row; 1] = [(&[("x", 9), ("~", 1), ("y", 2)], 2)];

/// Returns the place that the resolver chooses, called as by a caller that was handed the resolver.
fn place(
    rt: &impl Abort,
    alloc: Global,
    resolver: &Box<dyn Resolver>,
    siblings: &[Sibling],
) -> usize {
    let mut values = Vec::new(alloc);
    for (body, stamp) in siblings {
        let sibling = value(rt, alloc, *stamp, body.as_bytes());
        values.push(sibling).expect(rt, "memory");
    }
    assert!(rt; !values.is_empty());
    resolver.resolve(values.as_slice())
}

fn chooses(rt: &impl Abort, alloc: Global, resolver: &Box<dyn Resolver>, rows: &[Row]) {
    for (siblings, chosen) in rows {
        assert_eq!(rt; place(rt, alloc, resolver, siblings), *chosen);
    }
}

/// A resolver of one's own: the greatest writer wins, and of its siblings the oldest, since they
/// come in the order of their writers, each one's newest first.
#[derive(Drop)]
struct GreatestWriter;

impl Resolver for GreatestWriter {
    ghost use Rattle.std.specs.Prelude.{◌-◌, length};

    ghost choice = { λ _ siblings. length siblings - 1 };

    fn resolve(&self, siblings: &[Value]) -> usize {
        siblings.len() - 1
    }
}

#[test]
fn each_resolver_chooses_its_sibling(rt: HostRuntime) {
    let alloc = rt.alloc();
    let lww: Box<dyn Resolver> = Box::new(alloc, Lww).expect(&rt, "memory");
    chooses(&rt, alloc, &lww, &LAST_WRITERS);
    let largest: Box<dyn Resolver> = Box::new(alloc, Largest).expect(&rt, "memory");
    chooses(&rt, alloc, &largest, &LARGEST);
    let own: Box<dyn Resolver> = Box::new(alloc, GreatestWriter).expect(&rt, "memory");
    chooses(&rt, alloc, &own, &GREATEST_WRITERS);
}
