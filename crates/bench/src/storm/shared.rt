//! What the threads of a storm share besides the node.

use crate::storm::span::Span;
use crate::storm::trouble::Trouble;
use crate::storm::written::Mark;
use dvvset::Vector;
use meta_types::{Actor, MetaKey};
use node_lock::{Naming, Revision};
use std::alloc::{AllocError, Global};
use std::sync::atomic::{AtomicU64, Ordering};
use std::sync::{Mutex, Wait};

/// An acknowledged write, for readers: how far the history went, the place of its key, and the
/// vector that was returned.
#[derive(Drop)]
pub(crate) struct News<J: Naming> {
    pub(crate) revision: Revision<J>,
    pub(crate) place: usize,
    pub(crate) vector: Vector,
}

impl<J: Naming> News<J> {
    fn copy(&self) -> Result<Self, AllocError> {
        Ok(News {
            revision: self.revision.again(),
            place: self.place,
            vector: self.vector.copy()?,
        })
    }
}

/// A time, keys, and what threads pass to each other.
#[derive(Drop)]
pub(crate) struct Shared<J: Naming> {
    pub(crate) alloc: Global,
    pub(crate) span: Span,
    pub(crate) keys: Vec<MetaKey>,
    /// The node in its life: the actor under which vectors count its writes.
    pub(crate) actor: Actor,
    /// How many writers have begun.
    begun: AtomicU64,
    /// How many writes were printed at standard output; `None` if they aren't printed.
    told: Option<Mutex<u64>>,
    news: Mutex<Option<News<J>>>,
}

impl<J: Naming> Shared<J> {
    pub(crate) fn new(
        alloc: Global,
        span: Span,
        keys: Vec<MetaKey>,
        actor: Actor,
        is_told: bool,
    ) -> Self {
        Shared {
            alloc,
            span,
            keys,
            actor,
            begun: AtomicU64::new(0),
            told: if is_told { Some(Mutex::new(0)) } else { None },
            news: Mutex::new(None),
        }
    }

    /// Returns the number of a writer that begins.
    pub(crate) fn next_writer(&self) -> u64 {
        self.begun.fetch_add(1, Ordering::SeqCst)
    }

    /// Posts a write, of which readers learn from then on.
    pub(crate) fn post<R: Wait>(&self, rt: &R, news: News<J>) {
        let mut last = self.news.lock(rt);
        drop(last.replace(news));
    }

    /// Returns what was posted last.
    pub(crate) fn newest<R: Wait>(&self, rt: &R) -> Result<Option<News<J>>, AllocError> {
        let last = self.news.lock(rt);
        match &*last {
            Some(news) => Ok(Some(news.copy()?)),
            None => Ok(None),
        }
    }

    /// If writes are printed, prints that this write was acknowledged as event number `count` of
    /// its key. No line of another thread stands inside the line.
    pub(crate) fn tell<R: Wait + Print>(
        &self,
        rt: &R,
        key: &str,
        count: u64,
        mark: Mark,
    ) -> Result<(), Trouble> {
        if let Some(told) = &self.told {
            let mut lines = told.lock(rt);
            println!(rt; "{key} {count} {mark}")?;
            *lines = lines.saturating_add(1);
        }
        Ok(())
    }
}
