ghost use Rattle.std.specs.Prelude.{◌≡◌, ◌≤◌, IfOk};
ghost use Rattle.subscriptions.specs.News.{one_note_fewer};

use crate::change::Change;
use dvvset::Vector;
use meta_types::MetaKey;
use std::alloc::{AllocError, Global};
use std::marker::Model;

/// A change, and as many notes of it as are still to be given to the watches that hear its key.
/// They are made before anything changes, so that nothing fails afterwards.
#[derive(Drop)]
pub struct News {
    change: Change,
    notes: Vec<Change>,
}

impl Model for News {
    ghost use Rattle.std.specs.Prelude.{◌≡◌, All, length};
    ghost use Rattle.subscriptions.specs.News.{NewsParts};

    ghost Value = { NewsParts };

    ghost view = { λ n. record { change = n.change; notes = length n.notes.items } };

    ghost invariant = { λ n. All (λ note. note ≡ n.change) n.notes.items };
}

impl News {
    /// Makes the news of a change, with `count` notes of it. Fails only when memory runs out.
    pub fn new(alloc: Global, change: Change, count: usize) -> Result<Self, AllocError>
        ensures { IfOk result (λ news. news ≡ record { change = change; notes = count }) }
    {
        let mut notes = Vec::with_capacity(alloc, count)?;
        for _ in 0..count {
            notes.push(change.copy()?)?;
        }
        Ok(News { change, notes })
    }

    /// Returns one of the notes that are left.
    pub fn next(&mut self) -> Change
        requires { 1 ≤ self.old.notes }
        ensures note { result ≡ self.old.change }
        ensures fewer { self.new ≡ one_note_fewer self.old }
    {
        self.notes.pop().unwrap()
    }

    pub fn key(&self) -> &MetaKey
        ensures { result.now ≡ self.now.change.key }
    {
        &self.change.key
    }

    pub fn vector(&self) -> &Vector
        ensures { result.now ≡ self.now.change.vector }
    {
        &self.change.vector
    }

    /// Returns the vector of the change, without taking memory.
    pub fn into_vector(self) -> Vector
        ensures { result ≡ self.change.vector }
    {
        self.change.vector
    }
}
