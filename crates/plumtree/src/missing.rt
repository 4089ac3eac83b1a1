//! The objects that a node waits for, and the announcements that wait for a tick.

ghost use Rattle.std.specs.Prelude.{◌≡◌, ◌<◌, drop, length, map, if◌then◌else◌};
ghost use Rattle.std.specs.Prelude.{IfOk, IfSome, OnOk, OnErr};
ghost use Rattle.std.specs.List.{filter, position};
ghost use Rattle.plumtree.specs.declared.entry.CastOut.TheVariants.{Gossip};
ghost use Rattle.plumtree.specs.Draft.{announcement_to};
ghost use Rattle.plumtree.specs.Rows.{first_announced, ihave_of, is_announced_by, is_not_by};
ghost use Rattle.plumtree.specs.Rows.{is_not_to, is_of, is_still_missing, noted, with_announcer};
ghost use Rattle.plumtree.specs.Rows.{without_announcer};
ghost use Rattle.plumtree.specs.Savepoint.{without_last_announcer, without_noted};
ghost use Rattle.plumtree.specs.Ticking.{missing_after, stays_missing, ticked};

use crate::entry::{Announcement, Announcer, CastOut, MissingObject, Noted};
use dvvset::{Vector, descends};
use meta_frame::Message;
use meta_types::{MetaKey, NodeId};
use std::alloc::{AllocError, Global};

/// How many ticks an announced object has to come by another way, before it is asked for.
const ANNOUNCED_PATIENCE: u8 = 2;

/// How many ticks an announcer that was asked for an object has, before the next is asked.
const ASKED_PATIENCE: u8 = 1;

impl MissingObject {
    /// Returns an object that is announced for the first time.
    fn announced_by(
        alloc: Global,
        announcer: Announcer,
        key: &MetaKey,
        vector: &Vector,
    ) -> Result<Self, AllocError>
        ensures { IfOk result (λ new.
            new ≡ first_announced announcer.peer announcer.round key.now vector.now) }
    {
        let key = key.copy()?;
        let vector = vector.copy()?;
        let mut announcers = Vec::new(alloc);
        announcers.push(announcer)?;
        Ok(MissingObject {
            key,
            vector,
            announcers,
            ticks: ANNOUNCED_PATIENCE,
        })
    }

    fn copy(&self, alloc: Global) -> Result<Self, AllocError>
        ensures { IfOk result (λ copy. copy ≡ self.now) }
    {
        let key = self.key.copy()?;
        let vector = self.vector.copy()?;
        let mut announcers = Vec::new(alloc);
        announcers.extend_from_slice(self.announcers.as_slice())?;
        Ok(MissingObject {
            key,
            vector,
            announcers,
            ticks: self.ticks,
        })
    }

    fn is_of(&self, key: &MetaKey, vector: &Vector) -> bool
        ensures { result ≡ is_of key.now vector.now self.now }
    {
        self.key == *key && self.vector == *vector
    }

    /// Returns whether a node whose context of the key is this vector still lacks the object.
    fn is_still_missing(&self, key: &MetaKey, vector: &Vector) -> bool
        ensures { result ≡ is_still_missing key.now vector.now self.now }
    {
        !(self.key == *key && descends(vector, &self.vector))
    }

    /// Adds an announcer, unless it announced the object before. Returns whether it was added.
    fn add_announcer(&mut self, announcer: Announcer) -> Result<bool, AllocError>
        ensures ok { OnOk result
            (self.new ≡ with_announcer announcer.peer announcer.round self.old) }
        ensures back { IfOk result (λ added.
            (if added then without_last_announcer self.new else self.new) ≡ self.old) }
        ensures unchanged { OnErr result (self.new ≡ self.old) }
    {
        if is_announced_by(self.announcers.as_slice(), announcer.peer) {
            return Ok(false);
        }
        self.announcers.push(announcer)?;
        Ok(true)
    }

    fn lose_last_announcer(&mut self)
        ensures { self.new ≡ without_last_announcer self.old }
    {
        drop(self.announcers.pop());
    }

    fn lose_announcer(&mut self, node: NodeId)
        ensures { self.new ≡ without_announcer node self.old }
    {
        leave_announcers(&mut self.announcers, node);
    }

    /// Returns whether the object is still waited for after a tick: it has a tick left, or there is
    /// one to ask.
    fn stays_missing(&self) -> bool
        ensures { result ≡ stays_missing self.now }
    {
        self.ticks > 1 || !self.announcers.is_empty()
    }

    /// Makes a tick: one less is left, or the first announcer is asked and the object waits for the
    /// next one.
    #[tactic(auto, unfolding(crate::specs::Ticking::ticked))]
    fn lose_tick(&mut self)
        ensures { self.new ≡ ticked self.old }
    {
        if self.ticks > 1 {
            self.ticks -= 1;
        } else {
            leave_first(&mut self.announcers);
            self.ticks = ASKED_PATIENCE;
        }
    }
}

fn is_announced_by(announcers: &[Announcer], node: NodeId) -> bool
    ensures { result ≡ is_announced_by node announcers.now }
{
    announcers.iter().any(|announcer| node == announcer.peer)
}

fn place_of(missing: &[MissingObject], key: &MetaKey, vector: &Vector) -> Option<usize>
    ensures value { result ≡ position (is_of key.now vector.now) missing.now }
    ensures within { IfSome result (λ place. place < length missing.now) }
{
    missing.iter().position(|object| object.is_of(key, vector))
}

/// Notes an announcement of an object that isn't here. Returns what `forget_noted` takes to take
/// this back.
pub(crate) fn note(
    alloc: Global,
    missing: &mut Vec<MissingObject>,
    announcer: Announcer,
    key: &MetaKey,
    vector: &Vector,
) -> Result<Noted, AllocError>
    ensures ok { OnOk result (missing.new.items
        ≡ noted announcer.peer announcer.round key.now vector.now missing.old.items) }
    ensures back { IfOk result
        (λ noted. without_noted noted missing.new.items ≡ missing.old.items) }
    ensures unchanged { OnErr result (missing.new.items ≡ missing.old.items) }
{
    match place_of(missing.as_slice(), key, vector) {
        Some(place) => {
            if missing[place].add_announcer(announcer)? {
                Ok(Noted::Announcer(place))
            } else {
                Ok(Noted::Nothing)
            }
        }
        None => {
            let new = MissingObject::announced_by(alloc, announcer, key, vector)?;
            missing.push(new)?;
            Ok(Noted::Object)
        }
    }
}

/// Takes back what was noted last. It takes no memory.
pub(crate) fn forget_noted(missing: &mut Vec<MissingObject>, noted: Noted)
    ensures { missing.new.items ≡ without_noted noted missing.old.items }
{
    match noted {
        Noted::Nothing => {}
        Noted::Object => drop(missing.pop()),
        Noted::Announcer(place) => {
            if place < missing.len() {
                missing[place].lose_last_announcer();
            }
        }
    }
}

/// Takes the node out of the announcers of each missing object.
pub(crate) fn lose_announcer(missing: &mut Vec<MissingObject>, node: NodeId)
    ensures { missing.new.items ≡ map (without_announcer node) missing.old.items }
{
    for place in 0..missing.len() {
        missing[place].lose_announcer(node);
    }
}

fn leave_announcers(announcers: &mut Vec<Announcer>, node: NodeId)
    ensures { announcers.new.items ≡ filter (is_not_by node) announcers.old.items }
{
    announcers.retain(|announcer| node != announcer.peer);
}

fn leave_first(announcers: &mut Vec<Announcer>)
    ensures { announcers.new.items ≡ drop 1 announcers.old.items }
{
    if !announcers.is_empty() {
        announcers.remove(0);
    }
}

/// Makes a tick of each missing object. It takes no memory.
pub(crate) fn lose_ticks(missing: &mut Vec<MissingObject>)
    ensures { missing.new.items ≡ missing_after missing.old.items }
{
    leave_overdue(missing);
    for place in 0..missing.len() {
        missing[place].lose_tick();
    }
}

/// Takes out the objects whose last tick this is, if there is nobody to ask for them.
fn leave_overdue(missing: &mut Vec<MissingObject>)
    ensures { missing.new.items ≡ filter stays_missing missing.old.items }
{
    missing.retain(|object| object.stays_missing());
}

/// Takes out the objects under the key that this vector descends.
pub(crate) fn leave_known(missing: &mut Vec<MissingObject>, key: &MetaKey, vector: &Vector)
    ensures { missing.new.items
        ≡ filter (is_still_missing key.now vector.now) missing.old.items }
{
    missing.retain(|object| object.is_still_missing(key, vector));
}

/// Takes out the announcements to this node.
pub(crate) fn leave_queue(queue: &mut Vec<Announcement>, node: NodeId)
    ensures { queue.new.items ≡ filter (is_not_to node) queue.old.items }
{
    queue.retain(|announcement| node != announcement.peer);
}

/// Returns a GOSSIP of the object under the key for each of these peers.
pub(crate) fn gossips(
    alloc: Global,
    peers: &[NodeId],
    round: u16,
    key: &MetaKey,
) -> Result<Vec<CastOut>, AllocError>
    ensures { IfOk result
        (λ out. out.items ≡ map (λ to. Gossip to round key.now) peers.now) }
{
    let mut out = Vec::new(alloc);
    for peer in peers {
        let key = key.copy()?;
        out.push(CastOut::Gossip {
            to: *peer,
            round,
            key,
        })?;
    }
    Ok(out)
}

/// Returns announcements of the object under the key to each of these peers, for the next tick.
pub(crate) fn announcements(
    alloc: Global,
    peers: &[NodeId],
    round: u16,
    key: &MetaKey,
    vector: &Vector,
) -> Result<Vec<Announcement>, AllocError>
    ensures { IfOk result
        (λ queue. queue.items ≡ map (announcement_to round key.now vector.now) peers.now) }
{
    let mut queue = Vec::new(alloc);
    for peer in peers {
        let key = key.copy()?;
        let vector = vector.copy()?;
        queue.push(Announcement {
            peer: *peer,
            round,
            key,
            vector,
        })?;
    }
    Ok(queue)
}

/// Returns the announcements that wait, as messages.
pub(crate) fn announced(alloc: Global, queue: &[Announcement]) -> Result<Vec<CastOut>, AllocError>
    ensures { IfOk result (λ out. out.items ≡ map ihave_of queue.now) }
{
    let mut out = Vec::new(alloc);
    for announcement in queue {
        let key = announcement.key.copy()?;
        let vector = announcement.vector.copy()?;
        let round = announcement.round;
        out.push(CastOut::Send(announcement.peer, Message::IHave { round, key, vector }))?;
    }
    Ok(out)
}

pub(crate) fn copy_missing(
    alloc: Global,
    missing: &[MissingObject],
) -> Result<Vec<MissingObject>, AllocError>
    ensures { IfOk result (λ copy. copy.items ≡ missing.now) }
{
    let mut copy = Vec::new(alloc);
    for object in missing {
        copy.push(object.copy(alloc)?)?;
    }
    Ok(copy)
}

pub(crate) fn copy_queue(
    alloc: Global,
    queue: &[Announcement],
) -> Result<Vec<Announcement>, AllocError>
    ensures { IfOk result (λ copy. copy.items ≡ queue.now) }
{
    let mut copy = Vec::new(alloc);
    for announcement in queue {
        let key = announcement.key.copy()?;
        let vector = announcement.vector.copy()?;
        copy.push(Announcement {
            peer: announcement.peer,
            round: announcement.round,
            key,
            vector,
        })?;
    }
    Ok(copy)
}
