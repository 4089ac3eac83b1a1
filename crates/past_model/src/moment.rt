//! The slow account of a history: for each happening, what its node knows right after it and its
//! standing image, as sets of places.

ghost use Rattle.std.specs.Prelude.{◌≡◌, ◌+◌, ◌<◌, ◌≤◌, ◌^◌, ◌&&◌, ◌||◌, ℕ, if◌then◌else◌, true, length, take, get_or, slice_get, Some, IfOk, OnOk, IfSome};
ghost use Rattle.meta_types.specs.Name.{Key};
ghost use Rattle.meta_types.specs.Node.{IsNode};
ghost use Rattle.past_model.specs.declared.happening.Happening.{Happening as H};
ghost use Rattle.past_model.specs.declared.happening.Happening.TheVariants.{Sent};
ghost use Rattle.past_model.specs.Sets.{Knowledge, singleton, union, with_set};
ghost use Rattle.past_model.specs.Past.{past};
ghost use Rattle.past_model.specs.History.{IsHistory};
ghost use Rattle.past_model.specs.Moment.{AreMoments, GivesSets, GivesBoth, IsAccount, IsImage, IsLatest, Marks, is_sending, is_write_under, marked_places, moment_read, node_of};

use crate::happening::Happening;
use meta_types::{MetaKey, NodeId};
use std::alloc::{AllocError, Global};
use std::marker::Model;

/// What a node knows, and its standing image, under all keys at once: each list has a mark for each
/// place of the history, `true` if the write there is in the set of its key.
#[derive(Debug, Drop)]
pub struct Moment {
    known: Vec<bool>,
    standing: Vec<bool>,
}

impl Model for Moment {
    ghost Value = { Marks };

    ghost view = { λ m. record { known = m.known.items; standing = m.standing.items } };
}

impl Moment {
    fn new(known: Vec<bool>, standing: Vec<bool>) -> Self
        ensures { result ≡ record { known = known.items; standing = standing.items } }
    {
        Moment { known, standing }
    }

    pub fn known(&self) -> &[bool]
        ensures { result.now ≡ self.now.known }
    {
        self.known.as_slice()
    }

    pub fn standing(&self) -> &[bool]
        ensures { result.now ≡ self.now.standing }
    {
        self.standing.as_slice()
    }
}

pub fn is_marked(marks: &[bool], place: usize) -> bool
    ensures { result ≡ marked_places marks.now place }
{
    match marks.get(place) {
        None => false,
        Some(mark) => *mark,
    }
}

/// Returns whether there is a write under the key at the place.
pub fn is_write_under(history: &[Happening], place: usize, key: &MetaKey) -> bool
    ensures { result ≡ is_write_under key.now (slice_get history.now place) }
{
    match history.get(place) {
        None => false,
        Some(happening) => happening.is_write_under(key),
    }
}

/// Returns the marks of writes under the key.
pub fn under(
    alloc: Global,
    history: &[Happening],
    marks: &[bool],
    key: &MetaKey,
) -> Result<Vec<bool>, AllocError>
    ensures { IfOk result (λ found. (p : ℕ)
        → marked_places found.items p
        ≡ (is_write_under key.now (slice_get history.now p) && marked_places marks.now p)) }
{
    let mut found = Vec::with_capacity(alloc, history.len())?;
    for place in 0..history.len() {
        found.push(is_write_under(history, place, key) && is_marked(marks, place))?;
    }
    Ok(found)
}

/// Returns the marks that `a` or `b` has, over the first `places` places.
fn either(alloc: Global, places: usize, a: &[bool], b: &[bool]) -> Result<Vec<bool>, AllocError>
    ensures marks { IfOk result (λ both. (p : ℕ) → p < places
        → marked_places both.items p ≡ (marked_places a.now p || marked_places b.now p)) }
    ensures len { IfOk result (λ both. length both.items ≡ places) }
{
    let mut both = Vec::with_capacity(alloc, places)?;
    for place in 0..places {
        both.push(is_marked(a, place) || is_marked(b, place))?;
    }
    Ok(both)
}

/// Returns the marks of `new` at writes under the key, and of `old` at all other places.
fn replaced(
    alloc: Global,
    history: &[Happening],
    old: &[bool],
    key: &MetaKey,
    new: &[bool],
) -> Result<Vec<bool>, AllocError>
    ensures { IfOk result (λ marks. (p : ℕ) → p < length history.now
        → marked_places marks.items p
        ≡ (if is_write_under key.now
        (slice_get history.now p) then marked_places new.now p else marked_places old.now p)) }
{
    let mut marks = Vec::with_capacity(alloc, history.len())?;
    for place in 0..history.len() {
        let from = if is_write_under(history, place, key) {
            new
        } else {
            old
        };
        marks.push(is_marked(from, place))?;
    }
    Ok(marks)
}

/// Returns the moment after the node's last happening among the first `places`.
pub fn latest(history: &[Happening], places: usize, node: NodeId) -> usize
    requires { places ≤ length history.now }
    ensures { IsLatest history.now places node result }
{
    let mut moment = 0;
    for place in 0..places {
        if history[place].node() == node {
            moment = place + 1;
        }
    }
    moment
}

/// Returns the moment in which the node's image of that number was made, among the first `places`
/// happenings.
fn image(history: &[Happening], places: usize, node: NodeId, number: usize) -> usize
    requires inside { places ≤ length history.now }
    requires made { number ≤ (past (take places history.now)).last node }
    ensures { IsImage history.now places node number result }
{
    let mut images = 0;
    for place in 0..places {
        if history[place].makes_image(node) {
            images += 1;
            if images == number {
                return place + 1;
            }
        }
    }
    0
}

/// Returns the account of a history: the first moment is the one before all happenings, each other
/// stands after a happening.
pub fn account(alloc: Global, history: &[Happening]) -> Result<Vec<Moment>, AllocError>
    requires { IsHistory history.now }
    ensures { IfOk result (λ moments. IsAccount history.now moments.items) }
{
    let mut moments = Vec::with_capacity(alloc, 1)?;
    moments.push(Moment::new(Vec::new(alloc), Vec::new(alloc)))?;
    for place in 0..history.len() {
        let moment = next(alloc, history, place, moments.as_slice())?;
        moments.push(moment)?;
    }
    Ok(moments)
}

/// Returns the moment after the happening at the place.
fn next(
    alloc: Global,
    history: &[Happening],
    place: usize,
    moments: &[Moment],
) -> Result<Moment, AllocError>
    requires inside { place < length history.now }
    requires history { IsHistory history.now }
    requires before { length moments.now ≡ place + 1 }
    requires moments { AreMoments history.now moments.now }
    ensures node { OnOk result ((h : H) → slice_get history.now place ≡ Some h
        → IsNode (node_of h)) }
    ensures moment { IfOk result (λ moment. (h : H) → slice_get history.now place ≡ Some h
        → GivesBoth history.now moment (past (take (place + 1) history.now)) (node_of h)) }
{
    let happening = &history[place];
    let now = &moments[latest(history, place, happening.node())];
    match happening {
        Happening::Wrote { key, seen, .. } => {
            let read = &moments[moment_read(*seen)];
            after_write(alloc, history, place, now, read, key)
        }
        Happening::Looked { .. } => same(alloc, now.known(), now.standing()),
        Happening::Sent { .. } => same(alloc, now.known(), now.standing()),
        Happening::Got { sent, .. } => after_delivery(alloc, history, now, *sent, moments),
        Happening::Kept { key, .. } => after_keeping(alloc, history, now, key),
        Happening::Restarted {
            node,
            image: number,
        } => {
            let kept = &moments[image(history, place, *node, *number)];
            same(alloc, kept.standing(), kept.standing())
        }
    }
}

/// Returns the moment whose knowledge a write has read: the moment of its `Looked`, or the first.
pub fn moment_read(seen: Option<usize>) -> usize
    requires { IfSome seen (λ r. r + 1 < 2 ^ 64) }
    ensures { result ≡ moment_read seen }
{
    match seen {
        None => 0,
        Some(place) => place + 1,
    }
}

fn same(alloc: Global, known: &[bool], standing: &[bool]) -> Result<Moment, AllocError>
    ensures { IfOk result (λ moment. moment
        ≡ record { known = known.now; standing = standing.now }) }
{
    let known = Vec::from_slice(alloc, known)?;
    let standing = Vec::from_slice(alloc, standing)?;
    Ok(Moment::new(known, standing))
}

fn after_write(
    alloc: Global,
    history: &[Happening],
    place: usize,
    now: &Moment,
    read: &Moment,
    key: &MetaKey,
) -> Result<Moment, AllocError>
    requires inside { place < length history.now }
    requires write { is_write_under key.now (slice_get history.now place) ≡ true }
    ensures known { IfOk result (λ after. (v r : Knowledge) → GivesSets history.now now.now.known v
        → GivesSets history.now read.now.known r
        → GivesSets history.now after.known
        (with_set v key.now (union (v key.now) (union (r key.now) (singleton place))))) }
    ensures standing { IfOk result (λ after. (v w : Knowledge)
        → GivesSets history.now now.now.standing v → GivesSets history.now after.known w
        → GivesSets history.now after.standing (with_set v key.now (w key.now))) }
{
    let read = under(alloc, history, read.known(), key)?;
    let mut known = either(alloc, history.len(), now.known(), read.as_slice())?;
    known[place] = true;
    let standing = replaced(alloc, history, now.standing(), key, known.as_slice())?;
    Ok(Moment::new(known, standing))
}

fn after_delivery(
    alloc: Global,
    history: &[Happening],
    now: &Moment,
    sent: usize,
    moments: &[Moment],
) -> Result<Moment, AllocError>
    requires inside { sent + 1 < length moments.now }
    requires sending { is_sending (slice_get history.now sent) ≡ true }
    ensures known { IfOk result (λ after. (v w : Knowledge) (m : ℕ) (k : Key) (d : Marks)
        → slice_get history.now sent ≡ Some (Sent m k) → GivesSets history.now now.now.known v
        → GivesSets history.now (get_or moments.now (sent + 1) d).known w
        → GivesSets history.now after.known (with_set v k (union (v k) (w k)))) }
    ensures standing { IfOk result (λ after. after.standing ≡ now.now.standing) }
{
    match &history[sent] {
        Happening::Wrote { .. } => same(alloc, now.known(), now.standing()),
        Happening::Looked { .. } => same(alloc, now.known(), now.standing()),
        Happening::Sent { key, .. } => {
            let more = under(alloc, history, moments[sent + 1].known(), key)?;
            let known = either(alloc, history.len(), now.known(), more.as_slice())?;
            let standing = Vec::from_slice(alloc, now.standing())?;
            Ok(Moment::new(known, standing))
        }
        Happening::Got { .. } => same(alloc, now.known(), now.standing()),
        Happening::Kept { .. } => same(alloc, now.known(), now.standing()),
        Happening::Restarted { .. } => same(alloc, now.known(), now.standing()),
    }
}

fn after_keeping(
    alloc: Global,
    history: &[Happening],
    now: &Moment,
    key: &MetaKey,
) -> Result<Moment, AllocError>
    ensures known { IfOk result (λ after. after.known ≡ now.now.known) }
    ensures standing { IfOk result (λ after. (v w : Knowledge)
        → GivesSets history.now now.now.standing v → GivesSets history.now now.now.known w
        → GivesSets history.now after.standing (with_set v key.now (w key.now))) }
{
    let known = Vec::from_slice(alloc, now.known())?;
    let standing = replaced(alloc, history, now.standing(), key, now.known())?;
    Ok(Moment::new(known, standing))
}
