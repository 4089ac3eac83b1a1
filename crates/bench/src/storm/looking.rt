//! A thread that looks.

use crate::storm::shared::Shared;
use crate::storm::trouble::Trouble;
use dvvset::{Vector, descends};
use meta_types::MetaKey;
use node_lock::{Naming, ReadSeat};
use std::alloc::AllocError;
use std::rt::Clock;
use std::sync::Wait;
use std::thread;
use std::time::Duration;

/// For how many microseconds a reader rests after each round of the keys. If there are few
/// processors, a reader that never rests is mostly stopped inside a look, for which writes wait.
const REST: u64 = 500;

/// What a reader was shown.
#[derive(Drop)]
pub(crate) struct Looks {
    /// How many looks showed no less than those before.
    pub(crate) count: u64,
    pub(crate) trouble: Option<Trouble>,
}

/// Looks at each key once, and again until the time is over.
pub(crate) fn look<J: Naming, R: Wait + Clock>(
    rt: &R,
    shared: &Shared<J>,
    seat: ReadSeat<J>,
) -> (ReadSeat<J>, Looks) {
    let mut seat = seat;
    let mut looks = Looks {
        count: 0,
        trouble: None,
    };
    if let Err(trouble) = look_on(rt, shared, &mut seat, &mut looks.count) {
        looks.trouble = Some(trouble);
    }
    (seat, looks)
}

fn look_on<J: Naming, R: Wait + Clock>(
    rt: &R,
    shared: &Shared<J>,
    seat: &mut ReadSeat<J>,
    count: &mut u64,
) -> Result<(), Trouble> {
    let mut vectors = no_vectors(shared)?;
    let done = look_in_turn(rt, shared, seat, vectors.as_mut_slice(), count);
    drop(vectors);
    done
}

/// Looks in rounds. `vectors` holds for each key the vector that was shown last.
fn look_in_turn<J: Naming, R: Wait + Clock>(
    rt: &R,
    shared: &Shared<J>,
    seat: &mut ReadSeat<J>,
    vectors: &mut [Vector],
    count: &mut u64,
) -> Result<(), Trouble> {
    for _ in rt.forever() {
        learn(rt, shared, seat, vectors)?;
        look_at_each(shared, seat, vectors)?;
        *count = count.saturating_add(vectors.len() as u64);
        if shared.span.is_over(rt) {
            break;
        }
        thread::sleep(rt, Duration::from_micros(REST));
    }
    Ok(())
}

/// Makes an empty vector for each key: nothing was shown so far.
fn no_vectors<J: Naming>(shared: &Shared<J>) -> Result<Vec<Vector>, Trouble> {
    let mut vectors = Vec::new(shared.alloc);
    for _key in shared.keys.iter() {
        vectors.push(Vector::empty(shared.alloc))?;
    }
    Ok(vectors)
}

/// Learns of the write that was posted last. Its vector counts as shown from then on.
fn learn<J: Naming, R: Wait>(
    rt: &R,
    shared: &Shared<J>,
    seat: &mut ReadSeat<J>,
    vectors: &mut [Vector],
) -> Result<(), Trouble> {
    let Some(news) = shared.newest(rt)? else {
        return Ok(());
    };
    seat.learn(&news.revision);
    let noted = note(vectors, news.place, &news.vector);
    drop(news);
    Ok(noted?)
}

/// Takes the vector as shown for the key at this place, unless the one before descends it.
fn note(vectors: &mut [Vector], place: usize, told: &Vector) -> Result<(), AllocError> {
    if let Some(last) = vectors.get_mut(place) {
        if !descends(last, told) {
            *last = told.copy()?;
        }
    }
    Ok(())
}

fn look_at_each<J: Naming>(
    shared: &Shared<J>,
    seat: &mut ReadSeat<J>,
    vectors: &mut [Vector],
) -> Result<(), Trouble> {
    for (key, last) in shared.keys.iter().zip(vectors.iter_mut()) {
        *last = look_at(seat, key, last)?;
    }
    Ok(())
}

/// Returns the vector that is shown under the key. Fails if it doesn't descend the one before.
fn look_at<J: Naming>(
    seat: &mut ReadSeat<J>,
    key: &MetaKey,
    last: &Vector,
) -> Result<Vector, Trouble> {
    let shown = seat.peek(key)?;
    let (values, vector) = (shown.values, shown.vector);
    drop(values);
    if descends(&vector, last) && seat.shown().covers(seat.learnt()) {
        Ok(vector)
    } else {
        Err(Trouble::WentBack)
    }
}
