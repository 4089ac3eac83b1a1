//! A list of frames, as bytes, in which each may share its end with an earlier one.

ghost use Rattle.std.specs.Prelude.{◌≡◌, ◌<◌, ◌^◌, ◌++◌, ◌∷◌, ◌≤◌, [], ℕ, List, get_or, length, take, IfOk, OnOk, OnErr};
ghost use Rattle.world_core.specs.Sharing.{AreShared, HasEndOf, ending, frames_after};

use meta_types::ByteString;
use std::alloc::{AllocError, Global};
use std::collections::BTreeMap;
use std::marker::Model;

/// A frame: bytes of its own, and after them the last `shared` bytes of the frame at the place
/// `of`. It has `len` bytes.
#[derive(Debug, Drop)]
pub(crate) struct Kept {
    own: Vec<u8>,
    of: usize,
    shared: usize,
    len: usize,
}

/// Frames, in the order in which they were added.
///
/// A frame of 128 bytes or more shares its end with the last such frame before it that ends in the
/// same sixteen bytes: as many bytes as the two have in common there. An object is spelled with the
/// newest value of each writer in front, so a later object of a key ends as the earlier one does,
/// as long as no write has read the last value there. After a refusal or a `truncate` less may be
/// shared.
#[derive(Debug, Drop)]
pub struct Frames {
    kept: Vec<Kept>,
    latest: Latest,
}

/// The place of the last frame with each end, among those of `LEAST` bytes or more.
type Latest = BTreeMap<ByteString, usize>;

impl Model for Frames {
    ghost use Rattle.std.specs.Prelude.{ℕ, List, []};
    ghost use Rattle.world_core.specs.Sharing.{AreShared, frames_after};

    ghost Value = { List (List ℕ) };

    ghost view = { λ f. frames_after [] f.kept.items };

    ghost invariant = { λ f. AreShared [] f.kept.items };
}

/// The length of the ends by which frames are looked up.
const END: usize = 16;

/// The least length of a frame that shares bytes. What is kept beside a shorter one would take as
/// much memory as sharing saves.
const LEAST: usize = 128;

impl Frames {
    /// Makes an empty list. It takes no memory; memory for what is kept comes from the allocator.
    pub fn new(alloc: Global) -> Self
        ensures { result ≡ [] }
    {
        Frames {
            kept: Vec::new(alloc),
            latest: BTreeMap::new(alloc),
        }
    }

    /// Returns how many frames there are.
    pub fn len(&self) -> usize
        ensures value { result ≡ length self.now }
        ensures few { result < 2 ^ 63 }
    {
        self.kept.len()
    }

    /// Returns a copy of the bytes of the frame at the place. Fails only when memory runs out.
    pub fn bytes(&self, place: usize) -> Result<Vec<u8>, AllocError>
        requires { place < length self.now }
        ensures { IfOk result (λ bytes. bytes.items ≡ get_or self.now place []) }
    {
        bytes_at(*self.kept.allocator(), self.kept.as_slice(), place)
    }

    /// Adds a frame. Fails only when memory runs out, and then nothing changes.
    pub fn push(&mut self, bytes: &[u8]) -> Result<(), AllocError>
        ensures value { OnOk result (self.new ≡ self.old ++ bytes.now ∷ []) }
        ensures same { OnErr result (self.new ≡ self.old) }
    {
        let alloc = *self.kept.allocator();
        let place = self.kept.len();
        let likely = note(alloc, &mut self.latest, bytes, place)?;
        let (of, shared) = self.common(likely, bytes)?;
        let len = bytes.len();
        let (front, _) = bytes.split_at(len - shared);
        let mut own = Vec::with_capacity(alloc, front.len())?;
        own.extend_from_slice(front)?;
        self.kept.push(Kept {
            own,
            of,
            shared,
            len,
        })?;
        Ok(())
    }

    /// Adds these frames, in order. Fails only when memory runs out, and then nothing changes.
    pub fn extend(&mut self, frames: &[ByteString]) -> Result<(), AllocError>
        ensures value { OnOk result (self.new ≡ self.old ++ frames.now) }
        ensures same { OnErr result (self.new ≡ self.old) }
    {
        let before = self.len();
        let added = self.push_each(frames);
        if added.is_err() {
            self.truncate(before);
        }
        added
    }

    /// Adds these frames. If memory runs out, some may have been added.
    fn push_each(&mut self, frames: &[ByteString]) -> Result<(), AllocError>
        ensures some { (added : List (List ℕ)) × (self.new ≡ self.old ++ added) }
        ensures all { OnOk result (self.new ≡ self.old ++ frames.now) }
    {
        for frame in frames {
            self.push(frame.as_slice())?;
        }
        Ok(())
    }

    /// Returns a frame that has an end in common with these bytes, and how many bytes that end has:
    /// as many as the likely frame has in common with them, or 0 if there is no likely frame.
    fn common(&self, likely: Option<usize>, bytes: &[u8]) -> Result<(usize, usize), AllocError>
        ensures { IfOk result (λ found. HasEndOf self.now found.0 found.1 bytes.now) }
    {
        match likely {
            Some(place) if place < self.kept.len() => {
                let other = self.bytes(place)?;
                let count = common_end(other.as_slice(), bytes);
                Ok((keeper(self.kept.as_slice(), place, count), count))
            }
            _ => Ok((0, 0)),
        }
    }

    /// Keeps only the first `len` frames, or all if there are fewer. It takes no memory.
    pub fn truncate(&mut self, len: usize)
        ensures { self.new ≡ take len self.old }
    {
        self.kept.truncate(len);
    }
}

/// Returns the bytes of the frame at the place: those of its own, and then those that it shares
/// with earlier frames, down the chain.
fn bytes_at(alloc: Global, kept: &[Kept], place: usize) -> Result<Vec<u8>, AllocError>
    requires there { place < length kept.now }
    requires shared { AreShared [] kept.now }
    ensures { IfOk result (λ bytes. bytes.items ≡ get_or (frames_after [] kept.now) place []) }
{
    let mut left = kept[place].len;
    let mut bytes = Vec::with_capacity(alloc, left)?;
    let mut at = place;
    while 0 < left {
        let frame = &kept[at];
        let own = frame.own.as_slice();
        let (_, end) = own.split_at(own.len() - left.saturating_sub(frame.shared));
        bytes.extend_from_slice(end)?;
        left = left.min(frame.shared);
        at = frame.of;
    }
    Ok(bytes)
}

/// Returns the frame from which the last `count` bytes of the frame at the place are to be read. It
/// goes down through the frames that share all of these bytes, to the first that has some as its
/// own. So each step of a later read, except the first, finds bytes, however many frames are alike.
fn keeper(kept: &[Kept], place: usize, count: usize) -> usize
    requires there { place < length kept.now }
    requires shared { AreShared [] kept.now }
    requires within { count ≤ length (get_or (frames_after [] kept.now) place []) }
    ensures { let frames = frames_after [] kept.now in
        HasEndOf frames result count (get_or frames place []) }
{
    let mut at = place;
    while 0 < count {
        let frame = &kept[at];
        if frame.shared < count {
            break;
        }
        at = frame.of;
    }
    at
}

/// Notes that a frame of these bytes stands at the place, if they are long enough to share an end.
/// Returns the place of the last frame with the same end.
fn note(
    alloc: Global,
    latest: &mut Latest,
    bytes: &[u8],
    place: usize,
) -> Result<Option<usize>, AllocError> {
    if bytes.len() < LEAST {
        return Ok(None);
    }
    Ok(latest.insert(end_of(alloc, bytes)?, place)?)
}

/// Returns the last bytes of a frame, by which frames that end alike are found.
fn end_of(alloc: Global, bytes: &[u8]) -> Result<ByteString, AllocError> {
    let (_, end) = bytes.split_at(bytes.len().saturating_sub(END));
    Ok(ByteString::new(end.to_vec(alloc)?))
}

/// Returns how many bytes two lists have in common at their ends.
fn common_end(one: &[u8], other: &[u8]) -> usize
    ensures one { result ≤ length one.now }
    ensures other { result ≤ length other.now }
    ensures same { ending result one.now ≡ ending result other.now }
{
    let most = one.len().min(other.len());
    let mut count = 0;
    while count < most && one[one.len() - 1 - count] == other[other.len() - 1 - count] {
        count += 1;
    }
    count
}
