ghost use Rattle.std.specs.Prelude.{◌≡◌, ◌+◌, ◌*◌, ◌<◌, ◌≤◌, ℕ, List, length, IfOk, IsOk};
ghost use Rattle.meta_types.specs.Head.{IsHeadOf, byte_at, four_from};
ghost use Rattle.meta_types.specs.Order.{bytes_cmp};

use smallvec::SmallVec;
use std::alloc::{AllocError, Global};
use std::cmp::Ordering;
use std::marker::Model;

/// The most bytes of a byte string that stand in it, without an allocation of their own.
pub const SHORT_LEN: usize = 16;

/// How many bytes of a byte string its head holds.
const HEAD_LEN: usize = 8;

/// A byte string that contracts see as the list of its bytes, so that names and values are compared
/// lawfully, in byte order.
///
/// Its first eight bytes stand beside it as one number, the head, by which most comparisons end: a
/// search of a map reads the bytes of a key only if the heads are equal.
#[derive(Debug, Drop)]
pub struct ByteString {
    bytes: SmallVec<u8, SHORT_LEN>,
    head: u64,
}

impl Model for ByteString {
    ghost use Rattle.std.specs.Prelude.{ℕ, List};
    ghost use Rattle.meta_types.specs.Head.{IsHeadOf};

    ghost Value = { List ℕ };

    ghost view = { λ s. s.bytes.items };

    ghost invariant = { λ s. IsHeadOf s.head s.bytes.items };
}

/// Returns the byte at this place, or 0 past the end.
fn byte_at(bytes: &[u8], at: usize) -> u8
    ensures { result ≡ byte_at bytes.now at }
{
    bytes.get(at).copied().unwrap_or(0)
}

/// Returns four bytes as one number, in big-endian order.
fn number_of(a: u8, b: u8, c: u8, d: u8) -> u64
    ensures value { result ≡ ((a * 256 + b) * 256 + c) * 256 + d }
    ensures small { result < 4294967296 }
{
    (u64::from(a) * 256 + u64::from(b)) * 65_536 + u64::from(c) * 256 + u64::from(d)
}

/// Returns the four bytes from this place on as one number, in big-endian order.
fn four_from(bytes: &[u8], at: usize) -> u64
    requires { at < 8 }
    ensures value { result ≡ four_from bytes.now at }
    ensures small { result < 4294967296 }
{
    if at + 4 <= bytes.len() {
        return number_of(bytes[at], bytes[at + 1], bytes[at + 2], bytes[at + 3]);
    }
    let (a, b) = (byte_at(bytes, at), byte_at(bytes, at + 1));
    number_of(a, b, byte_at(bytes, at + 2), byte_at(bytes, at + 3))
}

/// Returns the first eight bytes as one number, in big-endian order.
fn head_of(bytes: &[u8]) -> u64
    ensures { IsHeadOf result bytes.now }
{
    four_from(bytes, 0) * 4_294_967_296 + four_from(bytes, 4)
}

/// Returns the order of two byte strings that have these heads. Bytes are read only if the heads
/// are equal and both have more than eight, and then those past the heads.
fn order(mine: &[u8], others: &[u8], head: u64, other_head: u64) -> Ordering
    requires { IsHeadOf head mine.now × IsHeadOf other_head others.now }
    ensures { result ≡ bytes_cmp mine.now others.now }
{
    if head != other_head {
        return head.cmp(&other_head);
    }
    if mine.len() <= HEAD_LEN || others.len() <= HEAD_LEN {
        return mine.len().cmp(&others.len());
    }
    mine[HEAD_LEN..].cmp(&others[HEAD_LEN..])
}

impl ByteString {
    /// Makes a byte string of these bytes. It takes no memory.
    pub fn new(bytes: Vec<u8>) -> Self
        ensures { result ≡ bytes.items }
    {
        let head = head_of(bytes.as_slice());
        let bytes = if bytes.len() <= SHORT_LEN {
            SmallVec::from_slice(*bytes.allocator(), bytes.as_slice()).unwrap()
        } else {
            SmallVec::from_vec(bytes)
        };
        ByteString { bytes, head }
    }

    /// Makes a byte string of copies of these bytes. It takes memory if there are more than
    /// `SHORT_LEN` of them.
    #[inline(always)]
    pub fn from_slice(alloc: Global, bytes: &[u8]) -> Result<Self, AllocError>
        ensures value { IfOk result (λ string. string ≡ bytes.now) }
        ensures short { length bytes.now ≤ 16 → IsOk result }
    {
        let head = head_of(bytes);
        Ok(ByteString {
            bytes: SmallVec::from_slice(alloc, bytes)?,
            head,
        })
    }

    /// Returns the bytes as a vector. It takes memory if there are at most `SHORT_LEN` of them.
    pub fn into_vec(self) -> Result<Vec<u8>, AllocError>
        ensures { IfOk result (λ bytes. bytes.items ≡ self) }
    {
        Ok(self.bytes.into_vec()?)
    }

    pub fn as_slice(&self) -> &[u8]
        ensures { result.now ≡ self.now }
    {
        self.bytes.as_slice()
    }

    /// Returns a copy, which takes memory if there are more than `SHORT_LEN` bytes. The bytes are
    /// copied as one block; `clone` of a vector goes from element to element.
    pub fn copy(&self) -> Result<Self, AllocError>
        ensures { IfOk result (λ copy. copy ≡ self.now) }
    {
        Ok(ByteString {
            bytes: SmallVec::from_slice(*self.bytes.allocator(), self.bytes.as_slice())?,
            head: self.head,
        })
    }
}

impl PartialEq for ByteString {
    ghost use Rattle.std.specs.Prelude.{nat_eq};
    ghost use lib.Pointwise.{pointwise};
    ghost use Rattle.std.proofs.Common.{rules};
    ghost use Rattle.std.specs.Cmp.Rules.{comparing};

    ghost eq = { pointwise nat_eq };

    ghost laws = { Prim.search (comparing, rules) };

    fn eq(&self, other: &ByteString) -> bool {
        let (mine, others) = (self.bytes.as_slice(), other.bytes.as_slice());
        order(mine, others, self.head, other.head).is_eq()
    }
}

impl Eq for ByteString {
    ghost use Rattle.std.proofs.Common.{rules};
    ghost use Rattle.std.specs.Cmp.Rules.{comparing};

    ghost laws = { Prim.search (comparing, rules) };
}

impl Ord for ByteString {
    ghost use Rattle.std.specs.Prelude.{◌≡◌, ◌↔◌};
    ghost use Rattle.std.specs.declared.cmp.Ordering.TheVariants.{Less};
    ghost use Rattle.std.proofs.Common.{rules};
    ghost use Rattle.std.specs.Cmp.Rules.{comparing};
    ghost use Rattle.meta_types.specs.Order.{bytes_cmp, BytesBefore};

    ghost cmp = { bytes_cmp };

    ghost total = { Prim.search (comparing, rules) };

    ghost matches_partial_cmp = { Prim.search (comparing, rules) };

    ghost matches_eq = { Prim.search (comparing, rules) };

    fn cmp(&self, other: &ByteString) -> Ordering
        ensures value { result ≡ bytes_cmp self.now other.now }
        ensures before { (result ≡ Less) ↔ BytesBefore self.now other.now }
    {
        let (mine, others) = (self.bytes.as_slice(), other.bytes.as_slice());
        order(mine, others, self.head, other.head)
    }
}

impl PartialOrd for ByteString {
    ghost use Rattle.std.specs.Ordering.{as_partial_cmp};
    ghost use Rattle.std.specs.Cmp.{partial_order_from_own_ties};
    ghost use Rattle.std.specs.Cmp.Rules.{comparing};
    ghost use Rattle.std.proofs.Common.{rules};
    ghost use Rattle.meta_types.specs.Order.{bytes_cmp};

    ghost partial_cmp = { as_partial_cmp bytes_cmp };

    ghost laws = { partial_order_from_own_ties
        (Prim.search (comparing, rules)) (Prim.search (comparing, rules)) };

    fn partial_cmp(&self, other: &ByteString) -> Option<Ordering> {
        Some(self.cmp(other))
    }
}
