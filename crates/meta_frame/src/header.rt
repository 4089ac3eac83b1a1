//! The header of a frame.

ghost use Rattle.std.specs.Prelude.{◌≡◌, ◌≤◌, ◌+◌, ◌++◌, List, ℕ, length, None, Some, Ok, IfOk, IfErr, IfNone, OnOk};
ghost use Rattle.std.specs.Int.{w8, w16, w32, w64};
ghost use Rattle.meta_types.specs.First.{first_that_applies};
ghost use Rattle.meta_frame.specs.Frame.{Spells, header_tests, len_in, number_in};
ghost use Rattle.meta_frame.specs.Header.{front_tests, header_in, header_of, length_tests, node_tests};
ghost use Rattle.meta_frame.specs.Reading.{IsHeader};
ghost use Rattle.meta_frame.specs.declared.message.Frame.{Frame};

use crate::fault::FrameFault;
use crate::kinds::is_known;
use meta_types::NodeId;
use meta_types::node::MAX_NODES;

/// The most bytes of a frame, its header among them.
pub const MAX_FRAME_LEN: usize = 16_777_216;

/// The bytes of a header.
pub const HEADER_LEN: usize = 20;

/// The first two bytes of a frame.
const MAGIC: u16 = 0x5054;

/// The version of frames, their third byte.
pub const VERSION: u8 = 2;

/// What the first twenty bytes of a frame say: all that is needed to cut a stream of frames and to
/// pass each on.
#[derive(Clone, Copy, Debug, PartialEq, Eq)]
pub struct Header {
    /// The number of the message's kind, from 1 to 20.
    pub kind: u8,
    /// The sender.
    pub from: NodeId,
    /// The addressee, another node.
    pub to: NodeId,
    /// The number of the frame in its sender's life, from 1. Receivers ignore it.
    pub number: u64,
    /// How many bytes follow the header.
    pub body_len: u32,
}

/// Returns the header at the front of bytes, whatever follows it. It takes no memory. Otherwise the
/// first refusal of `decode` that applies, without its tests of what follows: 10 `Short` below
/// twenty bytes, 11 `BadMagic`, 12 `BadVersion`, 13 `BadKind`, 14 `TooLong`, 15 `BadBody` at 4 for
/// the sender and at 6 for the addressee.
pub fn read_header(bytes: &[u8]) -> Result<Header, FrameFault>
    ensures value { IfOk result (λ header. header ≡ header_in bytes.now) }
    ensures accepted { OnOk result
        (first_that_applies (front_tests bytes.now ++ node_tests bytes.now) ≡ None) }
    ensures refused { IfErr result (λ fault.
        first_that_applies (front_tests bytes.now ++ node_tests bytes.now) ≡ Some fault) }
    ensures of_frame { (frame : Frame) (front rest : List ℕ) → bytes.now ≡ front ++ rest
        → Spells frame front → result ≡ Ok (header_of frame) }
{
    if let Some(fault) = front_fault(bytes) {
        return Err(fault);
    }
    if let Some(fault) = node_fault(bytes) {
        return Err(fault);
    }
    Ok(header_at(bytes))
}

/// Returns the header that these bytes are.
pub(crate) fn header_at(bytes: &[u8]) -> Header
    requires { IsHeader bytes.now }
    ensures { result ≡ header_in bytes.now }
{
    Header {
        kind: u8_at(bytes, 3),
        from: NodeId::new(u16_at(bytes, 4)).unwrap(),
        to: NodeId::new(u16_at(bytes, 6)).unwrap(),
        number: u64_at(bytes, 8),
        body_len: u32_at(bytes, 16),
    }
}

/// Returns the refusal of the first test of the header that applies.
pub(crate) fn header_fault(bytes: &[u8]) -> Option<FrameFault>
    ensures value { result ≡ first_that_applies (header_tests bytes.now) }
    ensures right { IfNone result (IsHeader bytes.now) }
{
    if let Some(fault) = front_fault(bytes) {
        return Some(fault);
    }
    if let Some(fault) = length_fault(bytes) {
        return Some(fault);
    }
    node_fault(bytes)
}

/// Returns the refusal of the first test of the twenty bytes that applies, without the tests of the
/// nodes.
fn front_fault(bytes: &[u8]) -> Option<FrameFault>
    ensures value { result ≡ first_that_applies (front_tests bytes.now) }
    ensures long { IfNone result (20 ≤ length bytes.now) }
{
    if bytes.len() < HEADER_LEN {
        Some(FrameFault::Short)
    } else if u16_at(bytes, 0) != MAGIC {
        Some(FrameFault::BadMagic)
    } else if u8_at(bytes, 2) != VERSION {
        Some(FrameFault::BadVersion)
    } else if !is_known(u8_at(bytes, 3)) {
        Some(FrameFault::BadKind)
    } else if frame_len(bytes) > MAX_FRAME_LEN as u64 {
        Some(FrameFault::TooLong)
    } else {
        None
    }
}

/// Returns how many bytes the frame has, as its header says.
fn frame_len(bytes: &[u8]) -> u64
    requires { 20 ≤ length bytes.now }
    ensures { result ≡ 20 + len_in bytes.now }
{
    HEADER_LEN as u64 + u64::from(u32_at(bytes, 16))
}

/// Returns the refusal of fewer bytes than the header names, or of more.
fn length_fault(bytes: &[u8]) -> Option<FrameFault>
    requires { 20 ≤ length bytes.now }
    ensures { result ≡ first_that_applies (length_tests bytes.now) }
{
    let whole = frame_len(bytes);
    if (bytes.len() as u64) < whole {
        Some(FrameFault::Short)
    } else if bytes.len() as u64 > whole {
        Some(FrameFault::LeftOver)
    } else {
        None
    }
}

/// Returns the refusal of a number that is no node's, or of an addressee that is the sender.
fn node_fault(bytes: &[u8]) -> Option<FrameFault>
    requires { 20 ≤ length bytes.now }
    ensures value { result ≡ first_that_applies (node_tests bytes.now) }
    ensures right { IfNone result (IsHeader bytes.now) }
{
    let (from, to) = (u16_at(bytes, 4), u16_at(bytes, 6));
    if from >= MAX_NODES {
        Some(FrameFault::BadBody { at: 4 })
    } else if to >= MAX_NODES || to == from {
        Some(FrameFault::BadBody { at: 6 })
    } else {
        None
    }
}

pub(crate) fn u8_at(bytes: &[u8], at: usize) -> u8
    requires { at + 1 ≤ length bytes.now }
    ensures { result ≡ number_in w8 at bytes.now }
{
    u8::from_be_bytes([bytes[at]])
}

fn u16_at(bytes: &[u8], at: usize) -> u16
    requires { at + 2 ≤ length bytes.now }
    ensures { result ≡ number_in w16 at bytes.now }
{
    u16::from_be_bytes([bytes[at], bytes[at + 1]])
}

fn u32_at(bytes: &[u8], at: usize) -> u32
    requires { at + 4 ≤ length bytes.now }
    ensures { result ≡ number_in w32 at bytes.now }
{
    u32::from_be_bytes([bytes[at], bytes[at + 1], bytes[at + 2], bytes[at + 3]])
}

fn u64_at(bytes: &[u8], at: usize) -> u64
    requires { at + 8 ≤ length bytes.now }
    ensures { result ≡ number_in w64 at bytes.now }
{
    u64::from_be_bytes([
        bytes[at],
        bytes[at + 1],
        bytes[at + 2],
        bytes[at + 3],
        bytes[at + 4],
        bytes[at + 5],
        bytes[at + 6],
        bytes[at + 7],
    ])
}
