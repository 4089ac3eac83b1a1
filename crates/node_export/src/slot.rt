//! A hosted node as a value that crosses to C: a pointer that Rust and C hold and never look into.

ghost use Rattle.std.specs.Prelude.{◌≡◌, Option, Some, None, IsSome, MatchOption, is_some};
ghost use Rattle.node_hosted.specs.Hosting.{HostedParts};
ghost use Rattle.node_export.specs.Held.{held_owns};
ghost use Rattle.node_export.specs.Lending.{LendsTo, ShowsTo};

use crate::parts::Parts;
use node_hosted::HostedNode;
use std::alloc::Global;
use std::marker::Model;
use std::mem::replace;
use std::ptr::null_mut;

/// A node on the heap, or nothing. It may be dropped only if it owns nothing.
#[repr(C)]
#[derive(Drop)]
pub struct Handle {
    ptr: *mut u8,
    alloc: Global,
    pub ghost held: { Option HostedParts },
}

impl Model for Handle {
    ghost also_owns = { λ h. held_owns h.alloc h.ptr h.held };
}

impl Handle {
    fn empty(alloc: Global) -> Handle
        ensures { result.held ≡ None }
    {
        Handle {
            ptr: null_mut(),
            alloc,
        }
    }

    fn of_parts(parts: Parts<HostedNode, Global>) -> Handle
        ensures { result.held ≡ Some parts.value }
    {
        let Parts { ptr, alloc } = parts;
        Handle {
            ptr: ptr as *mut u8,
            alloc,
        }
    }

    fn into_parts(self) -> Parts<HostedNode, Global>
        requires { IsSome self.held }
        ensures { Some result.value ≡ self.held }
    {
        let Handle { ptr, alloc } = self;
        Parts {
            ptr: ptr as *mut HostedNode,
            alloc,
        }
    }
}

/// A place for one node, which the host keeps and never looks into. It begins as zeros: `full` is
/// false.
#[repr(C)]
pub struct Slot {
    full: bool,
    pub handle: Handle,
    ghost fits: { full ≡ is_some handle.held },
}

impl Slot {
    /// Takes the node out, if there is one.
    pub fn take(&mut self, alloc: Global) -> Option<Box<HostedNode>>
        ensures taken { MatchOption result (self.old.handle.held ≡ None)
            (λ b. self.old.handle.held ≡ Some b.value) }
        ensures left { self.new.handle.held ≡ None }
    {
        let blank = Slot {
            full: false,
            handle: Handle::empty(alloc),
        };
        replace(self, blank).into_box()
    }

    fn into_box(self) -> Option<Box<HostedNode>>
        ensures { MatchOption result (self.handle.held ≡ None)
            (λ b. self.handle.held ≡ Some b.value) }
    {
        let Slot { full, handle } = self;
        if full {
            Some(handle.into_parts().into_box())
        } else {
            None
        }
    }

    /// Lends the node to a call that may change it, if there is one, and returns what that answers.
    ///
    /// No contract tells what the call writes to variables that it borrows: let it answer that.
    pub(crate) fn with<R, F: FnOnce(&mut HostedNode) -> R>(
        &mut self,
        alloc: Global,
        does: F,
    ) -> Option<R>
        requires { F.IsAlwaysCallable does }
        ensures { LendsTo F.FnOnce does self.old.handle.held result self.new.handle.held }
    {
        let mut node = self.take(alloc)?;
        let answer = does(&mut node);
        self.put(node);
        Some(answer)
    }

    /// Shows the node to a call, if there is one, and returns what that answers.
    ///
    /// The call is by reference: only so the contract tells what it writes to variables that it
    /// borrows, such as the program's buffer.
    pub(crate) fn show<R, F: FnMut(&HostedNode) -> R>(
        &mut self,
        alloc: Global,
        tells: &mut F,
    ) -> Option<R>
        requires { F.IsAlwaysCallable tells.old }
        ensures same { self.new.handle.held ≡ self.old.handle.held }
        ensures shows { ShowsTo F.FnMut tells.old self.old.handle.held result tells.new }
    {
        let node = self.take(alloc)?;
        let answer = tells(&node);
        self.put(node);
        Some(answer)
    }

    /// Puts a node in, and frees the one that was there.
    pub fn put(&mut self, node: Box<HostedNode>)
        ensures { self.new.handle.held ≡ Some node.value }
    {
        *self = Slot {
            full: true,
            handle: Handle::of_parts(Parts::of(node)),
        };
    }
}

impl Drop for Slot {
    fn drop(self) {
        drop(self.into_box());
    }
}
