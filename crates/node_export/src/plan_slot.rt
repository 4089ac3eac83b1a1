//! A plan as a value that crosses to C, as `slot` has a node.

ghost use Rattle.std.specs.Prelude.{◌≡◌, Option, Some, None, IsSome, MatchOption, is_some};
ghost use Rattle.driver.specs.Plan.{PlanParts};
ghost use Rattle.node_export.specs.Held.{plan_owns};

use crate::parts::Parts;
use driver::Plan;
use std::alloc::Global;
use std::marker::Model;
use std::mem::replace;
use std::ptr::null_mut;

/// A plan on the heap, or nothing. It may be dropped only if it owns nothing.
#[repr(C)]
#[derive(Drop)]
pub struct PlanHandle {
    ptr: *mut u8,
    alloc: Global,
    pub ghost held: { Option PlanParts },
}

impl Model for PlanHandle {
    ghost also_owns = { λ h. plan_owns h.alloc h.ptr h.held };
}

impl PlanHandle {
    fn empty(alloc: Global) -> PlanHandle
        ensures { result.held ≡ None }
    {
        PlanHandle {
            ptr: null_mut(),
            alloc,
        }
    }

    fn of_parts(parts: Parts<Plan, Global>) -> PlanHandle
        ensures { result.held ≡ Some parts.value }
    {
        let Parts { ptr, alloc } = parts;
        PlanHandle {
            ptr: ptr as *mut u8,
            alloc,
        }
    }

    fn into_parts(self) -> Parts<Plan, Global>
        requires { IsSome self.held }
        ensures { Some result.value ≡ self.held }
    {
        let PlanHandle { ptr, alloc } = self;
        Parts {
            ptr: ptr as *mut Plan,
            alloc,
        }
    }
}

/// A place for one plan, which the host keeps and never looks into. It begins as zeros: `full` is
/// false.
#[repr(C)]
pub struct PlanSlot {
    full: bool,
    pub handle: PlanHandle,
    ghost fits: { full ≡ is_some handle.held },
}

impl PlanSlot {
    /// Takes the plan out, if there is one.
    pub fn take(&mut self, alloc: Global) -> Option<Box<Plan>>
        ensures taken { MatchOption result (self.old.handle.held ≡ None)
            (λ b. self.old.handle.held ≡ Some b.value) }
        ensures left { self.new.handle.held ≡ None }
    {
        let blank = PlanSlot {
            full: false,
            handle: PlanHandle::empty(alloc),
        };
        replace(self, blank).into_box()
    }

    fn into_box(self) -> Option<Box<Plan>>
        ensures { MatchOption result (self.handle.held ≡ None)
            (λ b. self.handle.held ≡ Some b.value) }
    {
        let PlanSlot { full, handle } = self;
        if full {
            Some(handle.into_parts().into_box())
        } else {
            None
        }
    }

    /// Puts a plan in, and frees the one that was there.
    pub fn put(&mut self, plan: Box<Plan>)
        ensures { self.new.handle.held ≡ Some plan.value }
    {
        *self = PlanSlot {
            full: true,
            handle: PlanHandle::of_parts(Parts::of(plan)),
        };
    }
}

impl Drop for PlanSlot {
    fn drop(self) {
        drop(self.into_box());
    }
}
