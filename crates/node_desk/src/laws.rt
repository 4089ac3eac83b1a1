//! Laws of what stays. The contract of a function is the law; its body does nothing, or reads.

ghost use Rattle.node_desk.specs.Lasting.{KeepsWrites, WritesStay};

use crate::desk::Desk;
use devices::Device;
use node_readers::Naming;
use std::sync::Wait;

/// The number of a life that is begun in a file is greater than those before, and what a life that
/// opened with that file keeps counts all that was counted there. That a life keeps its writes says
/// `each_desk_keeps_its_writes`, and, once it is closed, `Desk::close`.
pub fn acknowledged_writes_stay()
    ensures { WritesStay }
{}

/// After each call of a desk, accepted or refused, and whether its node is stopped or not: each file
/// that a crash of the device may leave counts all that the life opened with, and every write of
/// the journal and of some run to its base.
pub fn each_desk_keeps_its_writes<D: Device + Drop, J: Naming, H: Wait + Drop>(desk: &Desk<D, J, H>)
    ensures { KeepsWrites D.may_leave J.node J.incarnation J.opening
        desk.now.base desk.now.journal desk.now.file.device }
{
    let _out = desk.out; // (for its type)
}
