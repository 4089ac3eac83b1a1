//! Several changes, of which readers are shown all at once.

ghost use Rattle.std.specs.Prelude.{◌≡◌, ◌+◌, ◌≤◌, ◌++◌, [], IfOk, OnOk, OnErr, true, false, drop, length};
ghost use Rattle.left_right.specs.Sides.{view};
ghost use Rattle.node_readers.specs.Published.{with_all};
ghost use Rattle.node_readers.specs.History.{most_changes};
ghost use Rattle.node_readers.specs.Copies.{IsCopyOf, all_added_to};
ghost use Rattle.node_readers.specs.Growth.{GrowsByAll};

use super::{Publisher, append, put_back};
use crate::copies::{Addition, PublishedTable};
use crate::rule::{CopiesOf, Known};
use crate::{Naming, Published, Revision, Tail};
use left_right::writer::Writer;
use std::alloc::AllocError;
use std::sync::Wait;

impl<J: Naming, H: Wait + Drop> Publisher<J, H> {
    /// Adds the changes to the history, in order, and shows readers one copy that has them all.
    /// Returns how far the history goes then, for a seat to learn. If there are none, it shows
    /// nothing. It waits for readers that are still inside a `peek` or a `peek_with` of the copy
    /// before.
    ///
    /// Refused if memory runs out, if the tail isn't at the end of the history, or if that has no
    /// room for all of them below 2^62, and then none is added. Then readers see what they saw, and
    /// every later call that publishes is refused.
    pub fn publish_all<R: Wait>(
        &mut self,
        rt: &R,
        tail: &Tail<J>,
        changes: Vec<Published>,
    ) -> Result<Revision<J>, AllocError>
        requires grows { GrowsByAll (with_all J.opening self.old.list) changes.items }
        ensures revision { IfOk result (λ r. r ≡ self.old.list ++ changes.items) }
        ensures list { IfOk result (λ r. self.new.list ≡ r) }
        ensures goes_on { OnOk result (self.new.stopped ≡ false) }
        ensures went_on { OnOk result (self.old.stopped ≡ false) }
        ensures same { OnErr result (self.new.list ≡ self.old.list) }
        ensures stopped { OnErr result (self.new.stopped ≡ true) }
    {
        if self.is_stopped || !self.revision.has_room_for(changes.len()) {
            self.is_stopped = true;
            return Err(AllocError);
        }
        if changes.is_empty() {
            return Ok(self.revision.again());
        }
        self.is_stopped = true;
        let Some(writer) = self.writer.take() else {
            unreachable!()
        };
        let mut next = self.revision.again();
        let (writer, told) = show_all(rt, tail, writer, &mut next, changes);
        put_back(rt, &mut self.writer, writer);
        told?;
        self.revision = next.again();
        self.is_stopped = false;
        Ok(next)
    }
}

/// Adds the changes to the history, in order, and shows readers a copy that has them all.
fn show_all<J: Naming, R: Wait>(
    rt: &R,
    tail: &Tail<J>,
    mut writer: Writer<PublishedTable, Addition, Known, CopiesOf<J>>,
    next: &mut Revision<J>,
    changes: Vec<Published>,
) -> (
    Writer<PublishedTable, Addition, Known, CopiesOf<J>>,
    Result<(), AllocError>,
)
    requires copy { IsCopyOf J.book J.opening next.old writer.desk.shown.value }
    requires none { drop writer.behind writer.log.items ≡ [] }
    requires room { length next.old + length changes.items ≤ most_changes }
    requires grows { GrowsByAll (with_all J.opening next.old) changes.items }
    ensures same { OnErr result.1 (result.0.desk.shown.value ≡ writer.desk.shown.value) }
    ensures same_view { OnErr result.1 (view result.0.desk.place ≡ view writer.desk.place) }
    ensures next { OnOk result.1 (next.new ≡ next.old ++ changes.items) }
    ensures copy { OnOk result.1 (IsCopyOf J.book J.opening next.new result.0.desk.shown.value) }
    ensures known { OnOk result.1 (view result.0.desk.place ≡ next.new) }
    ensures none { OnOk result.1 (drop result.0.behind result.0.log.items ≡ []) }
{
    match append_all(tail, &mut writer, next, changes) {
        Ok(()) => writer.publish_as::<CopiesOf<J>, R>(rt),
        Err(error) => (writer, Err(error)),
    }
}

/// Adds the changes to the history, in order, and each to what the copies are to take in.
fn append_all<J: Naming>(
    tail: &Tail<J>,
    writer: &mut Writer<PublishedTable, Addition, Known, CopiesOf<J>>,
    next: &mut Revision<J>,
    changes: Vec<Published>,
) -> Result<(), AllocError>
    requires room { length next.old + length changes.items ≤ most_changes }
    ensures desk { writer.new.desk ≡ writer.old.desk }
    ensures pending { OnOk result (drop writer.new.behind writer.new.log.items
        ≡ drop writer.old.behind writer.old.log.items
        ++ all_added_to J.book next.old changes.items) }
    ensures next { OnOk result (next.new ≡ next.old ++ changes.items) }
{
    for change in changes {
        append(tail, writer, next, change)?;
    }
    Ok(())
}
