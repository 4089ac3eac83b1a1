ghost use Rattle.std.specs.Prelude.{◌≡◌, ◌↔◌, ◌++◌, ◌∷◌, ◌^◌, ◌<◌, [], IfOk, OnOk, OnErr, true, false, drop, length, IsTrue, Some};
ghost use mathlib.Core.List.{IsPrefix};
ghost use Rattle.left_right.specs.Sides.{view};
ghost use Rattle.node_readers.specs.Published.{with_all};
ghost use Rattle.node_readers.specs.History.{most_changes};
ghost use Rattle.node_readers.specs.Copies.{IsCopyOf, added_to};
ghost use Rattle.node_readers.specs.Growth.{GrowsBy};

use crate::copies::{Addition, PublishedTable};
use crate::rule::{CopiesOf, Known};
use crate::seat::ReadSeat;
use crate::spread::SpreadTable;
use crate::{Naming, Published, Revision, Tail};
use left_right::writer::Writer;
use meta_store::Store;
use std::alloc::{AllocError, Global};
use std::marker::Model;
use std::sync::Wait;

mod batch;

/// The publisher of a node's changes. It keeps a handle, since its drop waits for the readers that
/// are inside a `peek` or a `peek_with`, which never wait for it.
pub struct Publisher<J: Naming, H: Wait + Drop> {
    alloc: Global,
    // None only inside of a call
    writer: Option<Writer<PublishedTable, Addition, Known, CopiesOf<J>>>,
    none: Revision<J>,
    revision: Revision<J>,
    is_stopped: bool,
    handle: H,
}

impl<J: Naming, H: Wait + Drop> Drop for Publisher<J, H> {
    fn drop(self) {
        let Self {
            alloc: _alloc,
            writer,
            none: _none,
            revision: _revision,
            is_stopped: _,
            handle,
        } = self;
        if let Some(writer) = writer {
            drop(writer.take(&handle));
        }
    }
}

impl<J: Naming, H: Wait + Drop> Model for Publisher<J, H> {
    ghost use Rattle.std.specs.Prelude.{◌≡◌, false, [], drop, IsSomeAnd};
    ghost use Rattle.left_right.specs.Sides.{view as view_of};
    ghost use Rattle.node_readers.specs.Copies.{IsCopyOf};
    ghost use Rattle.node_readers.specs.Growth.{Grows};
    ghost use Rattle.node_readers.specs.Views.{PublisherView};

    ghost Value = { PublisherView };

    ghost view = { λ p. record { list = p.revision; stopped = p.is_stopped } };

    ghost invariant = { λ p. record {
      published : IsSomeAnd p.writer (λ w. (view_of w.desk.place ≡ p.revision)
          × IsCopyOf J.book J.opening p.revision w.desk.shown.value);
      settled : p.is_stopped ≡ false → IsSomeAnd p.writer (λ w. drop w.behind w.log.items ≡ []);
      grown : Grows J.opening p.revision;
      nothing : p.none ≡ [];
    } };
}

impl<J: Naming, H: Wait + Drop> Publisher<J, H> {
    /// Makes a publisher of two copies of the opening table, with places for `readers` readers at a
    /// time. Fails only when memory runs out.
    pub fn new(
        alloc: Global,
        table: &Store,
        revision: Revision<J>,
        readers: usize,
        handle: H,
    ) -> Result<Self, AllocError>
        requires readers { (0 < readers) × (readers < 2 ^ 32) }
        requires opening { table.now ≡ J.opening }
        requires first { revision ≡ [] }
        ensures { IfOk result (λ p. p ≡ record { list = []; stopped = false }) }
    {
        // (for its type)
        let _ = table.len();
        let spread = SpreadTable::of(alloc, table)?;
        let one = PublishedTable::new(alloc, spread.copy(alloc)?, &revision);
        let two = PublishedTable::new(alloc, spread, &revision);
        Ok(Publisher {
            alloc,
            writer: Some(Writer::new(alloc, one, two, readers)?),
            none: revision.again(),
            revision,
            is_stopped: false,
            handle,
        })
    }

    /// Returns a seat that was shown nothing and learnt nothing. Fails when all places are taken,
    /// and when memory runs out.
    pub fn seat(&self) -> Result<ReadSeat<J>, AllocError>
        ensures { IfOk result (λ seat. seat ≡ record { shown = []; learnt = [] }) }
    {
        match &self.writer {
            Some(writer) => ReadSeat::new(self.alloc, writer.factory(), &self.none),
            None => unreachable!(),
        }
    }

    /// Adds the change to the history and shows readers a copy that has it. Returns how far the
    /// history goes then, for a seat to learn. It waits for readers that are still inside a `peek`
    /// or a `peek_with` of the copy before.
    ///
    /// Refused if memory runs out, if the tail isn't at the end of the history, or if that has 2^62
    /// changes. Then readers see what they saw, and every later call that publishes is refused.
    pub fn publish<R: Wait>(
        &mut self,
        rt: &R,
        tail: &Tail<J>,
        change: Published,
    ) -> Result<Revision<J>, AllocError>
        requires grows { GrowsBy (with_all J.opening self.old.list) change }
        ensures revision { IfOk result (λ r. r ≡ self.old.list ++ change ∷ []) }
        ensures list { IfOk result (λ r. self.new.list ≡ r) }
        ensures goes_on { OnOk result (self.new.stopped ≡ false) }
        ensures went_on { OnOk result (self.old.stopped ≡ false) }
        ensures same { OnErr result (self.new.list ≡ self.old.list) }
        ensures stopped { OnErr result (self.new.stopped ≡ true) }
    {
        if self.is_stopped || !self.revision.has_room() {
            self.is_stopped = true;
            return Err(AllocError);
        }
        self.is_stopped = true;
        let Some(writer) = self.writer.take() else {
            unreachable!()
        };
        let mut next = self.revision.again();
        let (writer, told) = show(rt, tail, writer, &mut next, change);
        put_back(rt, &mut self.writer, writer);
        told?;
        self.revision = next.again();
        self.is_stopped = false;
        Ok(next)
    }

    /// Returns how far the history goes: all changes that were published.
    pub fn revision(&self) -> &Revision<J>
        ensures { result.now ≡ self.now.list }
    {
        &self.revision
    }

    /// Returns whether it has stopped publishing, since a call failed.
    pub fn is_stopped(&self) -> bool
        ensures { result ≡ self.now.stopped }
    {
        self.is_stopped
    }

    /// Returns whether all that the seat was shown and learnt of was published.
    pub fn covers(&self, seat: &ReadSeat<J>) -> bool
        ensures { IsTrue result ↔ IsPrefix seat.now.shown self.now.list
            × IsPrefix seat.now.learnt self.now.list }
    {
        self.revision.covers(seat.shown()) && self.revision.covers(seat.learnt())
    }
}

/// Puts the writer into its empty place.
fn put_back<J: Naming, R: Wait>(
    rt: &R,
    place: &mut Option<Writer<PublishedTable, Addition, Known, CopiesOf<J>>>,
    writer: Writer<PublishedTable, Addition, Known, CopiesOf<J>>,
)
    ensures { place.new ≡ Some writer }
{
    if let Some(old) = place.replace(writer) {
        old.take(rt);
    }
}

/// Adds the change to the history, and shows readers a copy that has it.
fn show<J: Naming, R: Wait>(
    rt: &R,
    tail: &Tail<J>,
    mut writer: Writer<PublishedTable, Addition, Known, CopiesOf<J>>,
    next: &mut Revision<J>,
    change: Published,
) -> (
    Writer<PublishedTable, Addition, Known, CopiesOf<J>>,
    Result<(), AllocError>,
)
    requires copy { IsCopyOf J.book J.opening next.old writer.desk.shown.value }
    requires none { drop writer.behind writer.log.items ≡ [] }
    requires room { length next.old < most_changes }
    requires grows { GrowsBy (with_all J.opening next.old) change }
    ensures same { OnErr result.1 (result.0.desk.shown.value ≡ writer.desk.shown.value) }
    ensures same_view { OnErr result.1 (view result.0.desk.place ≡ view writer.desk.place) }
    ensures next { OnOk result.1 (next.new ≡ next.old ++ change ∷ []) }
    ensures copy { OnOk result.1 (IsCopyOf J.book J.opening next.new result.0.desk.shown.value) }
    ensures known { OnOk result.1 (view result.0.desk.place ≡ next.new) }
    ensures none { OnOk result.1 (drop result.0.behind result.0.log.items ≡ []) }
{
    match append(tail, &mut writer, next, change) {
        Ok(()) => writer.publish_as::<CopiesOf<J>, R>(rt),
        Err(error) => (writer, Err(error)),
    }
}

/// Adds the change to the history, and to what the copies are to take in.
fn append<J: Naming>(
    tail: &Tail<J>,
    writer: &mut Writer<PublishedTable, Addition, Known, CopiesOf<J>>,
    next: &mut Revision<J>,
    change: Published,
) -> Result<(), AllocError>
    requires room { length next.old < most_changes }
    ensures desk { writer.new.desk ≡ writer.old.desk }
    ensures pending { OnOk result (drop writer.new.behind writer.new.log.items
        ≡ drop writer.old.behind writer.old.log.items ++ added_to J.book next.old change ∷ []) }
    ensures next { OnOk result (next.new ≡ next.old ++ change ∷ []) }
{
    if !next.add(tail, &change) {
        return Err(AllocError);
    }
    match writer.append(Addition::new(change, next)) {
        Ok(()) => Ok(()),
        Err(_) => Err(AllocError),
    }
}
