ghost use Rattle.std.specs.Prelude.{◌≡◌, [], IfOk, IfErr, OnOk};
ghost use Rattle.std.specs.Fn.{FnOnceReturnsAt};
ghost use mathlib.Core.List.{IsPrefix};
ghost use Rattle.dvvset.specs.Clock.{join, values_of};
ghost use Rattle.left_right.specs.Sides.{view};
ghost use Rattle.meta_store.specs.Table.{object_at};
ghost use Rattle.node_readers.specs.Published.{with_all};
ghost use Rattle.node_readers.specs.Copies.{IsCopy};
ghost use Rattle.node_readers.specs.Growth.{DescendsEach};
ghost use Rattle.node_readers.specs.Views.{RefusesCopy, RefusesLook};
ghost use Rattle.node_readers.specs.declared.fault.PeekFault.TheVariants.{Stopped};

use crate::copies::PublishedTable;
use crate::fault::PeekFault;
use crate::rule::{CopiesOf, Known};
use crate::shown::{Shown, shown_of};
use crate::{Naming, Revision};
use dvvset::Entries;
use left_right::reader::{Factory, Reader};
use meta_types::MetaKey;
use std::alloc::{AllocError, Global};
use std::marker::Model;

/// The seat of a reader of a node's table. It knows the changes that it was shown, and those that
/// it learnt of. It may go to another thread.
#[derive(Drop)]
pub struct ReadSeat<J: Naming> {
    alloc: Global,
    // None only inside of a call
    reader: Option<Reader<PublishedTable, Known, CopiesOf<J>>>,
    shown: Revision<J>,
    learnt: Revision<J>,
}

impl<J: Naming> Model for ReadSeat<J> {
    ghost use Rattle.std.specs.Prelude.{◌≡◌, IsSomeAnd};
    ghost use Rattle.left_right.specs.Sides.{view as view_of};
    ghost use Rattle.node_readers.specs.Views.{SeatView};

    ghost Value = { SeatView };

    ghost view = { λ s. record { shown = s.shown; learnt = s.learnt } };

    ghost invariant = { λ s. IsSomeAnd s.reader (λ r. view_of r.place ≡ s.shown) };
}

impl<J: Naming> ReadSeat<J> {
    /// Returns a seat that was shown nothing and learnt nothing.
    pub(crate) fn new(
        alloc: Global,
        factory: &Factory<PublishedTable, Known, CopiesOf<J>>,
        none: &Revision<J>,
    ) -> Result<Self, AllocError>
        requires { none.now ≡ [] }
        ensures { IfOk result (λ seat. seat ≡ record { shown = []; learnt = [] }) }
    {
        Ok(ReadSeat {
            alloc,
            reader: Some(factory.reader()?),
            shown: none.again(),
            learnt: none.again(),
        })
    }

    /// Returns how far the history went when this seat looked last; before its first look, the
    /// revision has no change.
    pub fn shown(&self) -> &Revision<J>
        ensures { result.now ≡ self.now.shown }
    {
        &self.shown
    }

    /// Returns how far the history goes by what this seat learnt.
    pub fn learnt(&self) -> &Revision<J>
        ensures { result.now ≡ self.now.learnt }
    {
        &self.learnt
    }

    /// Learns of the changes of a revision, which a call that published has returned: from now on
    /// this seat shows nothing that lacks one of them. It takes no memory, never waits and never
    /// fails.
    pub fn learn(&mut self, revision: &Revision<J>)
        ensures shown { self.new.shown ≡ self.old.shown }
        ensures before { IsPrefix self.old.learnt self.new.learnt }
        ensures revision { IsPrefix revision.now self.new.learnt }
    {
        self.learnt = self.learnt.later(revision);
    }

    /// Returns what stands under the key in the table that is published: the opening table with the
    /// first changes put in, never fewer than this seat was shown before or learnt of. It takes
    /// memory only for values and vector, which are copies. It never waits, even while a change is
    /// being published.
    ///
    /// Refused with 34 `Stopped` if the publisher is gone, and then nothing more counts as shown,
    /// or if the seat learnt of a change that the published copy lacks, which no revision of a
    /// publisher names; and with 99 `Memory`. A refused look may have found that the history went
    /// on, and then that counts as shown.
    pub fn peek(&mut self, key: &MetaKey) -> Result<Shown, PeekFault>
        ensures later { IsPrefix self.old.shown self.new.shown }
        ensures learnt { self.new.learnt ≡ self.old.learnt }
        ensures values { IfOk result (λ it. it.values.items
            ≡ values_of (object_at (with_all J.opening self.new.shown) key.now)) }
        ensures vector { IfOk result (λ it. it.vector
            ≡ join (object_at (with_all J.opening self.new.shown) key.now)) }
        ensures holds_learnt { OnOk result (IsPrefix self.old.learnt self.new.shown) }
        ensures descends { IfOk result
            (λ it. DescendsEach J.opening self.new.shown key.now it.vector) }
        ensures refused { IfErr result
            (RefusesLook self.old.learnt self.old.shown self.new.shown) }
    {
        let alloc = self.alloc;
        let shown = self.peek_with(key, |object| shown_of(alloc, object))?;
        Ok(shown?)
    }

    /// Lends what stands under the key to `look`, and returns what that returned. This is the
    /// object whose values and vector `peek` shows, or the absent object if nothing is held.
    /// Nothing is copied: it takes no memory but what `look` takes, and never waits but as `look`
    /// does.
    ///
    /// `look` is called once, inside of the look, so the publisher waits for it. Let it be short,
    /// and let it call nothing of the node: a call that publishes, made there, would wait for
    /// itself.
    ///
    /// Refused with 34 `Stopped`, where `peek` is, and then `look` isn't called.
    pub fn peek_with<T, F: FnOnce(&Entries) -> T>(
        &mut self,
        key: &MetaKey,
        look: F,
    ) -> Result<T, PeekFault>
        requires callable { F.IsAlwaysCallable look }
        ensures later { IsPrefix self.old.shown self.new.shown }
        ensures learnt { self.new.learnt ≡ self.old.learnt }
        ensures looked { IfOk result (FnOnceReturnsAt F.FnOnce look
            (object_at (with_all J.opening self.new.shown) key.now)) }
        ensures holds_learnt { OnOk result (IsPrefix self.old.learnt self.new.shown) }
        ensures descends { OnOk result (DescendsEach J.opening self.new.shown key.now
            (join (object_at (with_all J.opening self.new.shown) key.now))) }
        ensures refused { IfErr result
            (RefusesLook self.old.learnt self.old.shown self.new.shown) }
        ensures fault { IfErr result (λ fault. fault ≡ Stopped) }
    {
        let Some(reader) = self.reader.take() else {
            unreachable!()
        };
        let (back, found) = visit(reader, &mut self.shown, &self.learnt, key, look);
        self.reader = Some(back);
        found
    }
}

/// Takes the copy that is published, looks, and leaves it.
fn visit<J: Naming, T, F: FnOnce(&Entries) -> T>(
    reader: Reader<PublishedTable, Known, CopiesOf<J>>,
    shown: &mut Revision<J>,
    learnt: &Revision<J>,
    key: &MetaKey,
    look: F,
) -> (
    Reader<PublishedTable, Known, CopiesOf<J>>,
    Result<T, PeekFault>,
)
    requires view { view reader.place ≡ shown.old }
    requires callable { F.IsAlwaysCallable look }
    ensures view { view result.0.place ≡ shown.new }
    ensures later { IsPrefix shown.old shown.new }
    ensures holds { OnOk result.1 (IsPrefix learnt.now shown.new) }
    ensures looked { IfOk result.1 (FnOnceReturnsAt F.FnOnce look
        (object_at (with_all J.opening shown.new) key.now)) }
    ensures descends { OnOk result.1 (DescendsEach J.opening shown.new key.now
        (join (object_at (with_all J.opening shown.new) key.now))) }
    ensures refused { IfErr result.1 (RefusesLook learnt.now shown.old shown.new) }
    ensures fault { IfErr result.1 (λ fault. fault ≡ Stopped) }
{
    match reader.enter_as::<CopiesOf<J>>() {
        Ok(reading) => {
            let found = look_in::<J, T, F>(reading.get(), learnt, key, look);
            *shown = reading.get().revision::<J>();
            (reading.leave(), found)
        }
        Err(back) => (back, Err(PeekFault::Stopped)),
    }
}

/// Lends what stands under the key in a copy, if that has all that was learnt.
fn look_in<J: Naming, T, F: FnOnce(&Entries) -> T>(
    copy: &PublishedTable,
    learnt: &Revision<J>,
    key: &MetaKey,
    look: F,
) -> Result<T, PeekFault>
    requires copy { IsCopy J.book J.opening copy.now }
    requires callable { F.IsAlwaysCallable look }
    ensures holds { OnOk result (IsPrefix learnt.now copy.now.list) }
    ensures looked { IfOk result (FnOnceReturnsAt F.FnOnce look
        (object_at (with_all J.opening copy.now.list) key.now)) }
    ensures descends { OnOk result (DescendsEach J.opening copy.now.list key.now
        (join (object_at (with_all J.opening copy.now.list) key.now))) }
    ensures refused { IfErr result (RefusesCopy learnt.now copy.now.list) }
    ensures fault { IfErr result (λ fault. fault ≡ Stopped) }
{
    if !copy.revision::<J>().covers(learnt) {
        return Err(PeekFault::Stopped);
    }
    Ok(copy.look_with(key, look))
}
