//! An inbox for each node, and the passes by which nodes put frames into them and take them out.

ghost use Rattle.std.specs.Prelude.{◌≡◌, ◌<◌, ◌∷◌, ◌++◌, ℕ, List, [], length, map, All, IfOk, vec_capacity};
ghost use Rattle.inbox.specs.Opening.{AreNewPasses, IsFresh, IsRoom, IsSenderCount};
ghost use Rattle.inbox.specs.Views.{InboxView};
ghost use Rattle.cluster_worker.specs.Passes.{AreNewInboxes, AreNewPassesFrom, AreSenderRows, IsEmptyFor, new_take};

use inbox::{Fresh, Inbox, InboxFault, PutPass, TakePass};
use meta_types::both;
use std::alloc::{AllocError, Global};

/// The passes of a node: the place of its own inbox, the pass to take from that inbox, and a pass
/// to put into each inbox, in the order of the nodes.
#[derive(Drop)]
pub struct Passes {
    pub own: usize,
    pub takes: TakePass,
    pub puts: Vec<PutPass>,
}

/// Makes an inbox of this room, with passes for `nodes` senders.
fn new_inbox(alloc: Global, nodes: usize, room: usize) -> Result<Fresh, AllocError>
    requires nodes { IsSenderCount nodes }
    requires room { IsRoom room }
    ensures { IfOk result (IsFresh nodes room) }
{
    match Inbox::with_room(alloc, nodes, room) {
        Ok(fresh) => Ok(fresh),
        Err(InboxFault::Memory) => Err(AllocError),
        // It is refused only for its room, which is in range.
        Err(_) => unreachable!(),
    }
}

/// Makes `nodes` inboxes of this room, each with passes for as many senders.
fn open_all(alloc: Global, nodes: usize, room: usize) -> Result<Vec<Fresh>, AllocError>
    requires nodes { IsSenderCount nodes }
    requires room { IsRoom room }
    ensures number { IfOk result (λ all. length all.items ≡ nodes) }
    ensures fresh { IfOk result (λ all. All (IsFresh nodes room) all.items) }
{
    let mut all = Vec::with_capacity(alloc, nodes)?;
    for _node in 0..nodes {
        all.push_reserved(new_inbox(alloc, nodes, room)?);
    }
    Ok(all)
}

/// Makes an empty row for each of `nodes` senders, each with room for as many passes.
fn empty_rows(alloc: Global, nodes: usize) -> Result<Vec<Vec<PutPass>>, AllocError>
    ensures { IfOk result (λ rows. AreSenderRows [] nodes rows.items) }
{
    let mut rows = Vec::with_capacity(alloc, nodes)?;
    for _node in 0..nodes {
        rows.push_reserved(Vec::with_capacity(alloc, nodes)?);
    }
    Ok(rows)
}

/// Puts the pass of each sender at the end of its row.
fn deal(puts: Vec<PutPass>, rows: &mut Vec<Vec<PutPass>>)
    requires number { length puts.items ≡ length rows.old.items }
    requires room { All (λ row. length row.items < vec_capacity row) rows.old.items }
    ensures { (inboxes : List InboxView) (nodes : ℕ) (inbox : InboxView)
        → AreSenderRows inboxes nodes rows.old.items → AreNewPasses inbox.line nodes puts.items
        → AreSenderRows (inboxes ++ inbox ∷ []) nodes rows.new.items }
{
    let mut puts = puts.into_iter();
    for row in rows.iter_mut() {
        row.push_reserved(puts.next().unwrap());
    }
}

/// Lists with room for all inboxes, and for the passes to each and of each node.
#[derive(Drop)]
struct Lists {
    inboxes: Vec<Inbox>,
    takes: Vec<TakePass>,
    passes: Vec<Passes>,
}

fn lists_for(alloc: Global, nodes: usize) -> Result<Lists, AllocError>
    ensures inboxes { IfOk result (λ r. IsEmptyFor nodes r.inboxes) }
    ensures takes { IfOk result (λ r. IsEmptyFor nodes r.takes) }
    ensures passes { IfOk result (λ r. IsEmptyFor nodes r.passes) }
{
    let inboxes = Vec::with_capacity(alloc, nodes);
    let takes = Vec::with_capacity(alloc, nodes);
    let passes = Vec::with_capacity(alloc, nodes);
    let (inboxes, (takes, passes)) = both(inboxes, both(takes, passes))?;
    Ok(Lists {
        inboxes,
        takes,
        passes,
    })
}

/// Returns the inboxes, and the pass to take from each; the passes to put go into the rows.
fn part(
    fresh: Vec<Fresh>,
    rows: &mut Vec<Vec<PutPass>>,
    inboxes: Vec<Inbox>,
    takes: Vec<TakePass>,
) -> (Vec<Inbox>, Vec<TakePass>)
    requires number { length fresh.items ≡ length rows.old.items }
    requires fresh { (room : ℕ) × All (IsFresh (length rows.old.items) room) fresh.items }
    requires rows { AreSenderRows [] (length rows.old.items) rows.old.items }
    requires inboxes { IsEmptyFor (length rows.old.items) inboxes }
    requires takes { IsEmptyFor (length rows.old.items) takes }
    ensures inboxes { (room : ℕ) → All (IsFresh (length rows.old.items) room) fresh.items
        → AreNewInboxes (length rows.old.items) room result.0.items }
    ensures takes { result.1.items ≡ map (new_take (length rows.old.items)) result.0.items }
    ensures rows { AreSenderRows result.0.items (length rows.old.items) rows.new.items }
{
    let mut inboxes = inboxes;
    let mut all_takes = takes;
    for one in fresh {
        let Fresh { inbox, puts, takes } = one;
        deal(puts, rows);
        inboxes.push_reserved(inbox);
        all_takes.push_reserved(takes);
    }
    (inboxes, all_takes)
}

/// Returns the passes of each node: the pass to take from its inbox, and its row.
fn gather(takes: Vec<TakePass>, rows: Vec<Vec<PutPass>>, passes: Vec<Passes>) -> Vec<Passes>
    requires number { length takes.items ≡ length rows.items }
    requires passes { IsEmptyFor (length rows.items) passes }
    ensures number { length result.items ≡ length rows.items }
    ensures passes { (inboxes : List InboxView)
        → takes.items ≡ map (new_take (length rows.items)) inboxes
        → AreSenderRows inboxes (length rows.items) rows.items
        → AreNewPassesFrom inboxes 0 result.items }
{
    let mut passes = passes;
    let mut rows = rows.into_iter();
    for takes in takes {
        passes.push_reserved(Passes {
            own: passes.len(),
            takes,
            puts: rows.next().unwrap(),
        });
    }
    passes
}

/// Makes an inbox of this room for each of `nodes` nodes, and the passes of each node to all of
/// them. Fails only when memory runs out.
pub fn connect(
    alloc: Global,
    nodes: usize,
    room: usize,
) -> Result<(Vec<Inbox>, Vec<Passes>), AllocError>
    requires nodes { IsSenderCount nodes }
    requires room { IsRoom room }
    ensures inboxes { IfOk result (λ r. AreNewInboxes nodes room r.0.items) }
    ensures number { IfOk result (λ r. length r.1.items ≡ nodes) }
    ensures passes { IfOk result (λ r. AreNewPassesFrom r.0.items 0 r.1.items) }
{
    let fresh = open_all(alloc, nodes, room);
    let places = both(empty_rows(alloc, nodes), lists_for(alloc, nodes));
    let (fresh, (rows, lists)) = both(fresh, places)?;
    let mut rows = rows;
    let (inboxes, takes) = part(fresh, &mut rows, lists.inboxes, lists.takes);
    let passes = gather(takes, rows, lists.passes);
    Ok((inboxes, passes))
}

/// Closes all inboxes, once no worker has passes to them. What is left in them is dropped.
pub fn close_all(inboxes: Vec<Inbox>) {
    for inbox in inboxes {
        let mut inbox = inbox;
        inbox.close();
    }
}
