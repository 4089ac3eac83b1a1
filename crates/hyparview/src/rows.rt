//! The table of the views: one function for each row, named for its message.

ghost use Rattle.std.specs.Prelude.{◌≡◌, ◌<◌, ◌≤◌, ◌++◌, length, map, IfOk, OnOk};
ghost use Rattle.frame_fields.specs.Field.{nodes};
ghost use Rattle.meta_frame.specs.declared.message.Message.TheVariants.{Bye, ForwardJoin};
ghost use Rattle.peer_lists.specs.Lists.{pick};
ghost use Rattle.hyparview.specs.declared.event.ViewOut.TheVariants.{Send};
ghost use Rattle.hyparview.specs.Limits.{active_random_walk_length, message_nodes_limit};
ghost use Rattle.hyparview.specs.Rows.{member_to_replace, priority_of};

use crate::draft::{ACTIVE_VIEW_SIZE, Draft, PASSIVE_VIEW_SIZE};
use crate::event::{ViewEvent, ViewOut};
use frame_fields::Nodes;
use meta_frame::{Message, NeighborAnswer, Priority};
use meta_types::NodeId;
use peer_lists::{choose, has, pick, without_all};
use std::alloc::{AllocError, Global};

/// How many steps a join walks.
const ACTIVE_RANDOM_WALK_LENGTH: u8 = 4;

/// How many steps of its walk a join has left when the node that joined goes into reserve.
const PASSIVE_RANDOM_WALK_LENGTH: u8 = 2;

/// How many steps a shuffle walks.
const SHUFFLE_TTL: u8 = 3;

/// How many members of the active view a shuffle offers.
const SHUFFLE_ACTIVE_COUNT: usize = 2;

/// How many members of the passive view a shuffle offers.
const SHUFFLE_PASSIVE_COUNT: usize = 3;

impl Draft {
    ghost use Rattle.hyparview.specs.Rows.{announce, ask, ask_another, end_walk, join_through};
    ghost use Rattle.hyparview.specs.Rows.{keep_midway, leave, make_room_from, offer_to};
    ghost use Rattle.hyparview.specs.Rows.{on_disconnect, on_forward_join, on_join, on_message};
    ghost use Rattle.hyparview.specs.Rows.{on_neighbor_high, on_neighbor_low};
    ghost use Rattle.hyparview.specs.Rows.{on_neighbor_reply_no, on_neighbor_reply_yes};
    ghost use Rattle.hyparview.specs.Rows.{on_peer_down, on_shuffle, on_shuffle_reply, row};
    ghost use Rattle.hyparview.specs.Rows.{on_shuffle_due, take_in, take_one};

    /// Takes an event, with its word, by its row of the table.
    pub(crate) fn row(&mut self, word: u64, event: &ViewEvent) -> Result<(), AllocError>
        ensures { OnOk result (self.new ≡ row word event.now self.old) }
    {
        match event {
            ViewEvent::JoinThrough { contact } => self.join_through(word, *contact),
            ViewEvent::Taken { from, message } => self.on_message(word, *from, message),
            ViewEvent::PeerDown { peer } => self.on_peer_down(word, *peer),
            ViewEvent::ShuffleDue => self.on_shuffle_due(word),
            ViewEvent::Leave => self.leave(),
        }
    }

    fn on_message(&mut self, word: u64, from: NodeId, message: &Message) -> Result<(), AllocError>
        ensures { OnOk result (self.new ≡ on_message word from message.now self.old) }
    {
        match message {
            Message::Join => self.on_join(word, from),
            Message::ForwardJoin { node, ttl } => self.on_forward_join(word, from, *node, *ttl),
            Message::Disconnect => self.on_disconnect(word, from),
            Message::Neighbor { priority } => match priority {
                Priority::High => self.on_neighbor_high(word, from),
                Priority::Low => self.on_neighbor_low(word, from),
            },
            Message::NeighborReply { answer } => match answer {
                NeighborAnswer::Yes => self.on_neighbor_reply_yes(word, from),
                NeighborAnswer::No => self.on_neighbor_reply_no(word, from),
            },
            Message::Shuffle { origin, ttl, nodes } => {
                self.on_shuffle(word, from, *origin, *ttl, nodes)
            }
            Message::ShuffleReply { nodes } => self.on_shuffle_reply(word, nodes),
            Message::Bye => self.on_peer_down(word, from),
            _ => Ok(()),
        }
    }

    #[tactic(auto, unfolding(crate::specs::Rows::join_through))]
    fn join_through(&mut self, word: u64, contact: NodeId) -> Result<(), AllocError>
        ensures { OnOk result (self.new ≡ join_through word contact self.old) }
    {
        self.add_active(word, contact)?;
        self.send(contact, Message::Join)?;
        Ok(())
    }

    #[tactic(auto, unfolding(crate::specs::Rows::on_join))]
    fn on_join(&mut self, word: u64, from: NodeId) -> Result<(), AllocError>
        ensures { OnOk result (self.new ≡ on_join word from self.old) }
    {
        self.add_active(word, from)?;
        self.announce(from)?;
        Ok(())
    }

    fn announce(&mut self, node: NodeId) -> Result<(), AllocError>
        ensures { OnOk result (self.new ≡ announce node self.old) }
    {
        let others = without_all(self.alloc, self.active.as_slice(), &[node])?;
        forward_to_each(&mut self.out, &others, node)?;
        Ok(())
    }

    #[tactic(auto, unfolding(crate::specs::Rows::on_forward_join))]
    fn on_forward_join(
        &mut self,
        word: u64,
        from: NodeId,
        node: NodeId,
        ttl: u8,
    ) -> Result<(), AllocError>
        ensures { OnOk result (self.new ≡ on_forward_join word from node ttl self.old) }
    {
        if node == self.node {
            return Ok(());
        }
        let others = without_all(self.alloc, self.active.as_slice(), &[from, node])?;
        if ttl == 0 || self.active.len() <= 1 || others.is_empty() {
            self.end_walk(word, node)?;
            return Ok(());
        }
        self.keep_midway(word, node, ttl)?;
        let next = choose(word, &others);
        self.send(next, Message::ForwardJoin { node, ttl: ttl - 1 })?;
        Ok(())
    }

    #[tactic(auto, unfolding(crate::specs::Rows::end_walk))]
    fn end_walk(&mut self, word: u64, node: NodeId) -> Result<(), AllocError>
        ensures { OnOk result (self.new ≡ end_walk word node self.old) }
    {
        if node == self.node || self.active.contains(&node) {
            return Ok(());
        }
        self.add_active(word, node)?;
        let priority = Priority::High;
        self.send(node, Message::Neighbor { priority })?;
        Ok(())
    }

    #[tactic(auto, unfolding(crate::specs::Rows::keep_midway))]
    fn keep_midway(&mut self, word: u64, node: NodeId, ttl: u8) -> Result<(), AllocError>
        ensures { OnOk result (self.new ≡ keep_midway word node ttl self.old) }
    {
        if ttl == PASSIVE_RANDOM_WALK_LENGTH {
            self.add_passive(word, node)?;
        }
        Ok(())
    }

    #[tactic(auto, unfolding(crate::specs::Rows::on_disconnect))]
    fn on_disconnect(&mut self, word: u64, from: NodeId) -> Result<(), AllocError>
        ensures { OnOk result (self.new ≡ on_disconnect word from self.old) }
    {
        if self.active.contains(&from) {
            self.leave_active(from)?;
            self.add_passive(word, from)?;
        }
        Ok(())
    }

    #[tactic(auto, unfolding(crate::specs::Rows::on_neighbor_high))]
    fn on_neighbor_high(&mut self, word: u64, from: NodeId) -> Result<(), AllocError>
        ensures { OnOk result (self.new ≡ on_neighbor_high word from self.old) }
    {
        self.add_active(word, from)?;
        let answer = NeighborAnswer::Yes;
        self.send(from, Message::NeighborReply { answer })
    }

    #[tactic(auto, unfolding(crate::specs::Rows::on_neighbor_low))]
    fn on_neighbor_low(&mut self, word: u64, from: NodeId) -> Result<(), AllocError>
        ensures { OnOk result (self.new ≡ on_neighbor_low word from self.old) }
    {
        if self.active.contains(&from) || self.active.len() < ACTIVE_VIEW_SIZE {
            self.on_neighbor_high(word, from)
        } else {
            let answer = NeighborAnswer::No;
            self.send(from, Message::NeighborReply { answer })
        }
    }

    #[tactic(auto, unfolding(crate::specs::Rows::on_neighbor_reply_yes))]
    fn on_neighbor_reply_yes(&mut self, word: u64, from: NodeId) -> Result<(), AllocError>
        ensures { OnOk result (self.new ≡ on_neighbor_reply_yes word from self.old) }
    {
        self.add_active(word, from)?;
        self.asked.clear();
        Ok(())
    }

    #[tactic(auto, unfolding(crate::specs::Rows::on_neighbor_reply_no))]
    fn on_neighbor_reply_no(&mut self, word: u64, from: NodeId) -> Result<(), AllocError>
        ensures { OnOk result (self.new ≡ on_neighbor_reply_no word from self.old) }
    {
        self.ask_another(word, from)
    }

    /// Handles a peer that is down, or that says BYE.
    #[tactic(auto, unfolding(crate::specs::Rows::on_peer_down))]
    fn on_peer_down(&mut self, word: u64, peer: NodeId) -> Result<(), AllocError>
        ensures { OnOk result (self.new ≡ on_peer_down word peer self.old) }
    {
        if self.active.contains(&peer) {
            self.leave_active(peer)?;
            self.asked.clear();
            self.ask(word)?;
        } else {
            self.passive.shift_remove(&peer);
            self.ask_another(word, peer)?;
        }
        Ok(())
    }

    /// Asks another member for a place, if the node `from` was asked.
    fn ask_another(&mut self, word: u64, from: NodeId) -> Result<(), AllocError>
        ensures { OnOk result (self.new ≡ ask_another word from self.old) }
    {
        if self.asked.contains(&from) {
            self.ask(word)?;
        }
        Ok(())
    }

    /// Ask: asks a member of the passive view, one that wasn't asked before, for a place.
    #[tactic(auto, unfolding(crate::specs::Rows::ask))]
    fn ask(&mut self, word: u64) -> Result<(), AllocError>
        ensures { OnOk result (self.new ≡ ask word self.old) }
    {
        let unasked = without_all(self.alloc, self.passive.as_slice(), self.asked.as_slice())?;
        if unasked.is_empty() || self.active.len() >= ACTIVE_VIEW_SIZE {
            self.asked.clear();
            return Ok(());
        }
        let peer = choose(word, &unasked);
        let priority = self.priority();
        self.asked.insert(peer)?;
        self.send(peer, Message::Neighbor { priority })?;
        Ok(())
    }

    fn priority(&self) -> Priority
        ensures { result ≡ priority_of self.now.active }
    {
        if self.active.is_empty() {
            Priority::High
        } else {
            Priority::Low
        }
    }

    #[tactic(auto, unfolding(crate::specs::Rows::on_shuffle_due))]
    fn on_shuffle_due(&mut self, word: u64) -> Result<(), AllocError>
        ensures { OnOk result (self.new ≡ on_shuffle_due word self.old) }
    {
        if self.active.is_empty() {
            return Ok(());
        }
        let to = choose(word, self.active.as_slice());
        let nodes = self.offer_to(word, to)?;
        self.sent = nodes.copy()?;
        self.send(
            to,
            Message::Shuffle {
                origin: self.node,
                ttl: SHUFFLE_TTL,
                nodes,
            },
        )?;
        Ok(())
    }

    /// Returns what a shuffle offers to a neighbour.
    fn offer_to(&self, word: u64, to: NodeId) -> Result<Nodes, AllocError>
        ensures { IfOk result (λ offer. offer ≡ offer_to word to self.now) }
    {
        let others = without_all(self.alloc, self.active.as_slice(), &[to])?;
        let mut offer = pick(self.alloc, word, SHUFFLE_ACTIVE_COUNT, &others)?;
        let passive = pick(
            self.alloc,
            word,
            SHUFFLE_PASSIVE_COUNT,
            self.passive.as_slice(),
        )?;
        offer.extend_from_slice(&passive)?;
        Ok(nodes_of(offer))
    }

    #[tactic(auto, unfolding(crate::specs::Rows::on_shuffle))]
    fn on_shuffle(
        &mut self,
        word: u64,
        from: NodeId,
        origin: NodeId,
        ttl: u8,
        nodes: &Nodes,
    ) -> Result<(), AllocError>
        ensures { OnOk result (self.new ≡ on_shuffle word from origin ttl nodes.now self.old) }
    {
        if origin == self.node {
            return Ok(());
        }
        let others = without_all(self.alloc, self.active.as_slice(), &[from, origin])?;
        if ttl >= 2 && self.active.len() > 1 && !others.is_empty() {
            let next = choose(word, &others);
            let nodes = nodes.copy()?;
            self.send(
                next,
                Message::Shuffle {
                    origin,
                    ttl: ttl - 1,
                    nodes,
                },
            )?;
            return Ok(());
        }
        let reply = pick_nodes(self.alloc, word, nodes, self.passive.as_slice())?;
        self.send(
            origin,
            Message::ShuffleReply {
                nodes: reply.copy()?,
            },
        )?;
        self.take_one(word, reply.as_slice(), origin)?;
        self.take_in(word, reply.as_slice(), nodes.as_slice())?;
        Ok(())
    }

    #[tactic(auto, unfolding(crate::specs::Rows::on_shuffle_reply))]
    fn on_shuffle_reply(&mut self, word: u64, nodes: &Nodes) -> Result<(), AllocError>
        ensures { OnOk result (self.new ≡ on_shuffle_reply word nodes.now self.old) }
    {
        let sent = self.sent.copy()?;
        self.take_in(word, sent.as_slice(), nodes.as_slice())?;
        self.sent = nodes_of(Vec::new(self.alloc));
        Ok(())
    }

    /// TakeIn: puts the nodes that a shuffle brought into the passive view, in place of those that
    /// were given away.
    fn take_in(&mut self, word: u64, given: &[NodeId], nodes: &[NodeId]) -> Result<(), AllocError>
        ensures { OnOk result (self.new ≡ take_in word given.now nodes.now self.old) }
    {
        for node in nodes {
            self.take_one(word, given, *node)?;
        }
        Ok(())
    }

    #[tactic(auto, unfolding(crate::specs::Rows::take_one))]
    fn take_one(&mut self, word: u64, given: &[NodeId], node: NodeId) -> Result<(), AllocError>
        ensures { OnOk result (self.new ≡ take_one word given.now node self.old) }
    {
        if node == self.node || self.active.contains(&node) || self.passive.contains(&node) {
            return Ok(());
        }
        self.make_room_from(word, given);
        self.passive.insert(node)?;
        Ok(())
    }

    fn make_room_from(&mut self, word: u64, given: &[NodeId])
        ensures { self.new ≡ make_room_from word given.now self.old }
    {
        if self.passive.len() >= PASSIVE_VIEW_SIZE {
            let leaving = member_to_replace(word, given, self.passive.as_slice());
            self.passive.shift_remove(&leaving);
        }
    }

    #[tactic(auto, unfolding(crate::specs::Rows::leave))]
    fn leave(&mut self) -> Result<(), AllocError>
        ensures { OnOk result (self.new ≡ leave self.old) }
    {
        say_bye(&mut self.out, self.active.as_slice())?;
        self.all_leave_active()?;
        self.passive.clear();
        self.asked.clear();
        self.sent = nodes_of(Vec::new(self.alloc));
        Ok(())
    }
}

/// Gives out a FORWARDJOIN to each of these nodes, of the node that joined.
fn forward_to_each(out: &mut Vec<ViewOut>, to: &[NodeId], node: NodeId) -> Result<(), AllocError>
    ensures { OnOk result
        (out.new.items ≡ out.old.items
        ++ map (λ to. Send to (ForwardJoin node active_random_walk_length)) to.now) }
{
    for peer in to {
        let ttl = ACTIVE_RANDOM_WALK_LENGTH;
        out.push(ViewOut::Send(*peer, Message::ForwardJoin { node, ttl }))?;
    }
    Ok(())
}

fn say_bye(out: &mut Vec<ViewOut>, to: &[NodeId]) -> Result<(), AllocError>
    ensures { OnOk result (out.new.items ≡ out.old.items ++ map (λ to. Send to Bye) to.now) }
{
    for peer in to {
        out.push(ViewOut::Send(*peer, Message::Bye))?;
    }
    Ok(())
}

/// Returns the member that a full passive view loses for a node that a shuffle brought.
#[tactic(auto, unfolding(crate::specs::Rows::member_to_replace))]
fn member_to_replace(word: u64, given: &[NodeId], passive: &[NodeId]) -> NodeId
    requires { 0 < length passive.now }
    ensures { result ≡ member_to_replace word given.now passive.now }
{
    for node in given {
        if has(passive, *node) {
            return *node;
        }
    }
    choose(word, passive)
}

/// Returns as many members as a shuffle brought, from the random place on.
fn pick_nodes(
    alloc: Global,
    word: u64,
    brought: &Nodes,
    members: &[NodeId],
) -> Result<Nodes, AllocError>
    ensures { IfOk result (λ picked. picked ≡ pick word (length brought.now) members.now) }
{
    let picked = pick(alloc, word, brought.as_slice().len(), members)?;
    Ok(nodes_of(picked))
}

/// Returns the list of a message.
fn nodes_of(numbers: Vec<NodeId>) -> Nodes
    requires { length numbers.items ≤ message_nodes_limit }
    ensures { result ≡ numbers.items }
{
    tell_ranges(numbers.as_slice());
    Nodes::new(numbers)
}

/// Does nothing. Each node keeps the range of its number by itself; it is read here so that the
/// contract can say it of all of them.
fn tell_ranges(numbers: &[NodeId])
    requires { length numbers.now ≤ message_nodes_limit }
    ensures { nodes.Fits numbers.now }
{
    for node in numbers {
        let _ = node.number();
    }
}
