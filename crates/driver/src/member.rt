ghost use Rattle.std.specs.Prelude.{◌≡◌, ◌≤◌, ◌+◌, ◌<◌, ◌^◌, nat_le, not, ◌&&◌};
ghost use Rattle.driver.specs.declared.member.MemberChange.TheVariants.{Heard};
ghost use Rattle.driver.specs.Plan.{all_learn, is_of_another, is_silent, learn, made, others, sooner};

use meta_types::NodeId;

/// Another node of the cluster, as a driver knows it.
#[derive(Clone, Copy, Debug, PartialEq, Eq)]
pub struct Member {
    pub node: NodeId,
    /// When a frame last came from it; at first, when it was added; once it was given up, when it
    /// was tried again. In milliseconds.
    pub heard: u64,
    /// Whether a hello was said to it since it was added.
    pub is_greeted: bool,
    /// Whether the node was told that it is down, and since then no frame came from it, and it
    /// wasn't tried again.
    pub is_down: bool,
}

/// What became of a member.
#[derive(Clone, Copy)]
pub(crate) enum MemberChange {
    Greeted,
    GivenUp,
    Heard(u64),
    /// A join through it was begun: if it was given up, it counts as heard of once more.
    Tried(u64),
}

impl Member {
    /// Returns the member, once this became of it.
    fn with(self, change: MemberChange) -> Member
        ensures { result ≡ made change self }
    {
        match change {
            MemberChange::Greeted => Member {
                is_greeted: true,
                ..self
            },
            MemberChange::GivenUp => Member {
                is_down: true,
                ..self
            },
            MemberChange::Heard(now) => self.up(now),
            MemberChange::Tried(now) if self.is_down => self.up(now),
            MemberChange::Tried(_) => self,
        }
    }

    /// Returns the member as it is up at this time.
    fn up(self, now: u64) -> Member
        ensures { result ≡ made (Heard now) self }
    {
        Member {
            heard: now,
            is_down: false,
            ..self
        }
    }

    /// Returns the member, once this became of the node.
    fn learn(self, node: NodeId, change: MemberChange) -> Member
        ensures { result ≡ learn change node self }
    {
        if self.node == node {
            self.with(change)
        } else {
            self
        }
    }

    /// Returns whether it is not of this node.
    fn is_other(&self, node: NodeId) -> bool
        ensures { result ≡ is_of_another node self.now }
    {
        self.node != node
    }

    /// Returns whether it sent nothing for so long, and isn't given up yet.
    pub(crate) fn is_silent(&self, quiet: u64, now: u64) -> bool
        ensures { result ≡ is_silent quiet now self.now }
    {
        !self.is_down && self.heard <= now && now - self.heard >= quiet
    }

    /// Returns from when on it is silent, if that is sooner and it isn't given up yet.
    pub(crate) fn sooner(&self, quiet: u64, first: u64) -> u64
        ensures { result ≡ sooner quiet first self.now }
    {
        if self.is_down {
            first
        } else {
            first.min(self.heard.saturating_add(quiet))
        }
    }
}

/// This became of the member of the node.
pub(crate) fn change_each(members: &mut Vec<Member>, node: NodeId, change: MemberChange)
    ensures { members.new.items ≡ all_learn change node members.old.items }
{
    for place in 0..members.len() {
        members[place] = members[place].learn(node, change);
    }
}

/// The member of the node is taken out.
pub(crate) fn take_out(members: &mut Vec<Member>, node: NodeId)
    ensures { members.new.items ≡ others node members.old.items }
{
    members.retain(|member| member.is_other(node));
}
