ghost use Rattle.std.specs.Prelude.{◌≡◌, ◌<◌, length};
ghost use Rattle.resolvers.specs.Greatest.{first_greatest};
ghost use Rattle.resolvers.specs.Ranks.{order_of};

use meta_types::Value;
use std::cmp::Ordering;

/// Chooses among siblings. The choice is a function of their list and of the resolver: equal lists
/// are resolved alike by equal resolvers, on every node.
pub trait Resolver: Drop {
    ghost use Rattle.std.specs.Prelude.{◌≡◌, ◌<◌, ℕ, List, length};
    ghost use Rattle.meta_types.specs.Value.{ValueParts};

    ghost choice: { Self → List ValueParts → ℕ };

    /// Returns the place, from 0, of the value that is chosen. There is at least one sibling. It
    /// can't fail, and must take no memory.
    fn resolve(&self, siblings: &[Value]) -> usize
        requires { 0 < length siblings.now }
        ensures place { result < length siblings.now }
        ensures choice { result ≡ choice self.now siblings.now };
}

/// Chooses the greatest stamp: the last writer wins. At equal stamps a tombstone is least, then
/// byte order decides. Of equal values the first is chosen.
#[derive(Drop)]
pub struct Lww;

impl Resolver for Lww {
    ghost use Rattle.resolvers.specs.Greatest.{first_greatest, by_stamp};

    ghost choice = { λ _ siblings. first_greatest by_stamp siblings };

    fn resolve(&self, siblings: &[Value]) -> usize {
        first_greatest(Rank::ByStamp, siblings)
    }
}

/// Chooses the greatest body: a tombstone is least, then byte order decides, then the greater
/// stamp. Of equal values the first is chosen.
#[derive(Drop)]
pub struct Largest;

impl Resolver for Largest {
    ghost use Rattle.resolvers.specs.Greatest.{first_greatest, by_body};

    ghost choice = { λ _ siblings. first_greatest by_body siblings };

    fn resolve(&self, siblings: &[Value]) -> usize {
        first_greatest(Rank::ByBody, siblings)
    }
}

/// What decides first when values are compared.
#[derive(Clone, Copy)]
enum Rank {
    ByStamp,
    ByBody,
}

fn compare(rank: Rank, one: &Value, other: &Value) -> Ordering
    ensures { result ≡ order_of rank one.now other.now }
{
    match rank {
        Rank::ByStamp => one.cmp(other),
        Rank::ByBody => {
            let bodies = one.body().cmp(&other.body());
            bodies.then(one.stamp().cmp(&other.stamp()))
        }
    }
}

/// Returns the place of the first of the greatest values.
fn first_greatest(rank: Rank, values: &[Value]) -> usize
    requires { 0 < length values.now }
    ensures place { result < length values.now }
    ensures first { result ≡ first_greatest (order_of rank) values.now }
{
    let mut greatest = 0;
    for place in 1..values.len() {
        if compare(rank, &values[greatest], &values[place]).is_lt() {
            greatest = place;
        }
    }
    greatest
}
