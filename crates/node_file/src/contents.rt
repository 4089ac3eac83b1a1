//! Reading records one after the other.

ghost use Rattle.std.specs.Prelude.{◌≡◌, ◌≤◌, ◌<◌, length, IfOk};
ghost use Rattle.node_file.specs.Fold.{contents_from, life_from, no_contents};
ghost use Rattle.node_file.specs.Record.{IsRecord};
ghost use Rattle.node_file.specs.Reads.{EndsAs, FailsBehind, ReadsAs, RisesTo, WasTaken};
ghost use Rattle.node_file.specs.declared.contents.ReadFault.TheVariants.{Memory};

use crate::reading::read_record;
use crate::record::{OPEN_GATE, Record};
use frame_readers::fault::FieldFault;
use meta_store::Store;
use std::alloc::{AllocError, Global};
use std::marker::Model;

/// Why records weren't read.
#[derive(Clone, Copy, Debug)]
pub(crate) enum ReadFault {
    Memory,
    /// A record isn't whole or may not follow, or there is no gate: how many bytes are left there.
    Left(usize),
    /// There are more keys than a store holds, and all records are whole.
    Full,
}

impl From<AllocError> for ReadFault {
    ghost from_gives = { λ _ fault. fault ≡ Memory };

    fn from(_error: AllocError) -> ReadFault {
        ReadFault::Memory
    }
}

/// What records say: the number of the last life, 0 for none, and the last object of each key.
#[derive(Drop)]
pub(crate) struct Contents {
    life: u32,
    store: Store,
}

impl Model for Contents {
    ghost use Rattle.node_file.specs.Fold.{Contents as What};

    ghost Value = { What };

    ghost view = { λ c. record { life = c.life; table = c.store } };
}

/// What became of a record.
#[derive(Clone, Copy, Debug, PartialEq, Eq)]
pub(crate) enum Taken {
    Done,
    /// The life isn't greater than the one before.
    NotRising,
    /// The key would be one more than a store holds.
    TooMany,
}

impl Contents {
    pub(crate) fn life(&self) -> u32
        ensures { result ≡ self.now.life }
    {
        self.life
    }

    pub(crate) fn into_parts(self) -> (u32, Store)
        ensures life { result.0 ≡ self.life }
        ensures table { result.1 ≡ self.table }
    {
        (self.life, self.store)
    }

    /// Takes a record in, if it may follow and there is room for its key.
    #[tactic(auto, using(crate::proofs::Limits::would_be_too_many))]
    fn take_in(&mut self, read: Record) -> Result<Taken, AllocError>
        requires lawful { IsRecord read }
        ensures { IfOk result (λ taken. WasTaken self.old self.new read taken) }
    {
        match read {
            Record::Life(life) => {
                if life <= self.life {
                    return Ok(Taken::NotRising);
                }
                self.life = life;
                Ok(Taken::Done)
            }
            Record::Object(key, object) => {
                // (for its type)
                let _ = self.store.len();
                if !self.store.has_room_for(&key) {
                    return Ok(Taken::TooMany);
                }
                self.store.hold(key, object)?;
                Ok(Taken::Done)
            }
        }
    }
}

/// Returns what the records say, and how many bytes are left at the gate that ends them.
#[tactic(auto, using(crate::proofs::Folding::contents_turns))]
pub(crate) fn read_contents(
    alloc: Global,
    version: u8,
    bytes: &[u8],
) -> Result<(Contents, usize), ReadFault>
    ensures { ReadsAs result (contents_from version no_contents 0 bytes.now) }
{
    let mut contents = Contents {
        life: 0,
        store: Store::new(alloc),
    };
    let mut rest = bytes;
    while !rest.is_empty() {
        let (gate, behind) = rest.split_at(1);
        if gate[0] != OPEN_GATE {
            // (for its type)
            let _ = contents.store.len();
            return Ok((contents, rest.len()));
        }
        let Some((record, size)) = read_record(alloc, version, behind)? else {
            return Err(ReadFault::Left(rest.len()));
        };
        let (_, after) = behind.split_at(size);
        match contents.take_in(record)? {
            Taken::Done => {}
            Taken::NotRising => return Err(ReadFault::Left(rest.len())),
            Taken::TooMany => return Err(fault_behind(alloc, version, contents.life, after)),
        }
        rest = after;
    }
    Err(ReadFault::Left(0))
}

/// Checks that all the records are whole and may follow; keeps nothing of them but the life.
#[tactic(auto, using(crate::proofs::Folding::life_turns))]
fn look_over(alloc: Global, version: u8, begun: u32, bytes: &[u8]) -> Result<(), ReadFault>
    ensures { EndsAs result (life_from version begun 0 bytes.now) }
{
    let mut life = begun;
    let mut rest = bytes;
    while !rest.is_empty() {
        let (gate, behind) = rest.split_at(1);
        if gate[0] != OPEN_GATE {
            return Ok(());
        }
        let Some((record, size)) = read_record(alloc, version, behind)? else {
            return Err(ReadFault::Left(rest.len()));
        };
        let (_, after) = behind.split_at(size);
        let Some(next) = risen(life, &record) else {
            return Err(ReadFault::Left(rest.len()));
        };
        life = next;
        rest = after;
    }
    Err(ReadFault::Left(0))
}

/// Returns why a file of too many keys is refused, with these records left to read: a record among
/// them that isn't whole or may not follow comes first.
fn fault_behind(alloc: Global, version: u8, life: u32, bytes: &[u8]) -> ReadFault
    ensures { FailsBehind result (life_from version life 0 bytes.now) }
{
    match look_over(alloc, version, life, bytes) {
        Ok(()) => ReadFault::Full,
        Err(ReadFault::Left(left)) => ReadFault::Left(left),
        Err(ReadFault::Memory) => ReadFault::Memory,
        Err(ReadFault::Full) => ReadFault::Memory,
    }
}

/// Returns the last life after the record, or `None` if the record may not follow.
fn risen(life: u32, read: &Record) -> Option<u32>
    ensures { RisesTo life read.now result }
{
    match read {
        Record::Life(next) => {
            if *next <= life {
                return None;
            }
            Some(*next)
        }
        Record::Object(_, _) => Some(life),
    }
}

impl From<FieldFault> for ReadFault {
    ghost from_gives = { λ _ fault. fault ≡ Memory };

    fn from(_error: FieldFault) -> ReadFault {
        ReadFault::Memory
    }
}
