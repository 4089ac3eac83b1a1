ghost use Rattle.std.specs.Prelude.{◌≡◌, true};
ghost use Rattle.frame_fields.specs.Field.{has_value};
ghost use Rattle.node_file.specs.Clean.{row_record};
ghost use Rattle.node_file.specs.Reads.{record_given};

use crate::record::NewRecord;
use dvvset::Entries;
use meta_types::MetaKey;
use std::marker::Model;

/// An object that shows a value, and is to be put under a key. Both are lent.
#[derive(Drop)]
pub struct NewObject<'a> {
    key: &'a MetaKey,
    object: &'a Entries,
}

impl<'a> Model for NewObject<'a> {
    ghost use Rattle.std.specs.Prelude.{◌≡◌, List, true};
    ghost use Rattle.frame_fields.specs.Field.{has_value};
    ghost use Rattle.meta_types.specs.Name.{Key};
    ghost use Rattle.dvvset.specs.Object.{Entry as EntryParts};

    ghost Value = { Key × List EntryParts };

    ghost view = { λ n. (n.key.now, n.object.now) };

    ghost invariant = { λ n. has_value n.object.now ≡ true };
}

impl<'a> NewObject<'a> {
    pub fn new(key: &'a MetaKey, object: &'a Entries) -> Self
        requires shows { has_value object.now ≡ true }
        ensures { result ≡ (key.now, object.now) }
    {
        NewObject { key, object }
    }

    pub(crate) fn key(&self) -> &'a MetaKey
        ensures { result.now ≡ self.now.0 }
    {
        self.key
    }

    pub(crate) fn object(&self) -> &'a Entries
        ensures value { result.now ≡ self.now.1 }
        ensures shows { has_value self.now.1 ≡ true }
    {
        self.object
    }

    /// Returns what its record is to say.
    pub(crate) fn record(&self) -> NewRecord<'a>
        ensures { record_given result ≡ row_record self.now }
    {
        NewRecord::Object(self.key, self.object)
    }
}
