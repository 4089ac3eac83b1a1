use meta_types::ByteString;

/// A frame with the number of its sender.
#[derive(Debug, Drop)]
pub struct Parcel {
    pub from: u64,
    pub frame: ByteString,
}
