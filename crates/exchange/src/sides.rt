//! What differs between two rising lists of rows, from their heads.

ghost use Rattle.std.specs.Prelude.{◌≡◌, [], true, map, slice_get, MatchOption, IfSome, Some, None};
ghost use Rattle.std.specs.FinMap.{is_sorted};
ghost use Rattle.meta_types.specs.Name.{IsName};
ghost use Rattle.meta_types.specs.Order.{bytes_cmp, prefix_cmp};
ghost use Rattle.frame_fields.specs.Field.{key_row_parts, prefix_row_parts};
ghost use Rattle.exchange.specs.Sides.{AreNamed, IsNext, differ};

use frame_fields::{Digest, KeyDigest, PrefixDigest};
use meta_types::{ByteString, FullPrefix};
use std::cmp::Ordering;

/// The least key of two lists, and what follows it in both.
#[derive(Drop)]
pub(crate) struct Next<'a, K, R> {
    pub key: &'a K,
    /// Their digest of it, if they list it.
    pub digest: Option<Digest>,
    /// Whether the digests differ, or one side alone lists the key.
    pub differs: bool,
    pub theirs: &'a [R],
    pub own: &'a [R],
}

/// Returns the least key of a leaf in two lists, or `None` if both are empty.
pub(crate) fn next_key<'a>(
    theirs: &'a [KeyDigest],
    own: &'a [KeyDigest],
) -> Option<Next<'a, ByteString, KeyDigest>>
    requires theirs_rise { is_sorted bytes_cmp (map key_row_parts theirs.now) ≡ true }
    requires own_rise { is_sorted bytes_cmp (map key_row_parts own.now) ≡ true }
    requires theirs_named { AreNamed theirs.now }
    requires own_named { AreNamed own.now }
    ensures value { MatchOption result ((theirs.now ≡ []) × (own.now ≡ []))
        (λ next. IsNext bytes_cmp key_row_parts theirs.now own.now next.key.now next.digest
        next.differs next.theirs.now next.own.now) }
    ensures named { IfSome result (λ next. IsName 256 next.key.now) }
    ensures theirs_named { IfSome result (λ next. AreNamed next.theirs.now) }
    ensures own_named { IfSome result (λ next. AreNamed next.own.now) }
{
    let Some((first, rest)) = theirs.split_first() else {
        return own_key(own);
    };
    let Some((other, others)) = own.split_first() else {
        return Some(Next {
            key: &first.key,
            digest: Some(first.digest),
            differs: true,
            theirs: rest,
            own,
        });
    };
    match first.key.cmp(&other.key) {
        Ordering::Less => Some(Next {
            key: &first.key,
            digest: Some(first.digest),
            differs: true,
            theirs: rest,
            own,
        }),
        Ordering::Equal => Some(Next {
            key: &first.key,
            digest: Some(first.digest),
            differs: first.digest != other.digest,
            theirs: rest,
            own: others,
        }),
        Ordering::Greater => Some(Next {
            key: &other.key,
            digest: None,
            differs: true,
            theirs,
            own: others,
        }),
    }
}

/// Returns the least key of the own list, if theirs is empty.
fn own_key(own: &[KeyDigest]) -> Option<Next<'_, ByteString, KeyDigest>>
    requires rise { is_sorted bytes_cmp (map key_row_parts own.now) ≡ true }
    requires named { AreNamed own.now }
    ensures value { MatchOption result (own.now ≡ [])
        (λ next. IsNext bytes_cmp key_row_parts [] own.now next.key.now next.digest
        next.differs next.theirs.now next.own.now) }
    ensures named { IfSome result (λ next. IsName 256 next.key.now) }
    ensures theirs_named { IfSome result (λ next. AreNamed next.theirs.now) }
    ensures own_named { IfSome result (λ next. AreNamed next.own.now) }
{
    let (first, rest) = own.split_first()?;
    Some(Next {
        key: &first.key,
        digest: None,
        differs: true,
        theirs: &[],
        own: rest,
    })
}

/// Returns the least full prefix in two lists, or `None` if both are empty.
pub(crate) fn next_prefix<'a>(
    theirs: &'a [PrefixDigest],
    own: &'a [PrefixDigest],
) -> Option<Next<'a, FullPrefix, PrefixDigest>>
    requires theirs_rise { is_sorted prefix_cmp (map prefix_row_parts theirs.now) ≡ true }
    requires own_rise { is_sorted prefix_cmp (map prefix_row_parts own.now) ≡ true }
    ensures { MatchOption result ((theirs.now ≡ []) × (own.now ≡ []))
        (λ next. IsNext prefix_cmp prefix_row_parts theirs.now own.now next.key.now next.digest
        next.differs next.theirs.now next.own.now) }
{
    let Some((first, rest)) = theirs.split_first() else {
        return own_prefix(own);
    };
    let Some((other, others)) = own.split_first() else {
        return Some(Next {
            key: &first.prefix,
            digest: Some(first.digest),
            differs: true,
            theirs: rest,
            own,
        });
    };
    match first.prefix.cmp(&other.prefix) {
        Ordering::Less => Some(Next {
            key: &first.prefix,
            digest: Some(first.digest),
            differs: true,
            theirs: rest,
            own,
        }),
        Ordering::Equal => Some(Next {
            key: &first.prefix,
            digest: Some(first.digest),
            differs: first.digest != other.digest,
            theirs: rest,
            own: others,
        }),
        Ordering::Greater => Some(Next {
            key: &other.prefix,
            digest: None,
            differs: true,
            theirs,
            own: others,
        }),
    }
}

/// Returns the least full prefix of the own list, if theirs is empty.
fn own_prefix(own: &[PrefixDigest]) -> Option<Next<'_, FullPrefix, PrefixDigest>>
    requires { is_sorted prefix_cmp (map prefix_row_parts own.now) ≡ true }
    ensures { MatchOption result (own.now ≡ [])
        (λ next. IsNext prefix_cmp prefix_row_parts [] own.now next.key.now next.digest
        next.differs next.theirs.now next.own.now) }
{
    let (first, rest) = own.split_first()?;
    Some(Next {
        key: &first.prefix,
        digest: None,
        differs: true,
        theirs: &[],
        own: rest,
    })
}

/// Returns whether the digests at a place differ.
pub(crate) fn differ_at(theirs: &[Digest], own: &[Digest], place: usize) -> bool
    ensures { result ≡ differ (slice_get theirs.now place) (slice_get own.now place) }
{
    theirs.get(place) != own.get(place)
}
