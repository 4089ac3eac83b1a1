//! Laws of the rows that rise. Each function does nothing: its contract is the law.

ghost use Rattle.std.specs.Prelude.{◌↔◌, List};
ghost use Rattle.frame_fields.specs.declared.prefixes.PrefixDigest.{PrefixDigest};
ghost use Rattle.frame_fields.specs.declared.keys.KeyDigest.{KeyDigest};
ghost use Rattle.frame_fields.specs.Field.{keys, prefixes};
ghost use Rattle.meta_types.specs.Order.{BytesBefore, PrefixBefore};
ghost use Rattle.frame_fields.specs.Rising.{AreKeyRows, ArePrefixRows, IsRisingThroughout};

/// Rows fit their field exactly if they are at most 8,192, each is lawful by itself, and each
/// stands before the next.
pub fn rows_fit_where_they_rise()
    ensures prefixes { (rows : List PrefixDigest) → prefixes.Fits rows ↔ ArePrefixRows rows }
    ensures keys { (rows : List KeyDigest) → keys.Fits rows ↔ AreKeyRows rows }
{}

/// In rows that fit, each row stands before all that follow it.
pub fn rows_that_fit_rise_throughout()
    ensures prefixes { (rows : List PrefixDigest) → prefixes.Fits rows
        → IsRisingThroughout (λ row later. PrefixBefore row.prefix later.prefix) rows }
    ensures keys { (rows : List KeyDigest) → keys.Fits rows
        → IsRisingThroughout (λ row later. BytesBefore row.key later.key) rows }
{}
