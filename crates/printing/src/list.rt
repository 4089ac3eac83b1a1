//! Lists, joined by commas: contexts, and the values of an object.

ghost use Rattle.std.specs.Prelude.{◌≡◌, ◌++◌, ◌∷◌, [], true, map, OnOk, IfOk, if◌then◌else◌};
ghost use Rattle.dvvset.specs.Clock.{values_of};
ghost use Rattle.printing.specs.Field.{value_text};
ghost use Rattle.printing.specs.Joined.{joined, separated, AddsTexts};
ghost use Rattle.printing.specs.Object.{counter_text, vector_text, object_text};

use crate::field::{add_actor, add_number, add_value};
use dvvset::{Counter, Entries, Entry, Vector, join};
use meta_types::Value;
use std::alloc::AllocError;

/// Adds the comma before a text of a list, unless it stands first.
pub(crate) fn add_comma(out: &mut Vec<u8>, first: bool) -> Result<(), AllocError>
    ensures { OnOk result (out.new.items ≡ out.old.items ++ (if first then [] else 44 ∷ [])) }
{
    if first {
        return Ok(());
    }
    out.push(b',')?;
    Ok(())
}

#[tactic(auto, unfolding(crate::specs::Object::counter_text))]
fn add_counter(out: &mut Vec<u8>, counter: Counter) -> Result<(), AllocError>
    ensures { OnOk result (out.new.items ≡ out.old.items ++ counter_text counter) }
{
    add_actor(out, counter.id())?;
    out.push(b':')?;
    add_number(out, counter.count())
}

/// Adds counters, with a comma before each except the first.
fn add_counters(out: &mut Vec<u8>, counters: &[Counter]) -> Result<(), AllocError>
    ensures { OnOk result (out.new.items ≡ out.old.items
        ++ separated true (map counter_text counters.now)) }
{
    let mut first = true;
    for counter in counters {
        add_comma(out, first)?;
        add_counter(out, *counter)?;
        first = false;
    }
    Ok(())
}

/// Adds a context, as `0.1:2,1.1:1`, or `-` for the context that has read nothing.
pub(crate) fn add_vector(out: &mut Vec<u8>, vector: &Vector) -> Result<(), AllocError>
    ensures { OnOk result (out.new.items ≡ out.old.items ++ vector_text vector.now) }
{
    if vector.counters().is_empty() {
        return out.extend_from_slice(b"-");
    }
    add_counters(out, vector.counters())
}

/// Adds values, with a comma before each; the first has none if `first` is true. Returns whether
/// the next value would stand first.
fn add_values(out: &mut Vec<u8>, values: &[Value], first: bool) -> Result<bool, AllocError>
    ensures { IfOk result (λ next. AddsTexts first
        (map value_text values.now) out.old.items out.new.items next) }
{
    let mut first = first;
    for value in values {
        add_comma(out, first)?;
        add_value(out, value)?;
        first = false;
    }
    Ok(first)
}

/// Adds values, as `y,x`, or `-` for none.
pub(crate) fn add_value_list(out: &mut Vec<u8>, values: &[Value]) -> Result<(), AllocError>
    ensures { OnOk result (out.new.items ≡ out.old.items ++ joined (map value_text values.now)) }
{
    if values.is_empty() {
        return out.extend_from_slice(b"-");
    }
    add_values(out, values, true)?;
    Ok(())
}

/// Adds the values of entries, as `add_values` does.
fn add_entries(out: &mut Vec<u8>, entries: &[Entry]) -> Result<bool, AllocError>
    ensures { IfOk result (λ next. AddsTexts true
        (map value_text (values_of entries.now)) out.old.items out.new.items next) }
{
    let mut first = true;
    for entry in entries {
        first = add_values(out, entry.values(), first)?;
    }
    Ok(first)
}

/// Adds an object: its context, and the values that it shows, as `ctx 0.1:2 values y,x`. It takes
/// memory for the context.
pub(crate) fn add_object(out: &mut Vec<u8>, object: &Entries) -> Result<(), AllocError>
    ensures { OnOk result (out.new.items ≡ out.old.items ++ object_text object.now) }
{
    out.extend_from_slice(b"ctx ")?;
    add_vector(out, &join(*out.allocator(), object)?)?;
    out.extend_from_slice(b" values ")?;
    if add_entries(out, object.entries())? {
        out.extend_from_slice(b"-")?;
    }
    Ok(())
}
