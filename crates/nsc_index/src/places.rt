//! Lines of a text by the places at which they begin.

ghost use Rattle.std.specs.Prelude.{◌≡◌, ◌++◌, ℕ, List, [], Bool, IfOk, OnOk, map};
ghost use Rattle.std.specs.List.{filter_map};
ghost use Rattle.std.specs.List.Sorted.{IsStrictlyIncreasing};
ghost use Rattle.nsc_base.specs.Text.{line_spans};
ghost use Rattle.nsc_model.specs.Entries.{first_of};
ghost use Rattle.nsc_accounts.specs.Matters.{AreLines};
ghost use Rattle.nsc_index.specs.Signs.{Adds, has_place};

use crate::lines::line_on;
use crate::names::NameAt;
use crate::numbers::NumberAt;
use nsc_base::{NoMemory, Span};
use std::alloc::Global;

/// Adds the places of the lines of names.
pub fn add_named(names: &[NameAt], places: &mut Vec<u32>) -> Result<(), NoMemory>
    ensures { OnOk result (places.new.items ≡ places.old.items ++ map (λ at. at.line) names.now) }
{
    for at in names {
        places.push(at.line)?;
    }
    Ok(())
}

/// Adds the places of the lines of numbers.
pub fn add_numbered(numbers: &[NumberAt], places: &mut Vec<u32>) -> Result<(), NoMemory>
    ensures { OnOk result (places.new.items ≡ places.old.items ++ map (λ at. at.line) numbers.now) }
{
    for at in numbers {
        places.push(at.line)?;
    }
    Ok(())
}

/// The lines that begin at some places of a text, each once and in its order. Fails only for want of memory.
pub fn lines_at(alloc: Global, text: &[u8], places: Vec<u32>) -> Result<Vec<Span>, NoMemory>
    ensures { IfOk result (λ lines. (test : List ℕ → Bool) → Adds text.now test [] places.items → AreLines text.now test lines.items) }
{
    let places = in_order(places);
    lines_on(alloc, text, &places)
}

// The places from the lowest to the highest, each once.
fn in_order(mut places: Vec<u32>) -> Vec<u32>
    ensures rises { IsStrictlyIncreasing result.items }
    ensures same { (place : ℕ) → has_place result.items place ≡ has_place places.items place }
{
    places.sort_unstable();
    places.dedup();
    places
}

// The line that begins at each of these places.
fn lines_on(alloc: Global, text: &[u8], places: &[u32]) -> Result<Vec<Span>, NoMemory>
    ensures { IfOk result (λ lines. lines.items ≡ filter_map (λ place. first_of (line_spans text.now place)) places.now) }
{
    let lines = places
        .iter()
        .filter_map(|place| line_on(text, *place))
        .collect(alloc)?;
    Ok(lines)
}
