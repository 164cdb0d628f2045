// `NameAt`: names by their places in a text, sorted, and the search among sorted names.
ghost use Rattle.std.specs.Prelude.{◌≡◌, ◌≤◌, ◌<◌, ◌^◌, IfOk, filter};
ghost use Rattle.std.specs.List.Sorted.{IsPermutation, IsSortedByKey};
ghost use Rattle.std.specs.Ordering.{nat_cmp};
ghost use Rattle.std.specs.Cmp.Lexicographic.{slice_cmp};
ghost use Rattle.nsc_index.specs.Indexes.{Indexes};
ghost use Rattle.nsc_base.specs.declared.search.Case.{Case};
ghost use Rattle.nsc_index.specs.Names.{cased, has_name, name_in, name_key, place_of_name};

use nsc_base::{Case, NoMemory, Span};
use std::cmp::Ordering;

/// Where a name stands in a text, and where the line begins that has it: twelve bytes for a name.
#[derive(Clone, Copy, Debug)]
pub struct NameAt {
    /// The place of the name's first byte.
    pub from: u32,
    /// The place after its last byte.
    pub to: u32,
    /// The place of the first byte of the line.
    pub line: u32,
}

impl NameAt {
    /// A name of a line.
    pub fn new(name: Span, line: Span) -> NameAt
        requires name { name.to < 2 ^ 32 }
        requires line { line.to < 2 ^ 32 }
        ensures { result ≡ place_of_name line name }
    {
        NameAt {
            from: name.from() as u32,
            to: name.to() as u32,
            line: line.from() as u32,
        }
    }

    /// The name, lent. Beyond the end of the text there is nothing of it.
    pub fn name<'t>(&self, text: &'t [u8]) -> &'t [u8]
        ensures { result.now ≡ name_in text.now self.now }
    {
        let from = text.len().min(self.from as usize);
        let to = text.len().min(self.to as usize).max(from);
        &text[from..to]
    }
}

// How two texts stand in order: by their first byte that differs, with regard to the case of ASCII letters or without.
fn order(case: Case, a: &[u8], b: &[u8]) -> Ordering
    ensures { result ≡ slice_cmp nat_cmp (cased case a.now) (cased case b.now) }
{
    match case {
        Case::Counts => a.cmp(&b),
        Case::Ignored => order_in_any_case(a, b),
    }
}

// The same without regard to case.
fn order_in_any_case(a: &[u8], b: &[u8]) -> Ordering
    ensures { result ≡ slice_cmp nat_cmp (cased Case.Ignored a.now) (cased Case.Ignored b.now) }
{
    let lower_a = a.iter().map(|byte| byte.to_ascii_lowercase());
    let lower_b = b.iter().map(|byte| byte.to_ascii_lowercase());
    lower_a.cmp(lower_b)
}

// How two names of a text stand in order.
fn order_of(text: &[u8], case: Case, a: &NameAt, b: &NameAt) -> Ordering
    ensures { result ≡ slice_cmp nat_cmp (name_key case text.now a.now) (name_key case text.now b.now) }
{
    order(case, a.name(text), b.name(text))
}

// How a name of a text stands to another.
fn order_to(text: &[u8], case: Case, at: &NameAt, name: &[u8]) -> Ordering
    ensures { result ≡ slice_cmp nat_cmp (name_key case text.now at.now) (cased case name.now) }
{
    order(case, at.name(text), name)
}

/// The names of a text in their order, and those that are the same in the order in which they were given. Fails only for want
/// of memory.
pub fn sorted_names(
    text: &[u8],
    case: Case,
    mut names: Vec<NameAt>,
) -> Result<Vec<NameAt>, NoMemory>
    ensures index { IfOk result (λ index. Indexes (slice_cmp nat_cmp) (name_key case text.now) names.items index.items) }
    ensures same { IfOk result (λ index. IsPermutation names.items index.items) }
{
    names.shrink_to_fit();
    names.sort_by(|a, b| order_of(text, case, a, b))?;
    Ok(names)
}

/// The places of a name among the names of a text in their order.
pub fn places_of_name<'p>(text: &[u8], case: Case, names: &'p [NameAt], name: &[u8]) -> &'p [NameAt]
    requires { IsSortedByKey (name_key case text.now) (slice_cmp nat_cmp) names.now }
    ensures { result.now ≡ filter (has_name case text.now name.now) names.now }
{
    let from = names.partition_point(|at| order_to(text, case, at, name).is_lt());
    let rest = &names[from..];
    let count = rest.partition_point(|at| order_to(text, case, at, name).is_eq());
    &rest[..count]
}
