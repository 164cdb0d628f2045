// `NumberAt`: numbers of lines, sorted; search among sorted numbers; and a text's number.
ghost use Rattle.std.specs.Prelude.{◌≡◌, ◌≤◌, ◌<◌, ◌^◌, IfOk, filter};
ghost use Rattle.std.specs.List.Sorted.{IsSortedByKey};
ghost use Rattle.std.specs.Ordering.{nat_cmp};
ghost use Rattle.nsc_index.specs.Indexes.{Indexes};
ghost use Rattle.nsc_index.specs.Numbers.{has_number, number_in, number_with, place_of_number, text_number};

use nsc_base::{NoMemory, Span};
use std::cmp::Ordering;

/// A number of a line, and where the line begins: eight bytes for a number.
#[derive(Clone, Copy, Debug)]
pub struct NumberAt {
    /// The number.
    pub number: u32,
    /// The place of the first byte of the line.
    pub line: u32,
}

impl NumberAt {
    /// A number of a line.
    pub fn new(number: u32, line: Span) -> NumberAt
        requires { line.to < 2 ^ 32 }
        ensures { result ≡ place_of_number line number }
    {
        NumberAt {
            number,
            line: line.from() as u32,
        }
    }
}

// How two numbers stand in order.
fn order_of(a: &NumberAt, b: &NumberAt) -> Ordering
    ensures { result ≡ nat_cmp a.now.number b.now.number }
{
    a.number.cmp(&b.number)
}

// How a number of a line stands to another.
fn order_to(at: &NumberAt, number: u32) -> Ordering
    ensures { result ≡ nat_cmp at.now.number number }
{
    at.number.cmp(&number)
}

/// Numbers of lines in their order, and those that are the same in the order in which they were given. Fails only for want of
/// memory.
pub fn sorted_numbers(mut numbers: Vec<NumberAt>) -> Result<Vec<NumberAt>, NoMemory>
    ensures { IfOk result (λ index. Indexes nat_cmp number_in numbers.items index.items) }
{
    numbers.shrink_to_fit();
    numbers.sort_by(|a, b| order_of(a, b))?;
    Ok(numbers)
}

/// The places of a number among numbers of lines in their order.
pub fn places_of_number(numbers: &[NumberAt], number: u32) -> &[NumberAt]
    requires { IsSortedByKey number_in nat_cmp numbers.now }
    ensures { result.now ≡ filter (has_number number) numbers.now }
{
    let from = numbers.partition_point(|at| order_to(at, number).is_lt());
    let rest = &numbers[from..];
    let count = rest.partition_point(|at| order_to(at, number).is_eq());
    &rest[..count]
}

/// A number that a text gives. Texts of one number are told apart by their bytes.
#[tactic(auto, unfolding(crate::specs::Numbers::text_number))]
pub fn text_number(text: &[u8]) -> u32
    ensures { result ≡ text_number text.now }
{
    text.iter()
        .fold(0u32, |number, byte| number_with(number, *byte))
}

/// The number of a text that has one byte more at its end: nine times itself and that byte, since a processor does no more than two
/// steps for that.
#[tactic(auto, unfolding(crate::specs::Numbers::number_with))]
pub fn number_with(number: u32, byte: u8) -> u32
    ensures { result ≡ number_with number byte }
{
    number.wrapping_mul(9).wrapping_add(u32::from(byte))
}
