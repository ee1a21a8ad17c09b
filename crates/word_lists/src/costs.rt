//! What words cost by their numbers, as the lines of a file say it.

ghost use Rattle.std.specs.Prelude.{◌++◌, ◌∷◌, ◌≡◌, [], Err, IfOk, length, map, None, OnOk, Some};
ghost use Rattle.std.specs.Prelude.{ℕ};
ghost use Rattle.word_lists.specs.Words.{cost_of_line, cost_of_number, costs_of_lines};
ghost use Rattle.word_lists.specs.Words.{IsFirstWithoutCost};

use crate::lines::split_line;
use device_lines::parse_number;
use std::alloc::Allocator;

/// Why lines aren't read as costs.
#[derive(Clone, Copy, Debug, PartialEq, Eq)]
pub enum CostsError {
    /// The line at this index, counted from 0, has no cost.
    Line(usize),
    /// An allocation was refused.
    Memory,
}

/// What words cost by their numbers: a word with a number costs what the line at this index says, counted from 0. A line says a whole number
/// from 0 to 2147483647, in figures. What stands behind its first tab doesn't count, so a tag or a note may stand there.
///
/// ```
/// let costs = costs_of(rt.alloc(), &[b"700", b"30\tnoun"])?;
/// assert_eq!(rt; costs.as_slice(), [700, 30].as_slice());
/// ```
///
/// # Errors
/// `Line` if a line has no cost: the first of these. `Memory` if an allocation was refused.
pub fn costs_of<A: Allocator>(alloc: A, lines: &[&[u8]]) -> Result<Vec<u32, A>, CostsError>
    //= The costs that lines say are read line after line, each as its figures before the first tab say.
    ensures costs { IfOk result (λ costs. map Some costs.items ≡ costs_of_lines lines.now) }

    //= They are refused with `Line` only if the line that it names is the first one without a cost.
    ensures lacking { (index : ℕ) → result ≡ Err (CostsError.Line index) → IsFirstWithoutCost lines.now index }
{
    let mut costs = Vec::new(alloc);
    for index in 0..lines.len() {
        push_cost(&mut costs, lines[index])?;
    }
    Ok(costs)
}

/// Collects what a line says that a word costs.
fn push_cost<A: Allocator>(costs: &mut Vec<u32, A>, line: &[u8]) -> Result<(), CostsError>
    ensures ok { OnOk result (map Some costs.new.items ≡ map Some costs.old.items ++ cost_of_line line.now ∷ []) }
    ensures lacking { (index : ℕ) → result ≡ Err (CostsError.Line index) → (cost_of_line line.now ≡ None) × (length costs.old.items ≡ index) }
{
    let Some(cost) = cost_of(line) else {
        return Err(CostsError::Line(costs.len()));
    };
    match costs.push(cost) {
        Ok(()) => Ok(()),
        Err(_) => Err(CostsError::Memory),
    }
}

/// What a line says that a word costs.
fn cost_of(line: &[u8]) -> Option<u32>
    ensures { result ≡ cost_of_line line.now }
{
    let (figures, _) = split_line(line);
    cost_in(parse_number(figures))
}

/// A number as a cost: none is negative.
fn cost_in(number: Option<i32>) -> Option<u32>
    ensures { result ≡ cost_of_number number }
{
    match number {
        Some(number) => cost_of_number(number),
        None => None,
    }
}

/// A number as a cost, if it isn't negative.
fn cost_of_number(number: i32) -> Option<u32>
    ensures { result ≡ cost_of_number (Some number) }
{
    if number < 0 {
        return None;
    }
    Some(number.unsigned_abs())
}
