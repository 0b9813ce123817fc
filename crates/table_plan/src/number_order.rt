//! `NumberOrder`: numbers in an order, with deletion in constant time.

ghost use Rattle.std.specs.Prelude.{◌≡◌, IfOk};
ghost use Rattle.std.specs.List.{range_with_len};

use crate::Memory;
use std::alloc::Global;
use std::marker::Model;

/// Record numbers in an order, from which one is deleted by its number in constant time.
#[derive(Drop)]
pub struct NumberOrder {
    numbers: Vec<usize>,
    /// By number, the position of each that is in the order.
    positions: Vec<usize>,
}

impl Model for NumberOrder {
    ghost use Rattle.std.specs.Prelude.{ℕ, List};
    ghost use Rattle.table_plan.specs.Positions.{ArePositions};

    ghost Value = { List ℕ };

    ghost view = { λ o. o.numbers.items };

    ghost invariant = { λ o. ArePositions o.numbers.items o.positions.items };
}

impl NumberOrder {
    ghost use Rattle.std.specs.Prelude.{◌≡◌, ◌≢◌, ◌==◌, ℕ, AllPairs, IfOk, Contains};
    ghost use Rattle.std.specs.List.{range_with_len};
    ghost use Rattle.peer_rec.specs.Deletion.{without_first};

    /// Returns the numbers below `count` in increasing order.
    pub(crate) fn up_to(alloc: Global, count: usize) -> Result<NumberOrder, Memory>
        ensures { IfOk result (λ order. order ≡ range_with_len 0 count) }
    {
        let numbers = counted(alloc, count)?;
        let positions = Vec::from_slice(alloc, numbers.as_slice())?;
        Ok(NumberOrder { numbers, positions })
    }

    /// Returns the numbers in their order, and drops their positions.
    pub fn into_numbers(self) -> Vec<usize>
        ensures numbers { result.items ≡ self }
        ensures distinct { AllPairs (λ m n. m ≢ n) result.items }
    {
        self.numbers
    }

    /// Deletes a number. The last one of the order moves to its position.
    pub(crate) fn delete(&mut self, number: usize)
        requires { Contains self.old number }
        ensures deleted { self.new ≡ without_first (λ n. n == number) self.old }
        ensures others { (other : ℕ) → other ≢ number → Contains self.old other
            → Contains self.new other }
    {
        let position = self.positions[number];
        self.numbers.swap_remove(position);
        if position < self.numbers.len() {
            let moved = self.numbers[position];
            self.positions[moved] = position;
        }
    }
}

/// Returns the numbers below `count`.
fn counted(alloc: Global, count: usize) -> Result<Vec<usize>, Memory>
    ensures { IfOk result (λ v. v.items ≡ range_with_len 0 count) }
{
    let mut numbers = Vec::with_capacity(alloc, count)?;
    for number in 0..count {
        numbers.push(number)?;
    }
    Ok(numbers)
}
