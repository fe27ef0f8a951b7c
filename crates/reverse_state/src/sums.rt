ghost use Rattle.std.specs.Prelude.{◌≡◌, ◌<◌, ◌∷◌, ℕ, length, if◌then◌else◌, IfSome, OnOk, OnErr, Some, None, false};
ghost use Rattle.reverse_sweep.specs.Reversing.{summed, first_sum, later_sums};
ghost use Rattle.reverse_state.specs.Holding.{sums_back, with_added, cell_in, summed_at};

use fl_base::Memory;

/// The sum of additions to a cell that are made later on.
#[derive(Clone, Copy, Debug)]
pub(crate) struct Sum {
    pub cell: u32,
    pub amount: u64,
}

/// Adds to the sum at a position.
fn add_at(sums: &mut Vec<Sum>, at: usize, amount: u64)
    requires { at < length sums.old.items }
    ensures { sums.new.items ≡ with_added at amount sums.old.items }
{
    let sum = sums[at];
    sums[at] = Sum {
        cell: sum.cell,
        amount: sum.amount.wrapping_add(amount),
    };
}

fn cell_at(sums: &[Sum], at: usize) -> u32
    requires { at < length sums.now }
    ensures { result ≡ cell_in sums.now at }
{
    sums[at].cell
}

/// Where the newest sum of a cell is.
fn position(sums: &[Sum], cell: u32) -> Option<usize>
    ensures value { (a : ℕ) → summed cell a (sums_back sums.now) ≡ summed_at sums.now a result }
    ensures within { IfSome result (λ at. at < length sums.now) }
{
    for i in (0..sums.len()).rev() {
        if cell_at(sums, i) == cell {
            return Some(i);
        }
    }
    None
}

/// Adds to the newest sum of a cell, where there is one.
pub(crate) fn add_to(sums: &mut Vec<Sum>, cell: u32, amount: u64) -> bool
    ensures summed { summed cell amount (sums_back sums.old.items) ≡ (if result then Some (sums_back sums.new.items) else None) }
    ensures kept { result ≡ false → sums.new.items ≡ sums.old.items }
{
    match position(sums, cell) {
        None => false,
        Some(at) => {
            add_at(sums, at, amount);
            true
        }
    }
}

/// Begins a sum.
pub(crate) fn put_sum(sums: &mut Vec<Sum>, cell: u32) -> Result<(), Memory>
    ensures { OnOk result (sums_back sums.new.items ≡ (cell, 0) ∷ sums_back sums.old.items) }
{
    sums.push(Sum { cell, amount: 0 })?;
    Ok(())
}

/// Takes the newest sum: what it came to, 0 where there is none.
pub(crate) fn last_amount(sums: &mut Vec<Sum>) -> u64
    ensures amount { result ≡ first_sum (sums_back sums.old.items) }
    ensures later { sums_back sums.new.items ≡ later_sums (sums_back sums.old.items) }
{
    match sums.pop() {
        None => 0,
        Some(sum) => sum.amount,
    }
}
