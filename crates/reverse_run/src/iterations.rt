ghost use Rattle.std.specs.Prelude.{◌≡◌, ◌<◌, false, true};
ghost use Rattle.reverse_sweep.specs.Reversing.{reversing};
ghost use Rattle.reverse_sweep.specs.Machine.{private_refilled, privates_refilled, privates_cleared, opened_sums, closed_sums, variables_set, count_of};
ghost use Rattle.reverse_state.specs.Holding.{Leaves, on_local, on_stage};
ghost use Rattle.reverse_run.specs.Undoing.{are_below, counts_back, HaveNumbers};

use crate::bounds::{Rounds, set_variables};
use operations::Cells;
use reverse_state::Reverse;
use sweep_steps::PrivateScalar;

/// Gives a private scalar the word that its iteration left on the tape, where it did.
fn refill<C: Cells>(run: &mut Reverse<C>, private: &PrivateScalar)
    ensures { Leaves run.old run.new (on_local (private_refilled run.old.shared private.now.pushes private.now.place)) }
{
    if private.pushes {
        let word = run.pop();
        run.set_own_value(private.place, word);
    }
}

/// The same of all private scalars, whose words were left in their order.
fn refill_all<C: Cells>(run: &mut Reverse<C>, privates: &[PrivateScalar])
    ensures { Leaves run.old run.new (on_local (privates_refilled run.old.shared privates.now)) }
{
    for i in (0..privates.len()).rev() {
        refill(run, &privates[i]);
    }
}

/// Sets the adjoints of private scalars to 0.
fn clear_all<C: Cells>(run: &mut Reverse<C>, privates: &[PrivateScalar])
    ensures { Leaves run.old run.new (on_local (privates_cleared run.old.shared privates.now)) }
{
    for private in privates {
        run.set_own_adjoint(private.place, 0);
    }
}

/// Begins the sums of Reductions.
fn open_sums<C: Cells>(run: &mut Reverse<C>, reductions: &[u32])
    requires { run.old.lost ≡ false → are_below run.old.shared reductions.now ≡ true }
    ensures { Leaves run.old run.new (on_stage (opened_sums run.old.shared reductions.now)) }
{
    for i in (0..reductions.len()).rev() {
        if run.is_lost() {
            return;
        }
        run.open_sum(reductions[i]);
    }
}

/// Adds the sums of Reductions.
pub(crate) fn close_sums<C: Cells>(run: &mut Reverse<C>, reductions: &[u32])
    requires { run.old.lost ≡ false → are_below run.old.shared reductions.now ≡ true }
    ensures { Leaves run.old run.new (on_stage (closed_sums run.old.shared reductions.now)) }
{
    for place in reductions {
        if run.is_lost() {
            return;
        }
        run.close_sum(*place);
    }
}

/// Sets what an iteration begins with beside its tape and the words of the loop's entry: the variables, the private scalars and the sums.
pub(crate) fn prepare<C: Cells>(
    run: &mut Reverse<C>,
    rounds: &Rounds,
    k: u128,
    privates: &[PrivateScalar],
    reductions: &[u32],
)
    requires numbers { HaveNumbers rounds.now }
    requires within { k < count_of (counts_back rounds.now) }
    requires places { run.old.lost ≡ false → are_below run.old.shared reductions.now ≡ true }
    ensures { Leaves run.old run.new (λ s. reversing (privates_cleared run.old.shared privates.now (privates_refilled run.old.shared privates.now
        (variables_set run.old.shared (counts_back rounds.now) k s.local))) (opened_sums run.old.shared reductions.now s.stage)) }
{
    set_variables(run, rounds, k);
    refill_all(run, privates);
    clear_all(run, privates);
    open_sums(run, reductions);
}
