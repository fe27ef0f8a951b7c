ghost use Rattle.std.specs.Prelude.{◌≡◌, map, if◌then◌else◌, None, Some};
ghost use Rattle.ring_core.specs.Ring.{ring_add, ring_sub};
ghost use Rattle.sweep_trees.specs.Split.{spot_tree};
ghost use Rattle.sweep_steps.specs.Steps.{term_tree};
ghost use Rattle.undo_steps.specs.UndoSteps.{factor_tree, growth_tree, growth_trees, reversal_tree, undo_store_tree};
ghost use Rattle.reverse_sweep.specs.Machine.{factor_value, product as product_lem, signed as signed_lem, growth_run, growths_run, target_adjoint as target_adjoint_lem, cleared, restored, restored_from, plain_run, rest_sum as rest_sum_lem, reversed_by, spread_run, undo_store_run};
ghost use Rattle.reverse_state.specs.Holding.{Gives, Leaves};

use crate::evaluations::{is_met, place_of, value};
use fl_base::Items;
use operations::Cells;
use resolved::SlotTable;
use reverse_state::Reverse;
use ring_core::Ring;
use sweep_steps::Term;
use sweep_trees::Spot;
use undo_steps::{Factor, Growth, Undo};

fn chosen(holds: bool, one: u64, other: u64) -> Ring
    ensures { result ≡ (if holds then one else other) }
{
    if holds {
        Ring::of_word(one)
    } else {
        Ring::of_word(other)
    }
}

/// The value of a factor.
fn factor<C: Cells>(run: &mut Reverse<C>, table: &SlotTable, factor: &Factor) -> Ring
    ensures { Gives run.old run.new result (factor_value table.now run.old.shared (factor_tree factor.now)) }
{
    match factor {
        Factor::Operand(code) => value(run, table, code),
        Factor::Either { one, other, test } => {
            let holds = is_met(run, table, test);
            chosen(holds, *one, *other)
        }
    }
}

/// The product with further factors.
fn product<C: Cells>(
    run: &mut Reverse<C>,
    table: &SlotTable,
    factors: &[Factor],
    start: Ring,
) -> Ring
    ensures { Gives run.old run.new result (product_lem table.now run.old.shared (map factor_tree factors.now) start) }
{
    let mut product = start;
    for each in factors {
        let word = factor(run, table, each);
        product = product.mul(word);
    }
    product
}

fn signed(negative: bool, word: Ring) -> Ring
    ensures { result ≡ signed_lem negative word }
{
    if negative { word.neg() } else { word }
}

/// Adds what an adjoint that was moved is worth there.
fn grow<C: Cells>(run: &mut Reverse<C>, table: &SlotTable, adjoint: Ring, growth: &Growth)
    ensures { Leaves run.old run.new (growth_run table.now run.old.shared adjoint (growth_tree growth.now)) }
{
    let amount = product(run, table, growth.factors.as_slice(), adjoint);
    let place = place_of(run, table, &growth.place);
    let amount = signed(growth.negative, amount);
    run.grow_adjoint(growth.choice, amount.word(), place);
}

fn grow_all<C: Cells>(run: &mut Reverse<C>, table: &SlotTable, adjoint: Ring, growths: &[Growth])
    ensures { Leaves run.old run.new (growths_run table.now run.old.shared adjoint (map growth_tree growths.now)) }
{
    for growth in growths {
        grow(run, table, adjoint, growth);
    }
}

/// The adjoint of a target.
fn target_adjoint<C: Cells>(run: &mut Reverse<C>, table: &SlotTable, target: &Spot) -> Ring
    ensures { Gives run.old run.new result (target_adjoint_lem table.now run.old.shared (spot_tree target.now)) }
{
    let place = place_of(run, table, target);
    Ring::of_word(run.load_adjoint(place))
}

/// Sets the adjoint of a target to 0.
fn clear<C: Cells>(run: &mut Reverse<C>, table: &SlotTable, target: &Spot)
    ensures { Leaves run.old run.new (cleared table.now run.old.shared (spot_tree target.now)) }
{
    let place = place_of(run, table, target);
    run.store_adjoint(0, place);
}

/// Gives a target its old content, where this is on the tape.
fn restore<C: Cells>(run: &mut Reverse<C>, table: &SlotTable, restores: bool, target: &Spot)
    ensures { Leaves run.old run.new (restored table.now run.old.shared restores (spot_tree target.now)) }
{
    if restores {
        let place = place_of(run, table, target);
        let word = run.pop();
        run.store_value(word, place);
    }
}

/// Undoes an assignment that is no increment.
fn undo_plain<C: Cells>(
    run: &mut Reverse<C>,
    table: &SlotTable,
    target: &Spot,
    restores: bool,
    growths: &Option<Items<Growth>>,
)
    ensures { Leaves run.old run.new (plain_run table.now run.old.shared (spot_tree target.now) restores (growth_trees growths.now)) }
{
    match growths {
        None => restore(run, table, restores, target),
        Some(growths) => {
            let adjoint = target_adjoint(run, table, target);
            clear(run, table, target);
            restore(run, table, restores, target);
            grow_all(run, table, adjoint, growths.as_slice());
        }
    }
}

fn without_term(sum: Ring, minus: bool, term: Ring) -> Ring
    ensures { result ≡ (if minus then ring_add sum term else ring_sub sum term) }
{
    if minus { sum.add(term) } else { sum.sub(term) }
}

/// The sum of an increment's terms with their signs turned.
fn turned_sum<C: Cells>(run: &mut Reverse<C>, table: &SlotTable, terms: &[Term]) -> Ring
    ensures { Gives run.old run.new result (rest_sum_lem table.now run.old.shared (map term_tree terms.now) 0) }
{
    let mut sum = Ring::of_word(0);
    for term in terms {
        let word = value(run, table, &term.value);
        sum = without_term(sum, term.minus, word);
    }
    sum
}

/// Takes an increment back, where its target's value is needed.
fn take_back<C: Cells>(
    run: &mut Reverse<C>,
    table: &SlotTable,
    target: &Spot,
    reversal: &Option<Items<Term>>,
    one_step: bool,
)
    ensures { Leaves run.old run.new (reversed_by table.now run.old.shared (spot_tree target.now) (reversal_tree reversal.now) one_step) }
{
    match reversal {
        None => {}
        Some(terms) => {
            let sum = turned_sum(run, table, terms.as_slice());
            let place = place_of(run, table, target);
            run.grow_value(one_step, sum.word(), place);
        }
    }
}

/// Adds what the adjoint of an increment's target is worth.
fn spread<C: Cells>(
    run: &mut Reverse<C>,
    table: &SlotTable,
    target: &Spot,
    growths: &Option<Items<Growth>>,
)
    ensures { Leaves run.old run.new (spread_run table.now run.old.shared (spot_tree target.now) (growth_trees growths.now)) }
{
    match growths {
        None => {}
        Some(growths) => {
            let adjoint = target_adjoint(run, table, target);
            grow_all(run, table, adjoint, growths.as_slice());
        }
    }
}

/// Undoes an assignment or an increment.
pub fn undo_store<C: Cells>(run: &mut Reverse<C>, table: &SlotTable, undo: &Undo)
    ensures { Leaves run.old run.new (undo_store_run table.now run.old.shared (undo_store_tree undo.now)) }
{
    match undo {
        Undo::Plain {
            target,
            restores,
            growths,
        } => undo_plain(run, table, target, *restores, growths),
        Undo::Increment {
            target,
            reversal,
            one_step,
            growths,
        } => {
            take_back(run, table, target, reversal, *one_step);
            spread(run, table, target, growths);
        }
    }
}
