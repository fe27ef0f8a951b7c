ghost use Rattle.std.specs.Prelude.{◌≡◌, map, if◌then◌else◌};
ghost use Rattle.ring_core.specs.Ring.{ring_add, ring_sub};
ghost use Rattle.split_trees.specs.Codes.{code_tree};
ghost use Rattle.sweep_trees.specs.Split.{spot_tree};
ghost use Rattle.sweep_steps.specs.Steps.{term_tree, store_tree};
ghost use Rattle.sweep_evaluation.specs.Machine.{Does, spot_slot as spot_slot_lem, is_accessed as is_accessed_lem};
ghost use Rattle.forward_state.specs.Holding.{Holds, Leaves, ticks_of};
ghost use Rattle.forward_sweep.specs.Machine.{code_value as code_value_lem, put_at as put_at_lem, put as put_lem, slot_kind as slot_kind_lem, assign_run, terms_sum as terms_sum_lem, add_at as add_at_lem, add as add_lem, update_run, store_run};

use dual_evaluation::Halt;
use fl_ast::Kind;
use fl_types::AccessKind;
use forward_state::Forward;
use meaning::{Dual, Value};
use resolved::SlotTable;
use ring_core::Ring;
use split_trees::Code;
use sweep_evaluation::{Access, index, locate, ring};
use sweep_steps::{Store, Term};
use sweep_trees::Spot;
use touches::Watch;

#[inline(always)]
fn spot_slot(spot: &Spot) -> usize
    ensures { result ≡ spot_slot_lem (spot_tree spot.now) }
{
    match spot {
        Spot::Scalar { slot, .. } => *slot,
        Spot::Element { slot, .. } => *slot,
        Spot::Elements { slot, .. } => *slot,
    }
}

#[inline(always)]
fn is_accessed(spot: &Spot) -> bool
    ensures { result ≡ is_accessed_lem (spot_tree spot.now) }
{
    match spot {
        Spot::Scalar { accessed, .. } => *accessed,
        Spot::Element { accessed, .. } => *accessed,
        Spot::Elements { accessed, .. } => *accessed,
    }
}

/// The kind of a slot's name.
fn slot_kind(table: &SlotTable, slot: usize) -> Kind
    ensures { result ≡ slot_kind_lem table.now slot }
{
    if slot < table.layout().shapes().len() {
        table.kind(slot)
    } else {
        Kind::Index
    }
}

fn plain(word: Ring) -> Value
    ensures { result ≡ Rattle.forward_sweep.specs.Machine.plain word }
{
    Value::Ring(Dual::constant(word))
}

/// The value of an expression of either kind.
#[inline(always)]
fn code_value<W: Watch>(run: &mut Forward<W>, table: &SlotTable, code: &Code) -> Value
    ensures does { Does (λ f s. Holds f.run (W.stands_for f.watch) (W.places f.watch) W.judge s) (λ f. f.run.lost) run.old run.new result
        (code_value_lem table.now (code_tree code.now)) }
    ensures ticks { ticks_of run.new.run ≡ ticks_of run.old.run }
{
    match code {
        Code::Ring(code) => {
            let word = ring(run, table, code.get());
            plain(word)
        }
        Code::Index(code) => {
            let number = index(run, table, code.get());
            Value::Index(number)
        }
    }
}

/// The touch, the old content's word, and the store.
#[inline(always)]
fn put_at<W: Watch>(run: &mut Forward<W>, accessed: bool, pushes: bool, value: Value, place: u32)
    ensures left { Leaves run.old.run run.new.run (W.stands_for run.old.watch) (W.stands_for run.new.watch)
        (W.places run.old.watch) (W.places run.new.watch) W.judge (put_at_lem accessed pushes value place) }
    ensures ticks { ticks_of run.new.run ≡ ticks_of run.old.run }
{
    run.touch_if(accessed, place, AccessKind::Write);
    run.push_old(pushes, place);
    run.set(place, Some(value));
}

/// The store of a value, where its target has a place.
#[inline(always)]
fn put<W: Watch>(
    run: &mut Forward<W>,
    table: &SlotTable,
    pushes: bool,
    target: &Spot,
    value: Value,
    place: Option<u32>,
)
    ensures left { Leaves run.old.run run.new.run (W.stands_for run.old.watch) (W.stands_for run.new.watch)
        (W.places run.old.watch) (W.places run.new.watch) W.judge (put_lem table.now pushes (spot_tree target.now) value place) }
    ensures ticks { ticks_of run.new.run ≡ ticks_of run.old.run }
{
    let slot = spot_slot(target);
    match place {
        None => run.stop(Halt::Bounds { slot }),
        Some(place) => {
            let value = value.as_kind(slot_kind(table, slot));
            put_at(run, is_accessed(target), pushes, value, place);
        }
    }
}

fn assign<W: Watch>(
    run: &mut Forward<W>,
    table: &SlotTable,
    pushes: bool,
    target: &Spot,
    value: &Code,
)
    ensures left { Leaves run.old.run run.new.run (W.stands_for run.old.watch) (W.stands_for run.new.watch)
        (W.places run.old.watch) (W.places run.new.watch) W.judge (assign_run table.now pushes (spot_tree target.now) (code_tree value.now)) }
    ensures ticks { ticks_of run.new.run ≡ ticks_of run.old.run }
{
    let value = code_value(run, table, value);
    let place = locate(run, table, target);
    put(run, table, pushes, target, value, place);
}

fn with_term(sum: Ring, minus: bool, term: Ring) -> Ring
    ensures { result ≡ (if minus then ring_sub sum term else ring_add sum term) }
{
    if minus { sum.sub(term) } else { sum.add(term) }
}

/// The sum of an increment's terms.
fn terms_sum<W: Watch>(run: &mut Forward<W>, table: &SlotTable, terms: &[Term]) -> Ring
    ensures does { Does (λ f s. Holds f.run (W.stands_for f.watch) (W.places f.watch) W.judge s) (λ f. f.run.lost) run.old run.new result
        (terms_sum_lem table.now (map term_tree terms.now) 0) }
    ensures ticks { ticks_of run.new.run ≡ ticks_of run.old.run }
{
    let mut sum = Ring::of_word(0);
    for term in terms {
        let word = ring(run, table, &term.value);
        sum = with_term(sum, term.minus, word);
    }
    sum
}

/// Adds to a place, which has to be set.
#[inline(always)]
fn add_at<W: Watch>(
    run: &mut Forward<W>,
    accessed: bool,
    kind: AccessKind,
    sum: Ring,
    slot: usize,
    place: u32,
    content: Option<Value>,
)
    ensures left { Leaves run.old.run run.new.run (W.stands_for run.old.watch) (W.stands_for run.new.watch)
        (W.places run.old.watch) (W.places run.new.watch) W.judge (add_at_lem accessed kind sum slot place content) }
    ensures ticks { ticks_of run.new.run ≡ ticks_of run.old.run }
{
    match content {
        None => run.stop(Halt::Unset { slot }),
        Some(value) => {
            run.touch_if(accessed, place, kind);
            run.set(place, Some(plain(value.as_dual().value.add(sum))));
        }
    }
}

#[inline(always)]
fn add<W: Watch>(
    run: &mut Forward<W>,
    kind: AccessKind,
    target: &Spot,
    sum: Ring,
    place: Option<u32>,
)
    ensures left { Leaves run.old.run run.new.run (W.stands_for run.old.watch) (W.stands_for run.new.watch)
        (W.places run.old.watch) (W.places run.new.watch) W.judge (add_lem kind (spot_tree target.now) sum place) }
    ensures ticks { ticks_of run.new.run ≡ ticks_of run.old.run }
{
    let slot = spot_slot(target);
    match place {
        None => run.stop(Halt::Bounds { slot }),
        Some(place) => {
            let content = run.content(place);
            add_at(run, is_accessed(target), kind, sum, slot, place, content);
        }
    }
}

fn update<W: Watch>(
    run: &mut Forward<W>,
    table: &SlotTable,
    kind: AccessKind,
    target: &Spot,
    terms: &[Term],
)
    ensures left { Leaves run.old.run run.new.run (W.stands_for run.old.watch) (W.stands_for run.new.watch)
        (W.places run.old.watch) (W.places run.new.watch) W.judge (update_run table.now kind (spot_tree target.now) (map term_tree terms.now)) }
    ensures ticks { ticks_of run.new.run ≡ ticks_of run.old.run }
{
    let sum = terms_sum(run, table, terms);
    let place = locate(run, table, target);
    add(run, kind, target, sum, place);
}

/// Runs an assignment or an increment.
pub fn run_store<W: Watch>(run: &mut Forward<W>, table: &SlotTable, store: &Store)
    ensures left { Leaves run.old.run run.new.run (W.stands_for run.old.watch) (W.stands_for run.new.watch)
        (W.places run.old.watch) (W.places run.new.watch) W.judge (store_run table.now (store_tree store.now)) }
    ensures ticks { ticks_of run.new.run ≡ ticks_of run.old.run }
{
    match store {
        Store::Assign {
            line,
            pushes,
            target,
            value,
        } => {
            run.at_line(*line);
            assign(run, table, *pushes, target, value);
        }
        Store::Update {
            line,
            kind,
            target,
            terms,
        } => {
            run.at_line(*line);
            update(run, table, *kind, target, terms.as_slice());
        }
    }
}
