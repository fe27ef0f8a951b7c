ghost use Rattle.std.specs.Prelude.{◌≡◌, [], ◌∷◌, Some, None, ℤ, pos, neg_ℤ};
ghost use Rattle.std.specs.Int.{int_pow};
ghost use Rattle.store_core.specs.Keys.{place_in_slot};
ghost use Rattle.ring_core.specs.Index.{exact_index, index_rem};
ghost use Rattle.sweep_trees.specs.Split.{spot_tree, index_get, index_tree, index_trees};
ghost use Rattle.sweep_evaluation.specs.Machine.{Does, ran, exactly, index_found, larger_index, smaller_index, absolute_index, narrow as narrow_lem, load_at as load_at_lem, spot_place, spot_word, index_value, index_values, ◌to◌, halt_of as halt_of_lem};

use crate::access::Access;
use dual_evaluation::Halt;
use fl_ast::BinOp;
use resolved::SlotTable;
use ring_core::{Index, IndexTrap};
use smallvec::SmallVec;
use sweep_trees::{IndexCode, Spot};

/// The place of subscripts at a slot's name, `None` where there is none.
#[inline(always)]
fn place_at(table: &SlotTable, slot: usize, subscripts: &[i64]) -> Option<u32>
    ensures { result ≡ place_in_slot table.now.0 slot subscripts.now }
{
    if slot < table.layout().shapes().len() {
        table.layout().place_in(slot, subscripts)
    } else {
        None
    }
}

fn halt_of(trap: IndexTrap) -> Halt
    ensures { result ≡ halt_of_lem trap }
{
    match trap {
        IndexTrap::Range => Halt::Range,
        IndexTrap::ZeroDivisor => Halt::ZeroDivisor,
    }
}

/// A number, or the stop for which there is none.
#[inline(always)]
fn exact<A: Access>(access: &mut A, found: Result<Index, IndexTrap>) -> Index
    ensures does { Does A.stands A.lost access.old access.new result (exactly A.told found) }
    ensures steady { A.steady access.new ≡ A.steady access.old }
{
    match found {
        Ok(number) => number,
        Err(trap) => {
            access.stop(halt_of(trap));
            Index::of(0)
        }
    }
}

/// The number of the index kind that a word holds.
#[inline(always)]
fn narrow(word: u64) -> Index
    ensures { result ≡ narrow_lem word }
{
    Index::of(((word % 0x1_0000_0000) as u32).cast_signed())
}

fn operation(op: BinOp, left: Index, right: Index) -> Result<Index, IndexTrap>
    ensures { result ≡ index_found op left right }
{
    match op {
        BinOp::Add => left.add(right),
        BinOp::Sub => left.sub(right),
        BinOp::Mul => left.mul(right),
        BinOp::Div => left.div(right),
    }
}

fn larger(left: Index, right: Index) -> Index
    ensures { result ≡ larger_index left right }
{
    if right.value() <= left.value() {
        left
    } else {
        right
    }
}

fn smaller(left: Index, right: Index) -> Index
    ensures { result ≡ smaller_index left right }
{
    if left.value() <= right.value() {
        left
    } else {
        right
    }
}

fn absolute(number: Index) -> Result<Index, IndexTrap>
    ensures { result ≡ absolute_index number }
{
    if number.value() < 0 {
        number.neg()
    } else {
        Ok(number)
    }
}

/// The word at a place of a slot's name.
#[inline(always)]
fn load_at<A: Access>(access: &mut A, slot: usize, accessed: bool, place: Option<u32>) -> u64
    ensures does { Does A.stands A.lost access.old access.new result (load_at_lem A.told slot accessed place) }
    ensures steady { A.steady access.new ≡ A.steady access.old }
{
    match place {
        Some(place) => access.load(slot, place, accessed),
        None => {
            access.stop(Halt::Bounds { slot });
            0
        }
    }
}

/// The place of an occurrence of a name, `None` outside its bounds.
#[inline(always)]
pub fn locate<A: Access>(access: &mut A, table: &SlotTable, spot: &Spot) -> Option<u32>
    ensures does { Does A.stands A.lost access.old access.new result (spot_place A.told table.now (spot_tree spot.now)) }
    ensures steady { A.steady access.new ≡ A.steady access.old }
{
    match spot {
        Spot::Scalar { place, .. } => Some(*place),
        Spot::Element {
            slot,
            subscript,
            ..
        } => element_place(access, table, *slot, subscript.get()),
        Spot::Elements {
            slot,
            subscripts,
            ..
        } => elements_place(access, table, *slot, subscripts.as_slice()),
    }
}

#[cycle(indices)]
#[inline(always)]
fn element_place<A: Access>(
    access: &mut A,
    table: &SlotTable,
    slot: usize,
    subscript: &IndexCode,
) -> Option<u32>
    ensures does { Does A.stands A.lost access.old access.new result
        (λ s. index_value A.told table.now (index_tree subscript.now) s to (λ z. ran (place_in_slot table.now.0 slot (z ∷ [])))) }
    ensures steady { A.steady access.new ≡ A.steady access.old }
{
    let number = index(access, table, subscript);
    place_at(table, slot, &[i64::from(number.value())])
}

#[cycle(indices)]
#[inline(never)]
fn elements_place<A: Access>(
    access: &mut A,
    table: &SlotTable,
    slot: usize,
    subscripts: &[IndexCode],
) -> Option<u32>
    ensures does { Does A.stands A.lost access.old access.new result
        (λ s. index_values A.told table.now (index_trees subscripts.now) s to (λ zs. ran (place_in_slot table.now.0 slot zs))) }
    ensures steady { A.steady access.new ≡ A.steady access.old }
{
    let mut numbers = SmallVec::<i64, 7>::new(access.alloc());
    for subscript in subscripts {
        let number = index(access, table, subscript);
        if numbers.push(i64::from(number.value())).is_err() {
            access.lose();
            return None;
        }
    }
    place_at(table, slot, numbers.as_slice())
}

/// The number at an occurrence of a name.
#[cycle(indices)]
#[inline(always)]
fn number_at<A: Access>(access: &mut A, table: &SlotTable, spot: &Spot) -> Index
    ensures does { Does A.stands A.lost access.old access.new result (index_value A.told table.now (index_get (spot_tree spot.now))) }
    ensures steady { A.steady access.new ≡ A.steady access.old }
{
    narrow(word_at(access, table, spot))
}

/// The word at an occurrence of a name.
#[cycle(indices)]
#[inline(always)]
pub(crate) fn word_at<A: Access>(access: &mut A, table: &SlotTable, spot: &Spot) -> u64
    ensures does { Does A.stands A.lost access.old access.new result (spot_word A.told table.now (spot_tree spot.now)) }
    ensures steady { A.steady access.new ≡ A.steady access.old }
{
    match spot {
        Spot::Scalar {
            slot,
            place,
            accessed,
        } => access.load(*slot, *place, *accessed),
        Spot::Element {
            slot,
            accessed,
            subscript,
        } => {
            let place = element_place(access, table, *slot, subscript.get());
            load_at(access, *slot, *accessed, place)
        }
        Spot::Elements {
            slot,
            accessed,
            subscripts,
        } => {
            let place = elements_place(access, table, *slot, subscripts.as_slice());
            load_at(access, *slot, *accessed, place)
        }
    }
}

/// The value of an expression of the index kind. Numbers and occurrences take no call.
#[cycle(indices)]
#[inline(always)]
pub fn index<A: Access>(access: &mut A, table: &SlotTable, code: &IndexCode) -> Index
    ensures does { Does A.stands A.lost access.old access.new result (index_value A.told table.now (index_tree code.now)) }
    ensures steady { A.steady access.new ≡ A.steady access.old }
{
    match code {
        IndexCode::Number(number) => Index::of(*number),
        IndexCode::Get(spot) => number_at(access, table, spot),
        _ => index_operation(access, table, code),
    }
}

#[cycle(indices)]
#[inline(never)]
fn index_operation<A: Access>(access: &mut A, table: &SlotTable, code: &IndexCode) -> Index
    ensures does { Does A.stands A.lost access.old access.new result (index_value A.told table.now (index_tree code.now)) }
    ensures steady { A.steady access.new ≡ A.steady access.old }
{
    match code {
        IndexCode::Number(number) => Index::of(*number),
        IndexCode::Get(spot) => number_at(access, table, spot),
        IndexCode::Negated(inner) => {
            let value = index(access, table, inner.get());
            exact(access, value.neg())
        }
        IndexCode::Binary { op, left, right } => {
            let left = index(access, table, left.get());
            let right = index(access, table, right.get());
            exact(access, operation(*op, left, right))
        }
        IndexCode::Power { base, exponent } => {
            let base = index(access, table, base.get());
            exact(access, base.pow(*exponent))
        }
        IndexCode::Larger(left, right) => {
            let left = index(access, table, left.get());
            let right = index(access, table, right.get());
            larger(left, right)
        }
        IndexCode::Smaller(left, right) => {
            let left = index(access, table, left.get());
            let right = index(access, table, right.get());
            smaller(left, right)
        }
        IndexCode::Remainder(left, right) => {
            let left = index(access, table, left.get());
            let right = index(access, table, right.get());
            exact(access, left.rem(right))
        }
        IndexCode::Absolute(inner) => {
            let value = index(access, table, inner.get());
            exact(access, absolute(value))
        }
    }
}
