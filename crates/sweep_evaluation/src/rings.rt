ghost use Rattle.std.specs.Prelude.{◌≡◌};
ghost use Rattle.sweep_trees.specs.Split.{index_tree, widened as widened_tree, ring_tree};
ghost use Rattle.sweep_evaluation.specs.Machine.{Does, widen as widen_lem, ring_found, larger_word, smaller_word, absolute_word, ring_value};

use crate::access::Access;
use crate::indices::{index, word_at};
use resolved::SlotTable;
use ring_core::{Index, Ring, Width};
use sweep_trees::{IndexCode, RingCode, RingOp};

fn widen(number: Index) -> Ring
    ensures { result ≡ widen_lem number }
{
    Ring::from_signed(i64::from(number.value()))
}

fn operation(op: RingOp, left: Ring, right: Ring) -> Ring
    ensures { result ≡ ring_found op left right }
{
    match op {
        RingOp::Add => left.add(right),
        RingOp::Sub => left.sub(right),
        RingOp::Mul => left.mul(right),
    }
}

fn larger(width: Width, left: Ring, right: Ring) -> Ring
    ensures { result ≡ larger_word width left right }
{
    if right.signed_at(width) <= left.signed_at(width) {
        left
    } else {
        right
    }
}

fn smaller(width: Width, left: Ring, right: Ring) -> Ring
    ensures { result ≡ smaller_word width left right }
{
    if left.signed_at(width) <= right.signed_at(width) {
        left
    } else {
        right
    }
}

fn absolute(width: Width, value: Ring) -> Ring
    ensures { result ≡ absolute_word width value }
{
    if value.signed_at(width) < 0 {
        value.neg()
    } else {
        value
    }
}

#[inline(always)]
fn widened<A: Access>(access: &mut A, table: &SlotTable, code: &IndexCode) -> Ring
    ensures does { Does A.stands A.lost access.old access.new result (ring_value A.told table.now (widened_tree (index_tree code.now))) }
    ensures steady { A.steady access.new ≡ A.steady access.old }
{
    widen(index(access, table, code))
}

/// The value of an expression of the ring kind. Constants and occurrences take no call.
#[cycle(rings)]
#[inline(always)]
pub fn ring<A: Access>(access: &mut A, table: &SlotTable, code: &RingCode) -> Ring
    ensures does { Does A.stands A.lost access.old access.new result (ring_value A.told table.now (ring_tree code.now)) }
    ensures steady { A.steady access.new ≡ A.steady access.old }
{
    match code {
        RingCode::Word(word) => Ring::of_word(*word),
        RingCode::Get(spot) => Ring::of_word(word_at(access, table, spot)),
        _ => ring_operation(access, table, code),
    }
}

#[cycle(rings)]
#[inline(never)]
fn ring_operation<A: Access>(access: &mut A, table: &SlotTable, code: &RingCode) -> Ring
    ensures does { Does A.stands A.lost access.old access.new result (ring_value A.told table.now (ring_tree code.now)) }
    ensures steady { A.steady access.new ≡ A.steady access.old }
{
    match code {
        RingCode::Word(word) => Ring::of_word(*word),
        RingCode::Get(spot) => Ring::of_word(word_at(access, table, spot)),
        RingCode::Widened(inner) => widened(access, table, inner),
        RingCode::Negated(inner) => {
            let value = ring(access, table, inner.get());
            value.neg()
        }
        RingCode::Binary { op, left, right } => {
            let left = ring(access, table, left.get());
            let right = ring(access, table, right.get());
            operation(*op, left, right)
        }
        RingCode::Power { base, exponent } => {
            let base = ring(access, table, base.get());
            base.pow(*exponent)
        }
        RingCode::Larger(left, right) => {
            let left = ring(access, table, left.get());
            let right = ring(access, table, right.get());
            larger(table.width(), left, right)
        }
        RingCode::Smaller(left, right) => {
            let left = ring(access, table, left.get());
            let right = ring(access, table, right.get());
            smaller(table.width(), left, right)
        }
        RingCode::Absolute(inner) => {
            let value = ring(access, table, inner.get());
            absolute(table.width(), value)
        }
    }
}
