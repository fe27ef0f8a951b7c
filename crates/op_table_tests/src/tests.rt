ghost use Rattle.std.specs.Prelude.{◌≡◌, ◌<◌, ◌^◌, ◌+◌, ◌*◌, IfOk, vec_len};

use crate::lists::{Lists, after_team, table_of};
use fl_base::Memory;
use op_table::{OpTable, Plan, Worker};
use std::alloc::Global;
use std::test::Fail;
use std::thread::{Threads, join};

const CHUNKS: u32 = 48;

// The words first, first + step and so on.
fn row(alloc: Global, first: u64, step: u64, count: usize) -> Result<Vec<u64>, Memory>
    ensures { IfOk result (λ v. vec_len v ≡ count) }
{
    let mut words = vec![in alloc; 0u64; count]?;
    let mut next = first;
    for word in words.as_mut_slice() {
        *word = next;
        next = next.wrapping_add(step);
    }
    Ok(words)
}

fn opening(alloc: Global, round: u64) -> Result<Vec<u64>, Memory>
    ensures { IfOk result (λ v. vec_len v ≡ 4 * CHUNKS + 1) }
{
    row(alloc, round, u64::MAX / 7, 193)
}

fn tape(alloc: Global, round: u64) -> Result<Vec<u64>, Memory>
    ensures { IfOk result (λ v. vec_len v ≡ 2 * CHUNKS) }
{
    row(alloc, 3, (u64::MAX / 5).wrapping_sub(round), 96)
}

fn lists(alloc: Global, round: u64) -> Result<Lists, Memory>
    ensures { IfOk result (λ lists. lists.chunks ≡ CHUNKS) }
{
    let opening = opening(alloc, round)?;
    let tape = tape(alloc, round)?;
    Ok(Lists::of(opening, tape, CHUNKS))
}

// The same by one thread over a plain list.
fn plain(alloc: Global, round: u64) -> Result<Vec<u64>, Memory> {
    let mut words = opening(alloc, round)?;
    let tape = tape(alloc, round)?;
    let mut sum = words[192];
    for (i, amount) in tape.iter().enumerate() {
        let word = words[2 * i];
        words[2 * i] = word.wrapping_add(*amount);
        words[2 * i + 1] = word;
        sum = sum.wrapping_add(word);
    }
    words[192] = sum;
    Ok(words)
}

#[test]
fn teams_give_what_one_thread_gives(rt: HostRuntime) -> Result<(), Fail> {
    for round in 0..1000 {
        let one = plain(rt.alloc(), round)?;
        for workers in [1, 2, 64] {
            let words = after_team(&rt, rt.alloc(), lists(rt.alloc(), round)?, workers)?;
            assert_eq!(rt; words.as_slice(), one.as_slice());
        }
    }
    Ok(())
}

fn claim_and_draw<P: Plan>(table: &OpTable<P>, mut worker: Worker<P>) -> (bool, u64)
    requires fits { worker.seat.table_id ≡ table.now.table.shared.table_id }
    requires chunk { 0 < table.now.table.shared.key.chunks }
{
    let is_mine = worker.claim(table, 0);
    let number = worker.draw(table);
    (is_mine, number)
}

// Two workers claim the one chunk and draw, each in its thread.
fn two_claims<R: Threads + Sync>(
    rt: &R,
    table: &OpTable<Lists>,
    one: Worker<Lists>,
    two: Worker<Lists>,
) -> ((bool, u64), (bool, u64))
    requires one { one.seat.table_id ≡ table.now.table.shared.table_id }
    requires two { two.seat.table_id ≡ table.now.table.shared.table_id }
    requires chunk { 0 < table.now.table.shared.key.chunks }
{
    join(
        rt,
        move || -> (bool, u64)
            requires fits { one.seat.table_id ≡ table.now.table.shared.table_id }
            requires chunk { 0 < table.now.table.shared.key.chunks }
        { claim_and_draw(table, one) },
        move || -> (bool, u64)
            requires fits { two.seat.table_id ≡ table.now.table.shared.table_id }
            requires chunk { 0 < table.now.table.shared.key.chunks }
        { claim_and_draw(table, two) },
    )
}

#[test]
fn of_two_claims_one_is_met(rt: HostRuntime) -> Result<(), Fail> {
    for round in 0..1000 {
        let lists = lists(rt.alloc(), round)?;
        let (table, mut one) = table_of(rt.alloc(), lists, 2)?;
        let two = one.split(&table, 1);
        let ((mine, first), (theirs, second)) = two_claims(&rt, &table, one, two);
        assert!(rt; mine != theirs);
        assert_eq!(rt; first.wrapping_add(second), 1);
    }
    Ok(())
}
