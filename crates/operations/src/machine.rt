//! What is so of the machine whose lists have holders, of single cells, and of races.
ghost use Rattle.std.specs.Prelude.{◌≡◌, ◌≢◌, ℕ, ◌+◌, ◌%◌, ◌^◌, ◌<◌, ◌≤◌, true, false, List, length, Option, None, take, slice_index};
ghost use Rattle.operations.specs.declared.op.Op.{Op};
ghost use Rattle.operations.specs.Ops.{cell_of, acts, acts_all};
ghost use Rattle.operations.specs.Cell.{word_by, word_after, joint_word, is_stored, joint_amounts};
ghost use Rattle.operations.specs.Order.{in_order, IsDisciplined, joint_cells, Follows, AllEnded};
ghost use Rattle.operations.specs.Holders.{Event, AllEventsBelow, AllMayHappen, crew_start, crew_after_all, IsReached};
ghost use Rattle.operations.specs.Race.{Races, IsToldRace};

/// An operation changes the word of its cell, and of no other. So the cells after operations, and the joint state, are
/// told cell by cell.
pub fn one_cell()
    ensures own { (o : Op) (c : List ℕ) → cell_of o < length c
        → slice_index (acts o c) (cell_of o) ≡ word_by o (slice_index c (cell_of o)) }
    ensures other { (o : Op) (c : List ℕ) (p : ℕ) → p ≢ cell_of o → slice_index (acts o c) p ≡ slice_index c p }
    ensures all { (os : List Op) (p : ℕ) (c : List ℕ) → p < length c
        → slice_index (acts_all os c) p ≡ word_after p os (slice_index c p) }
    ensures joint { (ops : ℕ → List Op) (at : ℕ → ℕ) (n p : ℕ) (c : List ℕ) → p < length c
        → slice_index (joint_cells ops at n c) p ≡ joint_word p ops at n (slice_index c p) }
{}

/// Under the discipline a cell that a list stores or bumps has in the joint state what this list's operations so far make
/// of it, and a cell that no list stores or bumps has its first word and all amounts added so far.
pub fn joint_cell()
    ensures stored { (ops : ℕ → List Op) (n : ℕ) (at : ℕ → ℕ) (k p : ℕ) (c : List ℕ) → IsDisciplined ops n → k < n
        → p < length c → is_stored p (ops k) ≡ true
        → slice_index (joint_cells ops at n c) p ≡ word_after p (take (at k) (ops k)) (slice_index c p) }
    ensures added { (ops : ℕ → List Op) (n : ℕ) (at : ℕ → ℕ) (p : ℕ) (c : List ℕ) → p < length c
        → slice_index c p < 2 ^ 64 → ((k : ℕ) → k < n → is_stored p (ops k) ≡ false)
        → slice_index (joint_cells ops at n c) p ≡ (slice_index c p + joint_amounts p ops at n) % 2 ^ 64 }
{}

/// Whatever the positions of the lists that are held, the machine reaches the joint state at them: where each bump follows
/// a load of its cell, and lists that nobody holds are at their starts.
pub fn joint_states_are_reached()
    ensures { (ops : ℕ → List Op) (n : ℕ) (c : List ℕ) (holder : ℕ → Option ℕ) (at : ℕ → ℕ)
        → ((k : ℕ) → k < n → Follows (ops k)) → ((k : ℕ) → k < n → at k ≤ length (ops k))
        → ((k : ℕ) → k < n → holder k ≡ None → at k ≡ 0)
        → IsReached ops n c (joint_cells ops at n c) holder at }
{}

/// Under the discipline, and where each bump follows a load of its cell, any events that may happen lead to the joint state,
/// and events to the ends make what all lists make, one after another.
pub fn any_events()
    ensures joint { (ops : ℕ → List Op) (n : ℕ) (c : List ℕ) (es : List Event) → IsDisciplined ops n
        → ((k : ℕ) → k < n → Follows (ops k)) → AllEventsBelow n es → AllMayHappen ops es (crew_start c)
        → (crew_after_all ops es (crew_start c)).machine.cells
        ≡ joint_cells ops (crew_after_all ops es (crew_start c)).machine.at n c }
    ensures end { (ops : ℕ → List Op) (n : ℕ) (c : List ℕ) (es : List Event) → IsDisciplined ops n
        → ((k : ℕ) → k < n → Follows (ops k)) → AllEventsBelow n es → AllMayHappen ops es (crew_start c)
        → AllEnded ops (crew_after_all ops es (crew_start c)).machine.at n
        → (crew_after_all ops es (crew_start c)).machine.cells ≡ acts_all (in_order ops n) c }
{}

/// Under the discipline there is no race, however much of its operations each iteration has made.
pub fn no_race()
    ensures { (its : ℕ → List Op) (n : ℕ) (made : ℕ → ℕ) → IsDisciplined its n
        → IsToldRace (λ i. take (made i) (its i)) n None }
{}

/// One thing is told of races.
pub fn race_is_one()
    ensures { (made : ℕ → List Op) (n : ℕ) (r s : Option (ℕ × ℕ × ℕ)) → IsToldRace made n r → IsToldRace made n s
        → r ≡ s }
{}
