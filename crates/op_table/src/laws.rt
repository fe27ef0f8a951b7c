//! What the rule says of a table between any two steps, and what a chunk's end means to who made its operations.
ghost use Rattle.std.specs.Prelude.{◌≡◌, ◌≢◌, ◌≤◌, ◌||◌, ◌++◌, true, false, ℕ, List, [], length, drop};
ghost use Rattle.atomic_table.specs.Table.{State};
ghost use Rattle.operations.specs.declared.op.Op.{Op};
ghost use Rattle.op_table.specs.declared.view.View.{View};
ghost use Rattle.op_table.specs.Rule.{Work, IsKept, lists, position_of};
ghost use Rattle.op_table.specs.Seats.{rewound};
ghost use Rattle.op_table.specs.Shown.{IsShown};

/// The cells and the positions are those of a state that the machine of claims and operations reaches from the opening words.
pub fn shown_state_is_reached<S>()
    ensures { (d : Work) (s : State S View) → IsKept d s → IsShown d s }
{}

/// What no call on the cells of a chunk changes tells which chunks are listed and where the others are, and with nothing
/// due the chunk is at its end.
pub fn other_chunks_stay()
    ensures listed { (k : ℕ) (xs ys : List (ℕ × ℕ)) → rewound k xs ≡ rewound k ys
        → (j : ℕ) → lists j xs ≡ lists j ys }
    ensures positions { (k : ℕ) (xs ys : List (ℕ × ℕ)) → rewound k xs ≡ rewound k ys
        → (j : ℕ) → j ≢ k → position_of j xs ≡ position_of j ys }
    ensures end { (os : List Op) (i : ℕ) → drop i os ≡ [] → length os ≤ i }
{}

/// Two workers joined hold the chunks of both.
pub fn joined_chunks()
    ensures listed { (k : ℕ) (xs ys : List (ℕ × ℕ)) → lists k (xs ++ ys) ≡ (lists k xs || lists k ys) }
    ensures first { (k : ℕ) (xs ys : List (ℕ × ℕ)) → lists k xs ≡ true
        → position_of k (xs ++ ys) ≡ position_of k xs }
    ensures second { (k : ℕ) (xs ys : List (ℕ × ℕ)) → lists k xs ≡ false
        → position_of k (xs ++ ys) ≡ position_of k ys }
{}
