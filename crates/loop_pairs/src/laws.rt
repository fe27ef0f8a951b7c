//! Laws on what is known of loops.

ghost use Rattle.loop_pairs.specs.Numbers.{LoopsStand};

/// What is known of each parallel loop of a typed program stands at the loop's number.
pub fn loops_stand_at_their_numbers()
    ensures { LoopsStand }
{}
