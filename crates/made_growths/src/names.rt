//! What is told of a program's names, slot by slot.

ghost use Rattle.std.specs.Prelude.{◌≡◌, ℕ, Option, slice_get};
ghost use Rattle.sweep_trees.specs.Standing.{is_accessed_at};
ghost use Rattle.made_growths.specs.Told.{told, choice_or, choice_in as choice_in_lem, choice_here as choice_here_lem};

use fl_base::Items;
use fl_types::Choice;
use split_trees::is_marked;

/// What is told of a program's names, slot by slot, where its reverse part is made.
#[derive(Clone, Copy)]
pub struct UndoNames<'a> {
    /// Whose old contents go to the tape.
    pub pushed: &'a [bool],
    /// Which have adjoints.
    pub active: &'a [bool],
    /// How adjoints are incremented in the parallel loop of each number. Where nothing is told it is `Atomic`.
    pub choices: &'a [Items<Choice>],
    /// The number of places that have cells. Places of an iteration's own come after them.
    pub shared: u32,
}

/// Whether the name of a slot has an adjoint.
pub fn is_active(names: &UndoNames<'_>, slot: usize) -> bool
    ensures { result ≡ is_accessed_at (told names.now).active slot }
{
    is_marked(names.active, slot)
}

fn in_row(row: &[Choice], slot: usize) -> Choice
    ensures { result ≡ choice_or (slice_get row.now slot) }
{
    match row.get(slot) {
        Some(choice) => *choice,
        None => Choice::Atomic,
    }
}

/// How the adjoint of a slot's name is incremented in the parallel loop with a number.
pub fn choice_in(names: &UndoNames<'_>, number: u32, slot: usize) -> Choice
    ensures { result ≡ choice_in_lem (told names.now) number slot }
{
    match names.choices.get(number as usize) {
        Some(row) => in_row(row.as_slice(), slot),
        None => Choice::Atomic,
    }
}

/// How it is incremented in the parallel loop with the number, or outside of all.
pub(crate) fn choice_here(names: &UndoNames<'_>, region: Option<u32>, slot: usize) -> Choice
    ensures { result ≡ choice_here_lem (told names.now) region slot }
{
    match region {
        Some(number) => choice_in(names, number, slot),
        None => Choice::Shared,
    }
}
