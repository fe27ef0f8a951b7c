ghost use Rattle.std.specs.Prelude.{◌≡◌, ℕ, List, Some};
ghost use Rattle.std.specs.Option.{ForSome};
ghost use Rattle.outside.specs.States.{Files};
ghost use Rattle.ending.specs.Ends.{IsAnswer, IsExact, IsComplete, HasBadWords, LacksFile};
ghost use Rattle.formad_words.specs.Grammar.{words_in};
ghost use Rattle.commands.specs.Plans.{command_plan};
ghost use Rattle.formad_top.specs.Top.{plan_of};
ghost use Rattle.formad_top.specs.Headline.{HasDone};

use commands::outcome_of;
use ending::{Status, finish, put_as};
use fl_base::Name;
use formad_words::{Words, WordsError, read_words};
use outside::{Folder, Gate, Sink};
use ring_core::Steps;
use std::alloc::Global;
use std::sync::ledger::Ledger;
use std::thread::Threads;

/// A command that was read, on one thread.
pub fn command<F: Folder, O: Sink, L: Ledger>(
    alloc: Global,
    words: &Words,
    folder: &mut F,
    out: &mut O,
    steps: &mut Steps<L>,
) -> Status
    ensures answer { IsAnswer (F.state folder.old) (F.state folder.new) (O.state out.old) (O.state out.new)
        (Some (command_plan words.now)) result }
    ensures headline { result ≡ Status.Done → (files : Files) (sink : List ℕ) → (F.state folder.old).contents ≡ Some files →
        (O.state out.old).taken ≡ Some sink → HasDone files (Some words.now) sink (O.state out.new).taken steps.old steps.new }
{
    let outcome = outcome_of(alloc, folder, words, steps);
    finish(out, outcome)
}

/// The command of the words, or that they are none.
fn dispatch<F: Folder, O: Sink, L: Ledger>(
    alloc: Global,
    words: &[Name],
    folder: &mut F,
    out: &mut O,
    steps: &mut Steps<L>,
) -> Status
    ensures answer { IsAnswer (F.state folder.old) (F.state folder.new) (O.state out.old) (O.state out.new)
        (plan_of words.now) result }
    ensures headline { result ≡ Status.Done → (files : Files) (sink : List ℕ) → (F.state folder.old).contents ≡ Some files →
        (O.state out.old).taken ≡ Some sink → HasDone files (words_in words.now) sink (O.state out.new).taken steps.old steps.new }
{
    match read_words(alloc, words) {
        Ok(words) => command(alloc, &words, folder, out, steps),
        Err(WordsError::Bad) => put_as(out, Status::BadWords, b"bad words\n"),
        Err(WordsError::Memory) => put_as(out, Status::NoMemory, b"no memory\n"),
    }
}

/// Reads the files that the words name and writes the answer, or what is due in its place. It begins no thread yet, and
/// the gate is for runs of several workers.
pub fn formad<R: Threads + Sync, F: Folder, O: Sink, G: Gate + Sync, L: Ledger>(
    _rt: &R,
    alloc: Global,
    words: &[Name],
    folder: &mut F,
    out: &mut O,
    _gate: &G,
    steps: &mut Steps<L>,
) -> Status
    // What comes of the words' plan, or want of memory, and its whole text; or a write fault, and a front of that text. A
    // read or a write fault comes only where its count rose.
    ensures answer { IsAnswer (F.state folder.old) (F.state folder.new) (O.state out.old) (O.state out.new)
        (plan_of words.now) result }

    // The one status and text that are due for the words and the files, where no fault came and memory was there.
    ensures exactly { ForSome (F.state folder.old).contents (λ files. ForSome (O.state out.old).taken (λ sink.
        IsExact files (plan_of words.now) sink (O.state out.new).taken result)) }
    ensures complete { ForSome (F.state folder.old).contents (λ files. ForSome (O.state out.old).taken (λ sink.
        IsComplete files (plan_of words.now) sink (O.state out.new).taken result)) }

    // A run that is done has written the values and the adjoints of its program, and nothing else, and has made one step for each
    // statement.
    ensures headline { result ≡ Status.Done → ForSome (F.state folder.old).contents (λ files. ForSome (O.state out.old).taken (λ sink.
        HasDone files (words_in words.now) sink (O.state out.new).taken steps.old steps.new)) }

    ensures bad_words { ForSome (F.state folder.old).contents (λ files. ForSome (O.state out.old).taken (λ sink.
        HasBadWords (plan_of words.now) result)) }
    ensures no_file { result ≡ Status.NoFile → ForSome (F.state folder.old).contents (λ files. ForSome (O.state out.old).taken (λ sink.
        LacksFile files (plan_of words.now) sink (O.state out.new).taken)) }
{
    dispatch(alloc, words, folder, out, steps)
}
