ghost use Rattle.std.specs.Prelude.{◌≡◌, true};
ghost use Rattle.std.specs.Option.{is_some};
ghost use Rattle.footprint.specs.Known.{least_pair, with_iteration, with_touch, nothing_known, iterations_of};
ghost use Rattle.footprint.specs.Kept.{kept, known_of, known_at, has_only, is_alike, flagged};

use crate::iterations::{IterationPair, Iterations, LeastTwo, lesser_of_pairs};
use fl_types::AccessKind;

/// Who touched a place in the loop instance of this number: the kinds of touches, and the two least iterations. Where these
/// aren't the same for all kinds that were there they are of the reads, and `Changers` has those of the others.
#[derive(Clone, Copy)]
pub(crate) struct Toucher {
    pub(crate) instance: u32,
    pub(crate) apart: bool,
    pub(crate) read: bool,
    pub(crate) written: bool,
    pub(crate) updated: bool,
    pub(crate) two: LeastTwo,
}

/// The iterations of writes and of updates, where they are kept apart.
#[derive(Clone, Copy)]
pub(crate) struct Changers {
    pub(crate) writes: LeastTwo,
    pub(crate) updates: LeastTwo,
}

fn kept(was_there: bool, two: LeastTwo) -> Iterations
    ensures { result ≡ kept was_there (iterations_of two) }
{
    if was_there {
        two.iterations()
    } else {
        Iterations::Nobody
    }
}

impl Toucher {
    /// After the first touch in a loop instance.
    fn first(instance: u32, iteration: u64, kind: AccessKind) -> Toucher
        ensures known { (c : Changers) → known_of result c ≡ with_touch kind iteration nothing_known }
        ensures instance { result.instance ≡ instance }
    {
        Toucher {
            instance,
            apart: false,
            read: kind == AccessKind::Read,
            written: kind == AccessKind::Write,
            updated: kind == AccessKind::Update,
            two: LeastTwo::one(iteration),
        }
    }

    fn has_only(&self, kind: AccessKind) -> bool
        ensures { result ≡ has_only kind self.now }
    {
        match kind {
            AccessKind::Read => self.read && !self.written && !self.updated,
            AccessKind::Write => self.written && !self.read && !self.updated,
            AccessKind::Update => self.updated && !self.read && !self.written,
        }
    }

    /// Whether after this touch too all kinds that were there have the same iterations.
    fn is_alike(&self, iteration: u64, kind: AccessKind) -> bool
        ensures { result ≡ is_alike self.now kind iteration }
    {
        if self.apart {
            return false;
        }
        if self.has_only(kind) {
            return true;
        }
        self.two.next <= self.two.least && self.two.least == iteration
    }

    fn note_kind(&mut self, kind: AccessKind)
        ensures { self.new ≡ flagged kind self.old }
    {
        match kind {
            AccessKind::Read => self.read = true,
            AccessKind::Write => self.written = true,
            AccessKind::Update => self.updated = true,
        }
    }

    /// Notes a touch where the kinds stay alike, and tells whether two touches of the place clash.
    fn note_alike(&mut self, iteration: u64, kind: AccessKind) -> bool
        requires { is_alike self.old kind iteration ≡ true }
        ensures known { (c : Changers) → known_of self.new c ≡ with_touch kind iteration (known_of self.old c) }
        ensures told { (c : Changers) → result ≡ is_some (least_pair (known_of self.new c)) }
        ensures instance { self.new.instance ≡ self.old.instance }
    {
        self.two = self.two.with(iteration);
        self.note_kind(kind);
        kind == AccessKind::Write && self.two.least < self.two.next
    }

    fn set_apart(&mut self, changers: &mut Changers)
        ensures known { known_of self.new changers.new ≡ known_of self.old changers.old }
        ensures apart { self.new.apart ≡ true }
        ensures instance { self.new.instance ≡ self.old.instance }
    {
        if !self.apart {
            changers.writes = self.two;
            changers.updates = self.two;
            self.apart = true;
        }
    }

    /// Notes a touch where each kind has its own iterations.
    fn note_apart(&mut self, changers: &mut Changers, iteration: u64, kind: AccessKind)
        requires { self.old.apart ≡ true }
        ensures known { known_of self.new changers.new ≡ with_touch kind iteration (known_of self.old changers.old) }
        ensures instance { self.new.instance ≡ self.old.instance }
    {
        match kind {
            AccessKind::Read => {
                self.two = with_or_one(self.read, self.two, iteration);
                self.read = true;
            }
            AccessKind::Write => {
                changers.writes = with_or_one(self.written, changers.writes, iteration);
                self.written = true;
            }
            AccessKind::Update => {
                changers.updates = with_or_one(self.updated, changers.updates, iteration);
                self.updated = true;
            }
        }
    }

    /// The least pair of iterations whose touches of the place clash.
    fn least_pair(&self, changers: &Changers) -> Option<IterationPair>
        ensures { result ≡ least_pair (known_of self.now changers.now) }
    {
        let reads = kept(self.read, self.two);
        let writes = kept(
            self.written,
            if self.apart {
                changers.writes
            } else {
                self.two
            },
        );
        let updates = kept(
            self.updated,
            if self.apart {
                changers.updates
            } else {
                self.two
            },
        );
        least_pair_of(reads, writes, updates)
    }
}

fn least_pair_of(
    reads: Iterations,
    writes: Iterations,
    updates: Iterations,
) -> Option<IterationPair>
    ensures { result ≡ least_pair (record { reads = reads; writes = writes; updates = updates }) }
{
    let with_updates = lesser_of_pairs(writes.pair_across(updates), updates.pair_across(reads));
    lesser_of_pairs(
        writes.pair_within(),
        lesser_of_pairs(writes.pair_across(reads), with_updates),
    )
}

fn with_or_one(was_there: bool, two: LeastTwo, iteration: u64) -> LeastTwo
    ensures { iterations_of result ≡ with_iteration (kept was_there (iterations_of two)) iteration }
{
    if was_there {
        two.with(iteration)
    } else {
        LeastTwo::one(iteration)
    }
}

/// Notes a touch of a place, and tells whether two touches of the place clash.
#[inline(always)]
pub(crate) fn note(
    toucher: &mut Toucher,
    changers: &mut Changers,
    instance: u32,
    iteration: u64,
    kind: AccessKind,
) -> bool
    ensures known { known_at instance toucher.new changers.new
        ≡ with_touch kind iteration (known_at instance toucher.old changers.old) }
    ensures told { result ≡ is_some (least_pair (known_at instance toucher.new changers.new)) }
    ensures instance { toucher.new.instance ≡ instance }
{
    if toucher.instance != instance {
        *toucher = Toucher::first(instance, iteration, kind);
        false
    } else if toucher.is_alike(iteration, kind) {
        toucher.note_alike(iteration, kind)
    } else {
        note_further(toucher, changers, iteration, kind)
    }
}

/// The same where a place has several kinds of touches by several iterations.
#[inline(never)]
fn note_further(
    toucher: &mut Toucher,
    changers: &mut Changers,
    iteration: u64,
    kind: AccessKind,
) -> bool
    ensures known { known_of toucher.new changers.new ≡ with_touch kind iteration (known_of toucher.old changers.old) }
    ensures told { result ≡ is_some (least_pair (known_of toucher.new changers.new)) }
    ensures instance { toucher.new.instance ≡ toucher.old.instance }
{
    toucher.set_apart(changers);
    toucher.note_apart(changers, iteration, kind);
    toucher.least_pair(changers).is_some()
}

/// The least pair of iterations whose touches of the place clash in the loop instance of this number.
pub(crate) fn least_pair_in(
    toucher: Toucher,
    changers: Changers,
    instance: u32,
) -> Option<IterationPair>
    ensures { result ≡ least_pair (known_at instance toucher changers) }
{
    if toucher.instance == instance {
        toucher.least_pair(&changers)
    } else {
        None
    }
}
