ghost use Rattle.std.specs.Prelude.{◌≡◌, ℕ};
ghost use Rattle.footprint.specs.Known.{least, next, lesser, within, lesser_pair, crossing, iterations_of, with_iteration};

/// The iterations that touched a place by touches of one kind, as far as a conflict may be about them: the two least.
#[derive(Clone, Copy)]
pub(crate) enum Iterations {
    Nobody,
    One(u64),
    More(u64, u64),
}

/// Two iterations, the lesser first.
#[derive(Clone, Copy)]
pub(crate) struct IterationPair {
    pub(crate) first: u64,
    pub(crate) second: u64,
}

/// The two least iterations in two words, where there is one at least. The next isn't above the least where there is only
/// one.
#[derive(Clone, Copy)]
pub(crate) struct LeastTwo {
    pub(crate) least: u64,
    pub(crate) next: u64,
}

impl LeastTwo {
    pub(crate) fn one(iteration: u64) -> LeastTwo
        ensures { iterations_of result ≡ Iterations.One iteration }
    {
        LeastTwo {
            least: iteration,
            next: iteration,
        }
    }

    pub(crate) fn with(self, iteration: u64) -> LeastTwo
        ensures { iterations_of result ≡ with_iteration (iterations_of self) iteration }
    {
        if iteration < self.least {
            LeastTwo {
                least: iteration,
                next: self.least,
            }
        } else if iteration == self.least {
            self
        } else if self.next <= self.least || iteration < self.next {
            LeastTwo {
                least: self.least,
                next: iteration,
            }
        } else {
            self
        }
    }

    pub(crate) fn iterations(self) -> Iterations
        ensures { result ≡ iterations_of self }
    {
        if self.least < self.next {
            Iterations::More(self.least, self.next)
        } else {
            Iterations::One(self.least)
        }
    }
}

impl Iterations {
    fn least(self) -> Option<u64>
        ensures { result ≡ least self }
    {
        match self {
            Iterations::Nobody => None,
            Iterations::One(i) => Some(i),
            Iterations::More(i, _) => Some(i),
        }
    }

    fn next(self) -> Option<u64>
        ensures { result ≡ next self }
    {
        match self {
            Iterations::More(_, j) => Some(j),
            _ => None,
        }
    }

    /// The least two of them.
    pub(crate) fn pair_within(self) -> Option<IterationPair>
        ensures { result ≡ within self }
    {
        match self {
            Iterations::More(i, j) => Some(IterationPair {
                first: i,
                second: j,
            }),
            _ => None,
        }
    }

    /// The least pair of one of these and one of the others.
    pub(crate) fn pair_across(self, others: Iterations) -> Option<IterationPair>
        ensures { result ≡ crossing self others }
    {
        let (i, j) = match (self.least(), others.least()) {
            (Some(i), Some(j)) => (i, j),
            _ => return None,
        };
        if i < j {
            Some(IterationPair {
                first: i,
                second: j,
            })
        } else if j < i {
            Some(IterationPair {
                first: j,
                second: i,
            })
        } else {
            let second = lesser_of(self.next(), others.next())?;
            Some(IterationPair { first: i, second })
        }
    }
}

fn lesser_of(a: Option<u64>, b: Option<u64>) -> Option<u64>
    ensures { result ≡ lesser a b }
{
    match (a, b) {
        (Some(i), Some(j)) => Some(if i < j { i } else { j }),
        (Some(i), None) => Some(i),
        (None, b) => b,
    }
}

/// The one that comes first in order of the first iteration and then of the second.
pub(crate) fn lesser_of_pairs(
    a: Option<IterationPair>,
    b: Option<IterationPair>,
) -> Option<IterationPair>
    ensures { result ≡ lesser_pair a b }
{
    match (a, b) {
        (Some(p), Some(q)) => {
            if p.first < q.first || p.first == q.first && p.second <= q.second {
                Some(p)
            } else {
                Some(q)
            }
        }
        (Some(p), None) => Some(p),
        (None, b) => b,
    }
}
