//! Paths to accesses.

ghost use Rattle.std.specs.Prelude.{◌≡◌};
ghost use Rattle.index_knowledge.specs.Knowledge.{same_step, is_prefix, serves};

use fl_types::PathStep;

fn same_step(step: PathStep, other: PathStep) -> bool
    ensures { result ≡ same_step step other }
{
    match step {
        PathStep::Arm(n, m) => match other {
            PathStep::Arm(j, k) => n == j && m == k,
            PathStep::Test(..) | PathStep::Body(_) => false,
        },
        PathStep::Test(n, m) => match other {
            PathStep::Test(j, k) => n == j && m == k,
            PathStep::Arm(..) | PathStep::Body(_) => false,
        },
        PathStep::Body(n) => match other {
            PathStep::Body(j) => n == j,
            PathStep::Arm(..) | PathStep::Test(..) => false,
        },
    }
}

/// Whether the first path begins the second.
pub fn is_prefix(path: &[PathStep], other: &[PathStep]) -> bool
    ensures { result ≡ is_prefix path.now other.now }
{
    for i in 0..path.len() {
        if i >= other.len() {
            return false;
        }
        if !same_step(path[i], other[i]) {
            return false;
        }
    }
    true
}

/// Whether a fact between accesses at the paths `first` and `second` serves a pair of accesses at the paths `one` and `two`: in each
/// iteration that comes to the pair's accesses, those of the fact are evaluated in the same passages.
pub fn serves(first: &[PathStep], second: &[PathStep], one: &[PathStep], two: &[PathStep]) -> bool
    ensures { result ≡ serves first.now second.now one.now two.now }
{
    is_prefix(first, one) && is_prefix(second, two)
}
