ghost use Rattle.std.specs.Prelude.{◌≡◌, ◌<◌, ◌≤◌, ◌++◌, ◌∷◌, [], ℕ, List, All, IfOk, IsOk, OnOk, length, option_map};
ghost use Rattle.store_core.specs.Keys.{keys_of};
ghost use Rattle.meaning.specs.Logs.{Touch};
ghost use Rattle.meaning.specs.Conflicts.{conflict};
ghost use Rattle.touches.specs.Touching.{touch, conflict_at};
ghost use Rattle.footprint.specs.Standing.{Table, StandsFor, found_at, lesser_place};
ghost use Rattle.footprint.specs.declared.toucher.Toucher.{Toucher};

use crate::iterations::LeastTwo;
use crate::toucher::{Changers, Toucher, least_pair_in, note};
use fl_base::Memory;
use fl_types::AccessKind;
use std::alloc::Global;
use std::marker::Model;
use store_core::Layout;
use touches::{Conflict, Watch};

/// Who touched each place of a layout last. It is made once and serves one loop instance after the other: a record that an
/// earlier instance left counts as none.
#[derive(Drop)]
pub struct Footprint {
    line: u32,
    instance: u32,
    touchers: Vec<Toucher>,
    changers: Vec<Changers>,
    least: Option<u32>,
}

impl Model for Footprint {
    ghost use Rattle.footprint.specs.Standing.{Table, IsTable};

    ghost Value = { Table };

    ghost view = { λ f. record { line = f.line; instance = f.instance; touchers = f.touchers.items; changers = f.changers.items; least = f.least } };

    ghost invariant = { λ f. IsTable (record { line = f.line; instance = f.instance; touchers = f.touchers.items; changers = f.changers.items; least = f.least }) };
}

const NO_TWO: LeastTwo = LeastTwo { least: 0, next: 0 };

const NO_TOUCHER: Toucher = Toucher {
    instance: 0,
    apart: false,
    read: false,
    written: false,
    updated: false,
    two: NO_TWO,
};

const NO_CHANGERS: Changers = Changers {
    writes: NO_TWO,
    updates: NO_TWO,
};

fn forget(touchers: &mut [Toucher])
    ensures { All (λ (o : Toucher). o.instance ≡ 0) touchers.new }
{
    for toucher in touchers.iter_mut() {
        toucher.instance = 0;
    }
}

impl Footprint {
    /// A table for the places of a layout.
    pub fn new(alloc: Global, layout: &Layout) -> Result<Footprint, Memory>
        ensures { IfOk result (λ f. length f.touchers ≡ length (keys_of layout.now)) }
    {
        let places = layout.count() as usize;
        let touchers = vec![in alloc; NO_TOUCHER; places]?;
        let changers = vec![in alloc; NO_CHANGERS; places]?;
        Ok(Footprint {
            line: 0,
            instance: 0,
            touchers,
            changers,
            least: None,
        })
    }

    fn found(&self, place: u32) -> Option<Conflict>
        requires { place < length self.now.touchers }
        ensures { result ≡ found_at self.now place }
    {
        let at = place as usize;
        let pair = least_pair_in(self.touchers[at], self.changers[at], self.instance)?;
        Some(Conflict {
            line: self.line,
            place,
            first: pair.first,
            second: pair.second,
        })
    }

    /// The least place where two touches since `enter` clash, with its least pair of iterations. None where there is none.
    pub fn conflict(&self) -> Option<Conflict>
        ensures { (line : ℕ) (ts : List Touch) → StandsFor self.now line ts → result ≡ option_map (conflict_at line) (conflict ts) }
    {
        match self.least {
            Some(place) => self.found(place),
            None => None,
        }
    }
}

impl Watch for Footprint {
    ghost stands_for = { StandsFor };

    ghost judge = { λ line ts. conflict ts };

    ghost places = { λ f. length f.touchers };

    fn enter(&mut self, line: u32) {
        if self.instance == u32::MAX {
            forget(&mut self.touchers);
            self.instance = 0;
        }
        self.instance += 1;
        self.line = line;
        self.least = None;
    }

    fn touch(
        &mut self,
        _alloc: Global,
        place: u32,
        iteration: u64,
        kind: AccessKind,
    ) -> Result<(), Memory>
        ensures ok { IsOk result }
        ensures stands { place < length self.old.touchers → OnOk result
            ((line : ℕ) (ts : List Touch) → StandsFor self.old line ts →
            StandsFor self.new line (ts ++ touch place iteration kind ∷ [])) }
        ensures places { length self.new.touchers ≡ length self.old.touchers }
    {
        let at = place as usize;
        if at >= self.touchers.len() {
            return Ok(());
        }
        let clashes = note(
            &mut self.touchers[at],
            &mut self.changers[at],
            self.instance,
            iteration,
            kind,
        );
        if clashes {
            self.least = Some(lesser(self.least, place));
        }
        Ok(())
    }

    fn leave(&mut self) -> Option<Conflict> {
        self.conflict()
    }
}

/// The least place, one more being found.
fn lesser(least: Option<u32>, place: u32) -> u32
    ensures { result ≡ lesser_place least place }
{
    match least {
        Some(p) => { if p < place { p } else { place } }
        None => place,
    }
}
