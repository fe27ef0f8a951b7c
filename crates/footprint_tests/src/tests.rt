ghost use Rattle.std.specs.Prelude.{◌≡◌};

use fl_ast::Name;
use fl_base::{Items, Memory};
use fl_types::{AccessKind, Typed};
use footprint::Footprint;
use outside::MemFolder;
use program_stage::load_program;
use std::alloc::Global;
use std::test::Fail;
use store_core::{Args, Layout};
use touches::{Conflict, Watch};

const PROGRAM: &[u8] =
    b"subroutine s(a, b, c, d)\n  integer(kind=8) :: a, b, c, d\n  a = b\nend subroutine s\n";

/// A loop's touches, each with its place, iteration and kind, and what is to be said of them: the place and the two
/// iterations.
struct Row {
    touches: &'static [(u32, u64, AccessKind)],
    due: Option<(u32, u64, u64)>,
}

static ROWS: [Row; 12] = [
    Row {
        touches: &[
            (1, 4, AccessKind::Read),
            (1, 2, AccessKind::Read),
            (1, 2, AccessKind::Write),
            (1, 3, AccessKind::Read),
        ],
        due: Some((1, 2, 3)),
    },
    Row {
        touches: &[(1, 1, AccessKind::Update), (1, 2, AccessKind::Update)],
        due: None,
    },
    Row {
        touches: &[
            (0, 0, AccessKind::Write),
            (0, 1, AccessKind::Write),
            (2, 2, AccessKind::Write),
        ],
        due: Some((0, 0, 1)),
    },
    Row {
        touches: &[
            (3, 5, AccessKind::Write),
            (3, 9, AccessKind::Write),
            (2, 7, AccessKind::Write),
            (2, 8, AccessKind::Read),
        ],
        due: Some((2, 7, 8)),
    },
    Row {
        touches: &[
            (0, 1, AccessKind::Read),
            (0, 5, AccessKind::Read),
            (0, 1, AccessKind::Update),
        ],
        due: Some((0, 1, 5)),
    },
    Row {
        touches: &[
            (2, 3, AccessKind::Update),
            (2, 6, AccessKind::Update),
            (2, 6, AccessKind::Read),
            (2, 7, AccessKind::Read),
        ],
        due: Some((2, 3, 6)),
    },
    Row {
        touches: &[
            (3, 3, AccessKind::Read),
            (3, 3, AccessKind::Update),
            (3, 3, AccessKind::Write),
            (3, 3, AccessKind::Read),
        ],
        due: None,
    },
    Row {
        touches: &[(3, u64::MAX, AccessKind::Read), (3, 0, AccessKind::Write)],
        due: Some((3, 0, u64::MAX)),
    },
    Row {
        touches: &[
            (1, 8, AccessKind::Write),
            (1, 4, AccessKind::Update),
            (1, 2, AccessKind::Update),
        ],
        due: Some((1, 2, 8)),
    },
    Row {
        touches: &[
            (0, 0, AccessKind::Read),
            (0, 1, AccessKind::Read),
            (0, 2, AccessKind::Read),
        ],
        due: None,
    },
    Row {
        touches: &[
            (2, 1, AccessKind::Write),
            (2, 1, AccessKind::Read),
            (2, 9, AccessKind::Update),
            (2, 4, AccessKind::Write),
        ],
        due: Some((2, 1, 4)),
    },
    Row {
        touches: &[],
        due: None,
    },
];

fn folder(alloc: Global) -> Result<MemFolder, Fail> {
    let name = Name::of(alloc, b"s.f90")?;
    let text = Vec::from_slice(alloc, PROGRAM)?;
    let mut files = Vec::new(alloc);
    files.push((name, text))?;
    Ok(MemFolder::new(files, Vec::new(alloc)))
}

fn program(alloc: Global) -> Result<Typed, Fail> {
    let name = Name::of(alloc, b"s.f90")?;
    let mut folder = folder(alloc)?;
    Ok(load_program(alloc, &mut folder, &name)?)
}

fn layout(alloc: Global) -> Result<Layout, Fail> {
    let entries = Items::new(alloc);
    let args = Args { entries };
    let typed = program(alloc)?;
    Ok(Layout::of(alloc, &typed, &args)?)
}

fn tell<W: Watch>(
    alloc: Global,
    watch: &mut W,
    places: u32,
    touches: &[(u32, u64, AccessKind)],
) -> Result<(), Memory>
    requires { W.places watch.old ≡ places }
    ensures { W.places watch.new ≡ places }
{
    for (place, iteration, kind) in touches {
        if *place < places {
            watch.touch(alloc, *place, *iteration, *kind)?;
        }
    }
    Ok(())
}

/// What a watch says of a loop.
fn judged<W: Watch>(
    alloc: Global,
    watch: &mut W,
    places: u32,
    touches: &[(u32, u64, AccessKind)],
) -> Result<Option<Conflict>, Memory>
    requires { W.places watch.old ≡ places }
    ensures { W.places watch.new ≡ places }
{
    watch.enter(5);
    tell(alloc, watch, places, touches)?;
    Ok(watch.leave())
}

fn found(row: &Row) -> Option<Conflict> {
    let (place, first, second) = row.due?;
    Some(Conflict {
        line: 5,
        place,
        first,
        second,
    })
}

#[test]
fn the_least_clash_is_told_of_one_loop_after_the_other(rt: HostRuntime) -> Result<(), Fail> {
    let layout = layout(rt.alloc())?;
    let mut footprint = Footprint::new(rt.alloc(), &layout)?;
    let places = layout.count();
    for row in &ROWS {
        let told = judged(rt.alloc(), &mut footprint, places, row.touches)?;
        assert_eq!(rt; told, found(row));
    }
    Ok(())
}
