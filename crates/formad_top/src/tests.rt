//! Calls of whole commands over files in memory.

ghost use Rattle.std.specs.Prelude.{◌≡◌, ◌<◌};

use crate::top::formad;
use ending::Status;
use fl_base::{Memory, Name};
use outside::{MemFolder, MemSink, OpenGate};
use ring_core::Steps;
use std::alloc::Global;
use std::marker::Brand;
use std::process::Abort;
use std::sync::ledger::{Blank, Ledger};
use std::thread::Threads;

const POLY: &[u8] =
    b"subroutine poly(x, y)\n  !\n  integer(kind=8) :: x, y\n  y = x*x + 3*x\nend subroutine poly\n";

const SQUARE: &[u8] =
    b"subroutine square(x, y)\n  !\n  integer(kind=8) :: x, y\n  y = x*x\nend subroutine square\n";

const MANY: &[u8] =
    b"subroutine many(x, y, z)\n  integer(kind=8) :: x, y, z\n  y = x*x\n  x = y*x\n  y = x + y*3\n  z = -(x - 2)*y\n  x = 7\nend subroutine many\n";

/// A file of a folder: its name, and its bytes.
pub(crate) type File = (&'static [u8], &'static [u8]);

/// A call: its words, its files, the number of the take that fails (0 for none), and what comes of it.
pub(crate) struct Call {
    pub words: &'static [&'static [u8]],
    pub files: &'static [File],
    pub fails: u64,
    pub status: Status,
    pub text: &'static [u8],
}

fn push_file(files: &mut Vec<(Name, Vec<u8>)>, alloc: Global, file: &File) -> Result<(), Memory> {
    let name = Name::of(alloc, file.0)?;
    let bytes = Vec::from_slice(alloc, file.1)?;
    files.push((name, bytes))?;
    Ok(())
}

fn files_of(alloc: Global, row: &Call) -> Result<Vec<(Name, Vec<u8>)>, Memory> {
    let mut files = Vec::new(alloc);
    for file in row.files {
        push_file(&mut files, alloc, file)?;
    }
    Ok(files)
}

fn folder(alloc: Global, row: &Call) -> Result<MemFolder, Memory> {
    let fails = Vec::from_slice(alloc, &[row.fails])?;
    let files = files_of(alloc, row)?;
    Ok(MemFolder::new(files, fails))
}

fn words(alloc: Global, row: &Call) -> Result<Vec<Name>, Memory> {
    let mut words = Vec::new(alloc);
    for word in row.words {
        words.push(Name::of(alloc, word)?)?;
    }
    Ok(words)
}

/// What a call ends with, and whether the sink took exactly the text.
fn called<R: Threads + Sync, L: Ledger>(
    rt: &R,
    alloc: Global,
    blank: Blank,
    row: &Call,
    sink: &mut MemSink,
) -> Result<Status, Memory>
    requires name { blank.name ≡ L.name }
    requires parts { blank.parts ≡ L.parts }
    requires some { 0 < L.parts }
{
    let mut steps = Steps::<L>::new(blank);
    let words = words(alloc, row)?;
    let mut folder = folder(alloc, row)?;
    Ok(formad(rt, alloc, &words, &mut folder, sink, &OpenGate, &mut steps))
}

fn called_counted<R: Threads + Sync>(
    rt: &R,
    alloc: Global,
    blank: Blank,
    row: &Call,
    sink: &mut MemSink,
) -> Result<Status, Memory>
    requires { blank.parts ≡ 1 }
{
    called::<R, Brand>(rt, alloc, blank, row, sink)
}

/// A call ends as it should, and the sink took exactly the text.
fn expect_call<R: Threads + Sync + Abort>(rt: &R, alloc: Global, row: &Call) -> Result<(), Memory> {
    let mut sink = MemSink::new(alloc, Vec::new(alloc), 9000)?;
    let status = called_counted(rt, alloc, Blank::new(1), row, &mut sink)?;
    assert_eq!(rt; status, row.status);
    assert!(rt; sink.taken() == row.text);
    Ok(())
}

pub(crate) fn expect_calls<R: Threads + Sync + Abort>(
    rt: &R,
    alloc: Global,
    rows: &[Call],
) -> Result<(), Memory> {
    for row in rows {
        expect_call(rt, alloc, row)?;
    }
    Ok(())
}

/// Answers, a file that isn't there, and a folder that fails at its second take.
static RUNS: [Call; 5] = [
    Call {
        words: &[b"run", b"p.f90", b"d.json", b"s.json", b"of=y", b"wrt=x"],
        files: &[
            (b"p.f90", POLY),
            (b"d.json", b"{\"x\":5,\"y\":0}"),
            (b"s.json", b"{\"y\":1}"),
        ],
        fails: 0,
        status: Status::Done,
        text: b"{\"adds\":0,\"adjoint\":{\"x\":13},\"choices\":[],\"value\":{\"y\":40}}\n",
    },
    Call {
        words: &[b"run", b"p.f90", b"d.json", b"s.json", b"of=y", b"wrt=x"],
        files: &[
            (b"p.f90", SQUARE),
            (b"d.json", b"{\"x\":-9223372036854775808,\"y\":0}"),
            (b"s.json", b"{\"y\":1}"),
        ],
        fails: 0,
        status: Status::Done,
        text: b"{\"adds\":0,\"adjoint\":{\"x\":0},\"choices\":[],\"value\":{\"y\":0}}\n",
    },
    Call {
        words: &[
            b"run",
            b"p.f90",
            b"d.json",
            b"s.json",
            b"of=Z,y",
            b"wrt=x,y,z",
        ],
        files: &[
            (b"p.f90", MANY),
            (b"d.json", b"{\"x\":3,\"y\":100,\"z\":-4}"),
            (b"s.json", b"{\"z\":1,\"y\":2}"),
        ],
        fails: 0,
        status: Status::Done,
        text: b"{\"adds\":0,\"adjoint\":{\"x\":-2493,\"y\":0,\"z\":0},\"choices\":[],\"value\":{\"y\":54,\"z\":-1350}}\n",
    },
    Call {
        words: &[b"run", b"p.f90", b"d.json", b"s.json", b"of=y", b"wrt=x"],
        files: &[
            (b"p.f90", POLY),
            (b"d.json", b"{\"x\":5,\"y\":0}"),
            (b"other.json", b"{\"y\":1}"),
        ],
        fails: 0,
        status: Status::NoFile,
        text: b"no file s.json\n",
    },
    Call {
        words: &[b"run", b"p.f90", b"d.json", b"s.json", b"of=y", b"wrt=x"],
        files: &[
            (b"p.f90", POLY),
            (b"d.json", b"{\"x\":5,\"y\":0}"),
            (b"s.json", b"{\"y\":1}"),
        ],
        fails: 2,
        status: Status::ReadFault,
        text: b"read fault d.json\n",
    },
];

#[test]
fn runs(rt: HostRuntime) -> Result<(), Memory> {
    expect_calls(&rt, rt.alloc(), &RUNS)
}

const ALONG: &[&[u8]] = &[b"tangent", b"p.f90", b"d.json", b"t.json"];

/// Answers in directions, traps, and faults of a direction and of a program.
static DIRECTED: [Call; 20] = [
    // a sum of products
    Call {
        words: ALONG,
        files: &[
            (
                b"p.f90",
                b"subroutine poly(x, y)\n  !\n  integer(kind=8) :: x, y\n  y = x*x + 3*x\nend subroutine poly\n",
            ),
            (b"d.json", b"{\"x\":5,\"y\":0}"),
            (b"t.json", b"{\"x\":1}"),
        ],
        fails: 0,
        status: Status::Done,
        text: b"{\"tangent\":{\"x\":1,\"y\":13},\"value\":{\"x\":5,\"y\":40}}\n",
    },
    // words of one byte
    Call {
        words: ALONG,
        files: &[
            (
                b"p.f90",
                b"subroutine square(x, y)\n  integer(kind=1) :: x, y\n  y = x*x\nend subroutine square\n",
            ),
            (b"d.json", b"{\"x\":100,\"y\":0}"),
            (b"t.json", b"{\"x\":1}"),
        ],
        fails: 0,
        status: Status::Done,
        text: b"{\"tangent\":{\"x\":1,\"y\":-56},\"value\":{\"x\":100,\"y\":16}}\n",
    },
    // words of two bytes
    Call {
        words: ALONG,
        files: &[
            (
                b"p.f90",
                b"subroutine square(x, y)\n  integer(kind=2) :: x, y\n  y = x*x\nend subroutine square\n",
            ),
            (b"d.json", b"{\"x\":300,\"y\":0}"),
            (b"t.json", b"{\"x\":1}"),
        ],
        fails: 0,
        status: Status::Done,
        text: b"{\"tangent\":{\"x\":1,\"y\":600},\"value\":{\"x\":300,\"y\":24464}}\n",
    },
    // in two directions, and in the sum of the first and twice the second
    Call {
        words: ALONG,
        files: &[
            (
                b"p.f90",
                b"subroutine product(x, z, y)\n  integer(kind=8) :: x, z, y\n  y = x*z\nend subroutine product\n",
            ),
            (b"d.json", b"{\"x\":3,\"z\":5,\"y\":0}"),
            (b"t.json", b"{\"x\":1,\"z\":4}"),
        ],
        fails: 0,
        status: Status::Done,
        text: b"{\"tangent\":{\"x\":1,\"y\":17,\"z\":4},\"value\":{\"x\":3,\"y\":15,\"z\":5}}\n",
    },
    Call {
        words: ALONG,
        files: &[
            (
                b"p.f90",
                b"subroutine product(x, z, y)\n  integer(kind=8) :: x, z, y\n  y = x*z\nend subroutine product\n",
            ),
            (b"d.json", b"{\"x\":3,\"z\":5,\"y\":0}"),
            (b"t.json", b"{\"x\":2,\"z\":-1}"),
        ],
        fails: 0,
        status: Status::Done,
        text: b"{\"tangent\":{\"x\":2,\"y\":7,\"z\":-1},\"value\":{\"x\":3,\"y\":15,\"z\":5}}\n",
    },
    Call {
        words: ALONG,
        files: &[
            (
                b"p.f90",
                b"subroutine product(x, z, y)\n  integer(kind=8) :: x, z, y\n  y = x*z\nend subroutine product\n",
            ),
            (b"d.json", b"{\"x\":3,\"z\":5,\"y\":0}"),
            (b"t.json", b"{\"x\":5,\"z\":2}"),
        ],
        fails: 0,
        status: Status::Done,
        text: b"{\"tangent\":{\"x\":5,\"y\":31,\"z\":2},\"value\":{\"x\":3,\"y\":15,\"z\":5}}\n",
    },
    // the first of two that are equal
    Call {
        words: ALONG,
        files: &[
            (
                b"p.f90",
                b"subroutine tie(x, z, y)\n  integer(kind=8) :: x, z, y\n  y = max(x, z)\nend subroutine tie\n",
            ),
            (b"d.json", b"{\"x\":2,\"z\":2,\"y\":0}"),
            (b"t.json", b"{\"x\":1,\"z\":5}"),
        ],
        fails: 0,
        status: Status::Done,
        text: b"{\"tangent\":{\"x\":1,\"y\":1,\"z\":5},\"value\":{\"x\":2,\"y\":2,\"z\":2}}\n",
    },
    // a sum of one byte is below 0
    Call {
        words: ALONG,
        files: &[
            (
                b"p.f90",
                b"subroutine below(x, y)\n  integer(kind=1) :: x, y\n  y = 0\n  if (x + x < 0) then\n    y = x\n  end if\nend subroutine below\n",
            ),
            (b"d.json", b"{\"x\":100,\"y\":0}"),
            (b"t.json", b"{\"x\":1}"),
        ],
        fails: 0,
        status: Status::Done,
        text: b"{\"tangent\":{\"x\":1,\"y\":1},\"value\":{\"x\":100,\"y\":100}}\n",
    },
    // steps downwards
    Call {
        words: ALONG,
        files: &[
            (
                b"p.f90",
                b"subroutine down(x, a)\n  integer(kind=8) :: x, a(3)\n  integer :: i\n  do i = 3, 2, -2\n    a(i) = i*x\n  end do\nend subroutine down\n",
            ),
            (b"d.json", b"{\"x\":5,\"a\":[7,8,9]}"),
            (b"t.json", b"{\"x\":1,\"a\":[2,2,2]}"),
        ],
        fails: 0,
        status: Status::Done,
        text: b"{\"tangent\":{\"a\":[2,2,3],\"x\":1},\"value\":{\"a\":[7,8,15],\"x\":5}}\n",
    },
    // two loops collapsed
    Call {
        words: ALONG,
        files: &[
            (
                b"p.f90",
                b"subroutine grid(x, a)\n  integer(kind=8) :: x, a(2, 3)\n  integer :: i, j\n  !$omp parallel do collapse(2)\n  do i = 1, 2\n    do j = 1, 3\n      a(i, j) = x*(10*i + j)\n    end do\n  end do\nend subroutine grid\n",
            ),
            (b"d.json", b"{\"x\":1,\"a\":[0,0,0,0,0,0]}"),
            (b"t.json", b"{\"x\":1}"),
        ],
        fails: 0,
        status: Status::Done,
        text: b"{\"tangent\":{\"a\":[11,21,12,22,13,23],\"x\":1},\"value\":{\"a\":[11,21,12,22,13,23],\"x\":1}}\n",
    },
    // the four causes of a trap
    Call {
        words: ALONG,
        files: &[
            (
                b"p.f90",
                b"subroutine halves(n, a)\n  integer :: n\n  integer(kind=8) :: a(n)\n  integer :: i\n  do i = 1, n\n    a(2*i) = a(i)\n  end do\nend subroutine halves\n",
            ),
            (b"d.json", b"{\"n\":3,\"a\":[1,2,3]}"),
            (b"t.json", b"{}"),
        ],
        fails: 0,
        status: Status::Trapped,
        text: b"trap line 6 bounds a\n",
    },
    Call {
        words: ALONG,
        files: &[
            (
                b"p.f90",
                b"subroutine early(x)\n  integer(kind=8) :: x, t\n  x = t\nend subroutine early\n",
            ),
            (b"d.json", b"{\"x\":5}"),
            (b"t.json", b"{}"),
        ],
        fails: 0,
        status: Status::Trapped,
        text: b"trap line 3 unset t\n",
    },
    Call {
        words: ALONG,
        files: &[
            (
                b"p.f90",
                b"subroutine wide(n, x)\n  integer :: n\n  integer(kind=8) :: x\n  x = n*n\nend subroutine wide\n",
            ),
            (b"d.json", b"{\"n\":100000,\"x\":5}"),
            (b"t.json", b"{}"),
        ],
        fails: 0,
        status: Status::Trapped,
        text: b"trap line 4 range\n",
    },
    Call {
        words: ALONG,
        files: &[
            (
                b"p.f90",
                b"subroutine parts(n, x)\n  integer :: n\n  integer(kind=8) :: x\n  x = 4/n\nend subroutine parts\n",
            ),
            (b"d.json", b"{\"n\":0,\"x\":5}"),
            (b"t.json", b"{}"),
        ],
        fails: 0,
        status: Status::Trapped,
        text: b"trap line 4 zero divisor\n",
    },
    // a test's trap has the line of its `if`
    Call {
        words: ALONG,
        files: &[
            (
                b"p.f90",
                b"subroutine tested(n, x)\n  integer :: n\n  integer(kind=8) :: x\n  if (x > 0) then\n    x = 1\n  else if (4/n > 0) then\n    x = 2\n  end if\nend subroutine tested\n",
            ),
            (b"d.json", b"{\"n\":0,\"x\":-1}"),
            (b"t.json", b"{}"),
        ],
        fails: 0,
        status: Status::Trapped,
        text: b"trap line 4 zero divisor\n",
    },
    // bounds of a loop
    Call {
        words: ALONG,
        files: &[
            (
                b"p.f90",
                b"subroutine bounded(n, x)\n  integer :: n, i\n  integer(kind=8) :: x\n  do i = 1, 4/n\n    x = 1\n  end do\nend subroutine bounded\n",
            ),
            (b"d.json", b"{\"n\":0,\"x\":5}"),
            (b"t.json", b"{}"),
        ],
        fails: 0,
        status: Status::Trapped,
        text: b"trap line 4 zero divisor\n",
    },
    // a private scalar is unset in each iteration
    Call {
        words: ALONG,
        files: &[
            (
                b"p.f90",
                b"subroutine fresh(x, a)\n  integer(kind=8) :: x, t, a(2)\n  integer :: i\n  !$omp parallel do private(t)\n  do i = 1, 2\n    if (i == 1) then\n      t = x\n    end if\n    a(i) = t\n  end do\nend subroutine fresh\n",
            ),
            (b"d.json", b"{\"x\":5,\"a\":[0,0]}"),
            (b"t.json", b"{}"),
        ],
        fails: 0,
        status: Status::Trapped,
        text: b"trap line 9 unset t\n",
    },
    // faults of a direction and of a program
    Call {
        words: ALONG,
        files: &[
            (
                b"p.f90",
                b"subroutine poly(x, y)\n  !\n  integer(kind=8) :: x, y\n  y = x*x + 3*x\nend subroutine poly\n",
            ),
            (b"d.json", b"{\"x\":5,\"y\":0}"),
            (b"t.json", b"{"),
        ],
        fails: 0,
        status: Status::BadData,
        text: b"direction file: not JSON\n",
    },
    Call {
        words: ALONG,
        files: &[
            (
                b"p.f90",
                b"subroutine poly(x, y)\n  !\n  integer(kind=8) :: x, y\n  y = x*x + 3*x\nend subroutine poly\n",
            ),
            (b"d.json", b"{\"x\":5,\"y\":0}"),
            (b"t.json", b"{\"z\":1}"),
        ],
        fails: 0,
        status: Status::BadData,
        text: b"direction z: extra\n",
    },
    Call {
        words: ALONG,
        files: &[
            (
                b"p.f90",
                b"subroutine none(x)\n  integer(kind=8) :: x\n  x = z\nend subroutine none\n",
            ),
            (b"d.json", b"{\"x\":5}"),
            (b"t.json", b"{}"),
        ],
        fails: 0,
        status: Status::Refused,
        text: b"refused line 3: undeclared z\n",
    },
];

#[test]
fn runs_in_directions(rt: HostRuntime) -> Result<(), Memory> {
    expect_calls(&rt, rt.alloc(), &DIRECTED)
}
