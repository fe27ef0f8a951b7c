//! Runs of small programs: their answers, their conflicts and their traps.

use crate::tests::{Call, expect_calls};
use ending::Status;
use fl_base::Memory;

const STENCIL: &[u8] =
    b"subroutine stencil(n, x, y)\n  integer :: n, i\n  integer(kind=8) :: x(n), y(n)\n  !$omp parallel do\n  do i = 2, n-1\n    y(i) = x(i-1) + x(i+1)\n  end do\nend subroutine stencil\n";

const SCATTER: &[u8] =
    b"subroutine scatter(n, c, x, y)\n  integer :: n, i, c(n)\n  integer(kind=8) :: x(n), y(n)\n  !$omp parallel do\n  do i = 1, n\n    y(c(i)) = x(c(i))*x(c(i))\n  end do\nend subroutine scatter\n";

const GATHER: &[u8] =
    b"subroutine gather(n, p, c, x, y)\n  integer :: n, p, i, c(n)\n  integer(kind=8) :: x(p), y(n)\n  !$omp parallel do\n  do i = 1, n\n    y(i) = x(c(i))\n  end do\nend subroutine gather\n";

const STRIDE: &[u8] =
    b"subroutine stride(n, x, y)\n  integer :: n, i\n  integer(kind=8) :: x(n), y(n)\n  !$omp parallel do\n  do i = 1, n, 2\n    y(i) = x(i)*x(i+1)\n  end do\nend subroutine stride\n";

const COMPOSE: &[u8] =
    b"subroutine compose(n, c, d, x, y)\n  integer :: n, i, c(n), d(n)\n  integer(kind=8) :: x(n), y(n)\n  !$omp parallel do\n  do i = 1, n\n    y(d(c(i))) = x(c(i))\n  end do\nend subroutine compose\n";

const PATH: &[u8] =
    b"subroutine path(n, m, p, z, w, y)\n  integer :: n, i, m(n), p(n)\n  integer(kind=8) :: z(n), w(n), y(n)\n  !$omp parallel do\n  do i = 1, n\n    if (m(i) > 0) y(p(i)) = 1\n    w(i) = z(p(i))\n  end do\nend subroutine path\n";

const VERSION: &[u8] =
    b"subroutine version(n, b, c, z, w, y)\n  integer :: n, i, k, b(n), c(n)\n  integer(kind=8) :: z(n), w(n), y(n)\n  !$omp parallel do private(k)\n  do i = 1, n\n    k = c(i)\n    y(k) = 1\n    k = b(i)\n    w(i) = z(k)\n  end do\nend subroutine version\n";

const BLOCK: &[u8] =
    b"subroutine block(n, s, x)\n  integer :: n, i, j\n  integer(kind=8) :: s(n), x(4*n)\n  !$omp parallel do\n  do i = 1, n\n    do j = 1, 4\n      s(i) = s(i) + x(4*(i-1)+j)\n    end do\n  end do\nend subroutine block\n";

const SCALE: &[u8] =
    b"subroutine scale(n, a, x, y)\n  integer :: n, i\n  integer(kind=8) :: a, x(n), y(n)\n  !$omp parallel do\n  do i = 1, n\n    y(i) = a*x(i)\n  end do\nend subroutine scale\n";

const COPY: &[u8] =
    b"subroutine copy(n, x, y)\n  integer :: n, i\n  integer(kind=8) :: x(n), y(3)\n  !$omp parallel do\n  do i = 1, n\n    y(i) = x(i)\n  end do\nend subroutine copy\n";

const UNSET: &[u8] =
    b"subroutine unset(n, x, y)\n  integer :: n, i\n  integer(kind=8) :: x(n), y(n), t\n  !$omp parallel do private(t)\n  do i = 1, n\n    y(i) = t\n    t = x(i)\n  end do\nend subroutine unset\n";

const OVER: &[u8] =
    b"subroutine over(n, x)\n  integer :: n, k\n  integer(kind=8) :: x\n  k = n + 1\n  x = x + k\nend subroutine over\n";

const TALLY: &[u8] =
    b"subroutine tally(n, c, x, y)\n  integer :: n, i, c(n)\n  integer(kind=8) :: x(n), y(n)\n  !$omp parallel do\n  do i = 1, n\n    !$omp atomic\n    y(c(i)) = y(c(i)) + x(i)*x(i)\n  end do\nend subroutine tally\n";

const DOT: &[u8] =
    b"subroutine dot(n, x, s)\n  integer :: n, i\n  integer(kind=8) :: x(n), s\n  !$omp parallel do reduction(+:s)\n  do i = 1, n\n    s = s + x(i)*x(i)\n  end do\nend subroutine dot\n";

const TIMES: &[u8] =
    b"subroutine times(n, q, x)\n  integer :: n, q, i, t\n  integer(kind=8) :: x(n)\n  do t = 1, q\n    !$omp parallel do\n    do i = 1, n\n      x(i) = x(i)*x(i)\n    end do\n  end do\nend subroutine times\n";

const KEPT: &[u8] =
    b"subroutine kept(n, x)\n  integer :: n, i, j\n  integer(kind=8) :: x(n)\n  do i = 1, n\n    x(i) = x(i)*x(i)\n    !$omp parallel do private(i)\n    do j = 1, n\n      x(j) = x(j)*x(j)\n    end do\n  end do\nend subroutine kept\n";

const SQUARE_OF_A_BYTE: &[u8] =
    b"subroutine square(x, y)\n  !\n  integer(kind=1) :: x, y\n  y = x*x\nend subroutine square\n";

const SQUARE_OF_TWO_BYTES: &[u8] =
    b"subroutine square(x, y)\n  !\n  integer(kind=2) :: x, y\n  y = x*x\nend subroutine square\n";

const GATHER_OF_BYTES: &[u8] =
    b"subroutine gather(n, p, c, x, y)\n  integer :: n, p, i, c(n)\n  integer(kind=1) :: x(p), y(n)\n  !$omp parallel do\n  do i = 1, n\n    y(i) = x(c(i))\n  end do\nend subroutine gather\n";

const LIN: &[u8] =
    b"subroutine lin(n, x, y)\n  integer :: n, i, j\n  integer(kind=8) :: x(4*n), y(n,4)\n  !$omp parallel do collapse(2)\n  do i = 1, n\n    do j = 1, 4\n      y(i,j) = x(4*(i-1)+j)\n    end do\n  end do\nend subroutine lin\n";

const BLOCK5: &[u8] =
    b"subroutine block5(n, s, x)\n  integer :: n, i, j\n  integer(kind=8) :: s(n), x(4*n+1)\n  !$omp parallel do\n  do i = 1, n\n    do j = 1, 5\n      s(i) = s(i) + x(4*(i-1)+j)\n    end do\n  end do\nend subroutine block5\n";

const DOUBLED: &[u8] =
    b"subroutine doubled(n, c, x, y)\n  integer :: n, i, c(n)\n  integer(kind=8) :: x(n), y(2*n)\n  !$omp parallel do\n  do i = 1, n\n    y(2*c(i)) = x(c(i))\n  end do\nend subroutine doubled\n";

const FILL: &[u8] =
    b"subroutine fill(n, q, x, y, z)\n  integer :: n, q, i, t\n  integer(kind=8) :: x, y(n), z(n)\n  do t = 1, q\n    !$omp parallel do\n    do i = 1, n\n      y(i) = 1\n      z(i) = 2\n    end do\n  end do\nend subroutine fill\n";

const PICK: &[u8] =
    b"subroutine pick(n, x, y)\n  integer :: n, i\n  integer(kind=8) :: x(n), y(n)\n  !$omp parallel do\n  do i = 1, n\n    if (x(i) < 0) then\n      y(i) = abs(x(i))\n    else\n      y(i) = max(x(i), 4_8)**2\n    end if\n  end do\nend subroutine pick\n";

const BY_X_OF_Y: &[&[u8]] = &[b"run", b"p.f90", b"d.json", b"s.json", b"of=y", b"wrt=x"];

const BY_Z_OF_W: &[&[u8]] = &[b"run", b"p.f90", b"d.json", b"s.json", b"of=w", b"wrt=z"];

const BY_X_OF_S: &[&[u8]] = &[b"run", b"p.f90", b"d.json", b"s.json", b"of=s", b"wrt=x"];

const BY_A_X_OF_Y: &[&[u8]] = &[b"run", b"p.f90", b"d.json", b"s.json", b"of=y", b"wrt=a,x"];

const BY_X_Y_OF_Y: &[&[u8]] = &[b"run", b"p.f90", b"d.json", b"s.json", b"of=y", b"wrt=x,y"];

const BY_X_OF_X: &[&[u8]] = &[b"run", b"p.f90", b"d.json", b"s.json", b"of=x", b"wrt=x"];

const BY_X_S_OF_S: &[&[u8]] = &[b"run", b"p.f90", b"d.json", b"s.json", b"of=s", b"wrt=x,s"];

/// Answers, conflicts and traps; in the last program a parallel loop unsets the variable of the loop around it.
static RUNS: [Call; 19] = [
    Call {
        words: BY_X_OF_Y,
        files: &[
            (b"p.f90", STENCIL),
            (b"d.json", b"{\"n\":5,\"x\":[1,2,3,4,5],\"y\":[0,0,0,0,0]}"),
            (b"s.json", b"{\"y\":[0,1,10,100,0]}"),
        ],
        fails: 0,
        status: Status::Done,
        text: b"{\"adds\":6,\"adjoint\":{\"x\":[1,10,101,10,100]},\"choices\":[\"1:x:atomic\"],\"value\":{\"y\":[0,4,6,8,0]}}\n",
    },
    Call {
        words: BY_X_OF_Y,
        files: &[
            (b"p.f90", SCATTER),
            (
                b"d.json",
                b"{\"n\":3,\"c\":[3,1,2],\"x\":[1,2,3],\"y\":[0,0,0]}",
            ),
            (b"s.json", b"{\"y\":[1,10,100]}"),
        ],
        fails: 0,
        status: Status::Done,
        text: b"{\"adds\":6,\"adjoint\":{\"x\":[2,40,600]},\"choices\":[\"1:x:atomic\"],\"value\":{\"y\":[1,4,9]}}\n",
    },
    Call {
        words: BY_X_OF_Y,
        files: &[
            (b"p.f90", SCATTER),
            (
                b"d.json",
                b"{\"n\":3,\"c\":[1,1,2],\"x\":[1,2,3],\"y\":[0,0,0]}",
            ),
            (b"s.json", b"{\"y\":[1,10,100]}"),
        ],
        fails: 0,
        status: Status::Conflicted,
        text: b"conflict line 5 y(1) iterations 0 1\n",
    },
    Call {
        words: BY_X_OF_Y,
        files: &[
            (b"p.f90", GATHER),
            (
                b"d.json",
                b"{\"n\":3,\"p\":2,\"c\":[2,2,1],\"x\":[7,9],\"y\":[0,0,0]}",
            ),
            (b"s.json", b"{\"y\":[1,10,100]}"),
        ],
        fails: 0,
        status: Status::Done,
        text: b"{\"adds\":3,\"adjoint\":{\"x\":[100,11]},\"choices\":[\"1:x:atomic\"],\"value\":{\"y\":[9,9,7]}}\n",
    },
    Call {
        words: BY_X_OF_Y,
        files: &[
            (b"p.f90", STRIDE),
            (b"d.json", b"{\"n\":4,\"x\":[1,2,3,4],\"y\":[0,0,0,0]}"),
            (b"s.json", b"{\"y\":[1,0,10,0]}"),
        ],
        fails: 0,
        status: Status::Done,
        text: b"{\"adds\":4,\"adjoint\":{\"x\":[2,1,40,30]},\"choices\":[\"1:x:atomic\"],\"value\":{\"y\":[2,0,12,0]}}\n",
    },
    Call {
        words: BY_X_OF_Y,
        files: &[
            (b"p.f90", COMPOSE),
            (
                b"d.json",
                b"{\"n\":2,\"c\":[2,1],\"d\":[2,1],\"x\":[5,6],\"y\":[0,0]}",
            ),
            (b"s.json", b"{\"y\":[1,10]}"),
        ],
        fails: 0,
        status: Status::Done,
        text: b"{\"adds\":2,\"adjoint\":{\"x\":[10,1]},\"choices\":[\"1:x:atomic\"],\"value\":{\"y\":[6,5]}}\n",
    },
    Call {
        words: BY_X_OF_Y,
        files: &[
            (b"p.f90", COMPOSE),
            (
                b"d.json",
                b"{\"n\":2,\"c\":[1,1],\"d\":[2,1],\"x\":[5,6],\"y\":[0,0]}",
            ),
            (b"s.json", b"{\"y\":[1,10]}"),
        ],
        fails: 0,
        status: Status::Conflicted,
        text: b"conflict line 5 y(2) iterations 0 1\n",
    },
    Call {
        words: BY_Z_OF_W,
        files: &[
            (b"p.f90", PATH),
            (
                b"d.json",
                b"{\"n\":2,\"m\":[0,0],\"p\":[1,1],\"z\":[3,4],\"w\":[0,0],\"y\":[0,0]}",
            ),
            (b"s.json", b"{\"w\":[1,10]}"),
        ],
        fails: 0,
        status: Status::Done,
        text: b"{\"adds\":2,\"adjoint\":{\"z\":[11,0]},\"choices\":[\"1:z:atomic\"],\"value\":{\"w\":[3,3]}}\n",
    },
    Call {
        words: BY_Z_OF_W,
        files: &[
            (b"p.f90", VERSION),
            (
                b"d.json",
                b"{\"n\":2,\"b\":[1,1],\"c\":[1,2],\"z\":[3,4],\"w\":[0,0],\"y\":[0,0]}",
            ),
            (b"s.json", b"{\"w\":[1,10]}"),
        ],
        fails: 0,
        status: Status::Done,
        text: b"{\"adds\":2,\"adjoint\":{\"z\":[11,0]},\"choices\":[\"1:z:atomic\"],\"value\":{\"w\":[3,3]}}\n",
    },
    Call {
        words: BY_X_OF_S,
        files: &[
            (b"p.f90", BLOCK),
            (b"d.json", b"{\"n\":2,\"s\":[0,0],\"x\":[1,2,3,4,5,6,7,8]}"),
            (b"s.json", b"{\"s\":[1,10]}"),
        ],
        fails: 0,
        status: Status::Done,
        text: b"{\"adds\":8,\"adjoint\":{\"x\":[1,1,1,1,10,10,10,10]},\"choices\":[\"1:x:atomic\"],\"value\":{\"s\":[10,26]}}\n",
    },
    Call {
        words: BY_A_X_OF_Y,
        files: &[
            (b"p.f90", SCALE),
            (b"d.json", b"{\"n\":2,\"a\":3,\"x\":[1,2],\"y\":[0,0]}"),
            (b"s.json", b"{\"y\":[10,100]}"),
        ],
        fails: 0,
        status: Status::Done,
        text: b"{\"adds\":2,\"adjoint\":{\"a\":210,\"x\":[30,300]},\"choices\":[\"1:a:reduction\",\"1:x:atomic\"],\"value\":{\"y\":[3,6]}}\n",
    },
    Call {
        words: BY_X_Y_OF_Y,
        files: &[
            (b"p.f90", COPY),
            (b"d.json", b"{\"n\":0,\"x\":[],\"y\":[7,8,9]}"),
            (b"s.json", b"{\"y\":[1,2,3]}"),
        ],
        fails: 0,
        status: Status::Done,
        text: b"{\"adds\":0,\"adjoint\":{\"x\":[],\"y\":[1,2,3]},\"choices\":[\"1:x:atomic\"],\"value\":{\"y\":[7,8,9]}}\n",
    },
    Call {
        words: BY_X_OF_Y,
        files: &[
            (b"p.f90", COPY),
            (b"d.json", b"{\"n\":4,\"x\":[1,2,3,4],\"y\":[0,0,0]}"),
            (b"s.json", b"{\"y\":[1,1,1]}"),
        ],
        fails: 0,
        status: Status::Trapped,
        text: b"trap line 6 bounds y\n",
    },
    Call {
        words: BY_X_OF_Y,
        files: &[
            (b"p.f90", UNSET),
            (b"d.json", b"{\"n\":1,\"x\":[1],\"y\":[0]}"),
            (b"s.json", b"{\"y\":[1]}"),
        ],
        fails: 0,
        status: Status::Trapped,
        text: b"trap line 6 unset t\n",
    },
    Call {
        words: BY_X_OF_X,
        files: &[
            (b"p.f90", OVER),
            (b"d.json", b"{\"n\":2147483647,\"x\":1}"),
            (b"s.json", b"{\"x\":1}"),
        ],
        fails: 0,
        status: Status::Trapped,
        text: b"trap line 4 range\n",
    },
    Call {
        words: BY_X_OF_Y,
        files: &[
            (b"p.f90", TALLY),
            (b"d.json", b"{\"n\":2,\"c\":[1,1],\"x\":[2,3],\"y\":[0,0]}"),
            (b"s.json", b"{\"y\":[1,0]}"),
        ],
        fails: 0,
        status: Status::Done,
        text: b"{\"adds\":4,\"adjoint\":{\"x\":[4,6]},\"choices\":[\"1:x:atomic\"],\"value\":{\"y\":[13,0]}}\n",
    },
    Call {
        words: BY_X_S_OF_S,
        files: &[
            (b"p.f90", DOT),
            (b"d.json", b"{\"n\":3,\"x\":[1,2,3],\"s\":5}"),
            (b"s.json", b"{\"s\":2}"),
        ],
        fails: 0,
        status: Status::Done,
        text: b"{\"adds\":6,\"adjoint\":{\"s\":2,\"x\":[4,8,12]},\"choices\":[\"1:x:atomic\"],\"value\":{\"s\":19}}\n",
    },
    Call {
        words: BY_X_OF_X,
        files: &[
            (b"p.f90", TIMES),
            (b"d.json", b"{\"n\":2,\"q\":2,\"x\":[2,3]}"),
            (b"s.json", b"{\"x\":[1,10]}"),
        ],
        fails: 0,
        status: Status::Done,
        text: b"{\"adds\":8,\"adjoint\":{\"x\":[32,1080]},\"choices\":[\"2:x:atomic\"],\"value\":{\"x\":[16,81]}}\n",
    },
    Call {
        words: BY_X_OF_X,
        files: &[
            (b"p.f90", KEPT),
            (b"d.json", b"{\"n\":2,\"x\":[2,3]}"),
            (b"s.json", b"{\"x\":[1,10]}"),
        ],
        fails: 0,
        status: Status::Done,
        text: b"{\"adds\":8,\"adjoint\":{\"x\":[1024,174960]},\"choices\":[\"2:x:atomic\"],\"value\":{\"x\":[256,6561]}}\n",
    },
];

#[test]
fn runs_small_programs(rt: HostRuntime) -> Result<(), Memory> {
    expect_calls(&rt, rt.alloc(), &RUNS)
}

/// Data of one and two bytes, two loops as one, elements that iterations share, names that nothing is asked of, and branches.
static FURTHER: [Call; 8] = [
    Call {
        words: BY_X_OF_Y,
        files: &[
            (b"p.f90", SQUARE_OF_A_BYTE),
            (b"d.json", b"{\"x\":100,\"y\":0}"),
            (b"s.json", b"{\"y\":1}"),
        ],
        fails: 0,
        status: Status::Done,
        text: b"{\"adds\":0,\"adjoint\":{\"x\":-56},\"choices\":[],\"value\":{\"y\":16}}\n",
    },
    Call {
        words: BY_X_OF_Y,
        files: &[
            (b"p.f90", SQUARE_OF_TWO_BYTES),
            (b"d.json", b"{\"x\":300,\"y\":0}"),
            (b"s.json", b"{\"y\":1}"),
        ],
        fails: 0,
        status: Status::Done,
        text: b"{\"adds\":0,\"adjoint\":{\"x\":600},\"choices\":[],\"value\":{\"y\":24464}}\n",
    },
    Call {
        words: BY_X_OF_Y,
        files: &[
            (b"p.f90", GATHER_OF_BYTES),
            (
                b"d.json",
                b"{\"n\":2,\"p\":1,\"c\":[1,1],\"x\":[5],\"y\":[0,0]}",
            ),
            (b"s.json", b"{\"y\":[100,100]}"),
        ],
        fails: 0,
        status: Status::Done,
        text: b"{\"adds\":2,\"adjoint\":{\"x\":[-56]},\"choices\":[\"1:x:atomic\"],\"value\":{\"y\":[5,5]}}\n",
    },
    Call {
        words: BY_X_OF_Y,
        files: &[
            (b"p.f90", LIN),
            (
                b"d.json",
                b"{\"n\":2,\"x\":[1,2,3,4,5,6,7,8],\"y\":[0,0,0,0,0,0,0,0]}",
            ),
            (b"s.json", b"{\"y\":[1,2,3,4,5,6,7,8]}"),
        ],
        fails: 0,
        status: Status::Done,
        text: b"{\"adds\":8,\"adjoint\":{\"x\":[1,3,5,7,2,4,6,8]},\"choices\":[\"1:x:atomic\"],\"value\":{\"y\":[1,5,2,6,3,7,4,8]}}\n",
    },
    Call {
        words: BY_X_OF_S,
        files: &[
            (b"p.f90", BLOCK5),
            (
                b"d.json",
                b"{\"n\":2,\"s\":[0,0],\"x\":[1,2,3,4,5,6,7,8,9]}",
            ),
            (b"s.json", b"{\"s\":[1,10]}"),
        ],
        fails: 0,
        status: Status::Done,
        text: b"{\"adds\":10,\"adjoint\":{\"x\":[1,1,1,1,11,10,10,10,10]},\"choices\":[\"1:x:atomic\"],\"value\":{\"s\":[15,35]}}\n",
    },
    Call {
        words: BY_X_OF_Y,
        files: &[
            (b"p.f90", DOUBLED),
            (
                b"d.json",
                b"{\"n\":2,\"c\":[2,1],\"x\":[5,6],\"y\":[0,0,0,0]}",
            ),
            (b"s.json", b"{\"y\":[1,10,100,1000]}"),
        ],
        fails: 0,
        status: Status::Done,
        text: b"{\"adds\":2,\"adjoint\":{\"x\":[10,1000]},\"choices\":[\"1:x:atomic\"],\"value\":{\"y\":[0,5,0,6]}}\n",
    },
    Call {
        words: BY_X_OF_X,
        files: &[
            (b"p.f90", FILL),
            (
                b"d.json",
                b"{\"n\":2,\"q\":3,\"x\":7,\"y\":[0,0],\"z\":[0,0]}",
            ),
            (b"s.json", b"{\"x\":1}"),
        ],
        fails: 0,
        status: Status::Done,
        text: b"{\"adds\":0,\"adjoint\":{\"x\":1},\"choices\":[],\"value\":{\"x\":7}}\n",
    },
    Call {
        words: BY_X_OF_Y,
        files: &[
            (b"p.f90", PICK),
            (b"d.json", b"{\"n\":3,\"x\":[-2,3,5],\"y\":[0,0,0]}"),
            (b"s.json", b"{\"y\":[1,10,100]}"),
        ],
        fails: 0,
        status: Status::Done,
        text: b"{\"adds\":3,\"adjoint\":{\"x\":[-1,0,1000]},\"choices\":[\"1:x:atomic\"],\"value\":{\"y\":[2,16,25]}}\n",
    },
];

#[test]
fn runs_further_programs(rt: HostRuntime) -> Result<(), Memory> {
    expect_calls(&rt, rt.alloc(), &FURTHER)
}
