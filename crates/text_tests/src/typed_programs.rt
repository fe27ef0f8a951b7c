//! Whole programs.

use crate::printed::expect_reprinted;
use crate::rows::Shown;
use crate::typed::expect_typed;
use fl_base::Memory;
use std::alloc::Global;
use std::process::Abort;

/// A program, with what is said of it. The second line declares `indexes`, where there are any, and the third `data`.
struct Program {
    name: &'static str,
    args: &'static str,
    indexes: &'static str,
    data: &'static str,
    body: &'static str,
    wanted: &'static str,
}

static PROGRAMS: [Program; 26] = [
    Program {
        name: "poly",
        args: "x, y",
        indexes: "",
        data: "x, y",
        body: "  y = x*x + 3*x\n",
        wanted: "typed",
    },
    Program {
        name: "square",
        args: "x, y",
        indexes: "",
        data: "x, y",
        body: "  y = x*x\n",
        wanted: "typed",
    },
    Program {
        name: "over",
        args: "n, x",
        indexes: "n, k",
        data: "x",
        body: "  k = n + 1\n  x = x + k\n",
        wanted: "typed",
    },
    Program {
        name: "stencil",
        args: "n, x, y",
        indexes: "n, i",
        data: "x(n), y(n)",
        body: "  !$omp parallel do\n  do i = 2, n-1\n    y(i) = x(i-1) + x(i+1)\n  end do\n",
        wanted: "typed",
    },
    Program {
        name: "scatter",
        args: "n, c, x, y",
        indexes: "n, i, c(n)",
        data: "x(n), y(n)",
        body: "  !$omp parallel do\n  do i = 1, n\n    y(c(i)) = x(c(i))*x(c(i))\n  end do\n",
        wanted: "typed",
    },
    Program {
        name: "gather",
        args: "n, p, c, x, y",
        indexes: "n, p, i, c(n)",
        data: "x(p), y(n)",
        body: "  !$omp parallel do\n  do i = 1, n\n    y(i) = x(c(i))\n  end do\n",
        wanted: "typed",
    },
    Program {
        name: "stride",
        args: "n, x, y",
        indexes: "n, i",
        data: "x(n), y(n)",
        body: "  !$omp parallel do\n  do i = 1, n, 2\n    y(i) = x(i)*x(i+1)\n  end do\n",
        wanted: "typed",
    },
    Program {
        name: "stride2",
        args: "n, x, y",
        indexes: "n, i",
        data: "x(n+2), y(n)",
        body: "  !$omp parallel do\n  do i = 1, n, 2\n    y(i) = x(i)*x(i+2)\n  end do\n",
        wanted: "typed",
    },
    Program {
        name: "compose",
        args: "n, c, d, x, y",
        indexes: "n, i, c(n), d(n)",
        data: "x(n), y(n)",
        body: "  !$omp parallel do\n  do i = 1, n\n    y(d(c(i))) = x(c(i))\n  end do\n",
        wanted: "typed",
    },
    Program {
        name: "path",
        args: "n, m, p, z, w, y",
        indexes: "n, i, m(n), p(n)",
        data: "z(n), w(n), y(n)",
        body: "  !$omp parallel do\n  do i = 1, n\n    if (m(i) > 0) y(p(i)) = 1\n    w(i) = z(p(i))\n  end do\n",
        wanted: "typed",
    },
    Program {
        name: "version",
        args: "n, b, c, z, w, y",
        indexes: "n, i, k, b(n), c(n)",
        data: "z(n), w(n), y(n)",
        body: "  !$omp parallel do private(k)\n  do i = 1, n\n    k = c(i)\n    y(k) = 1\n    k = b(i)\n    w(i) = z(k)\n  end do\n",
        wanted: "typed",
    },
    Program {
        name: "block",
        args: "n, s, x",
        indexes: "n, i, j",
        data: "s(n), x(4*n)",
        body: "  !$omp parallel do\n  do i = 1, n\n    do j = 1, 4\n    s(i) = s(i) + x(4*(i-1)+j)\n    end do\n  end do\n",
        wanted: "typed",
    },
    Program {
        name: "block5",
        args: "n, s, x",
        indexes: "n, i, j",
        data: "s(n), x(4*n+1)",
        body: "  !$omp parallel do\n  do i = 1, n\n    do j = 1, 5\n    s(i) = s(i) + x(4*(i-1)+j)\n    end do\n  end do\n",
        wanted: "typed",
    },
    Program {
        name: "scale",
        args: "n, a, x, y",
        indexes: "n, i",
        data: "a, x(n), y(n)",
        body: "  !$omp parallel do\n  do i = 1, n\n    y(i) = a*x(i)\n  end do\n",
        wanted: "typed",
    },
    Program {
        name: "copy",
        args: "n, x, y",
        indexes: "n, i",
        data: "x(n), y(3)",
        body: "  !$omp parallel do\n  do i = 1, n\n    y(i) = x(i)\n  end do\n",
        wanted: "typed",
    },
    Program {
        name: "pass",
        args: "n, x, y",
        indexes: "n, i",
        data: "x(n), y(n)",
        body: "  !$omp parallel do\n  do i = 1, n\n    y(i) = x(i)\n  end do\n",
        wanted: "typed",
    },
    Program {
        name: "unset",
        args: "n, x, y",
        indexes: "n, i",
        data: "x(n), y(n), t",
        body: "  !$omp parallel do private(t)\n  do i = 1, n\n    y(i) = t\n    t = x(i)\n  end do\n",
        wanted: "typed",
    },
    Program {
        name: "halve",
        args: "n, x, y",
        indexes: "n, i",
        data: "x(n), y(n)",
        body: "  !$omp parallel do\n  do i = 1, n\n    y(i) = x(i)/2\n  end do\n",
        wanted: "6: division of data",
    },
    Program {
        name: "tally",
        args: "n, c, x, y",
        indexes: "n, i, c(n)",
        data: "x(n), y(n)",
        body: "  !$omp parallel do\n  do i = 1, n\n    !$omp atomic\n    y(c(i)) = y(c(i)) + x(i)*x(i)\n  end do\n",
        wanted: "typed",
    },
    Program {
        name: "doubled",
        args: "n, c, x, y",
        indexes: "n, i, c(n)",
        data: "x(n), y(2*n)",
        body: "  !$omp parallel do\n  do i = 1, n\n    y(2*c(i)) = x(c(i))\n  end do\n",
        wanted: "typed",
    },
    Program {
        name: "sq",
        args: "n, x",
        indexes: "n, i",
        data: "x(n)",
        body: "  !$omp parallel do\n  do i = 1, n\n    x(i) = x(i)*x(i)\n  end do\n",
        wanted: "typed",
    },
    Program {
        name: "edges",
        args: "n, m, q, a, b, u, r",
        indexes: "n, m, q, a(m), b(m), e, i, t",
        data: "u(n), r(n), d",
        body: "  do t = 1, q\n    !$omp parallel do private(d)\n    do e = 1, m\n      d = u(a(e))*u(b(e))\n      !$omp atomic\n      r(a(e)) = r(a(e)) + d\n      !$omp atomic\n      r(b(e)) = r(b(e)) - d\n    end do\n    !$omp parallel do\n    do i = 1, n\n      u(i) = u(i) + r(i)\n    end do\n  end do\n",
        wanted: "typed",
    },
    Program {
        name: "pick",
        args: "n, x, y",
        indexes: "n, i",
        data: "x(n), y(n)",
        body: "  !$omp parallel do\n  do i = 1, n\n    if (x(i) < 0) then\n      y(i) = abs(x(i))\n    else\n      y(i) = max(x(i), 4)**2\n    end if\n  end do\n",
        wanted: "9: kinds differ",
    },
    Program {
        name: "pick",
        args: "n, x, y",
        indexes: "n, i",
        data: "x(n), y(n)",
        body: "  !$omp parallel do\n  do i = 1, n\n    if (x(i) < 0) then\n      y(i) = abs(x(i))\n    else\n      y(i) = max(x(i), 4_8)**2\n    end if\n  end do\n",
        wanted: "typed",
    },
    Program {
        name: "stencil",
        args: "n, x, y",
        indexes: "n, i",
        data: "x(n), y(n)",
        body: "  !$omp parallel do collapse(2)\n  do i = 2, n-1\n    y(i) = x(i-1) + x(i+1)\n  end do\n",
        wanted: "4: collapse form",
    },
    Program {
        name: "lin",
        args: "n, x, y",
        indexes: "n, i, j",
        data: "x(4*n), y(n,4)",
        body: "  !$omp parallel do collapse(2)\n  do i = 1, n\n    do j = 1, 4\n    y(i,j) = x(4*(i-1)+j)\n    end do\n  end do\n",
        wanted: "typed",
    },
];

fn push_head(text: &mut String, program: &Program) -> Shown {
    text.push_str("subroutine ")
        .and(text.push_str(program.name))
        .and(text.push('('))
        .and(text.push_str(program.args))
        .and(text.push_str(")\n"))
}

fn push_indexes(text: &mut String, program: &Program) -> Shown {
    if program.indexes.is_empty() {
        return text.push_str("  !\n");
    }
    text.push_str("  integer :: ")
        .and(text.push_str(program.indexes))
        .and(text.push('\n'))
}

fn push_data(text: &mut String, program: &Program) -> Shown {
    text.push_str("  integer(kind=8) :: ")
        .and(text.push_str(program.data))
        .and(text.push('\n'))
}

fn push_end(text: &mut String, program: &Program) -> Shown {
    text.push_str("end subroutine ")
        .and(text.push_str(program.name))
        .and(text.push('\n'))
}

fn push_program(text: &mut String, program: &Program) -> Shown {
    push_head(text, program)
        .and(push_indexes(text, program))
        .and(push_data(text, program))
        .and(text.push_str(program.body))
        .and(push_end(text, program))
}

fn expect_program<R: Abort>(rt: &R, alloc: Global, program: &Program) -> Result<(), Memory> {
    let mut text = String::new(alloc);
    push_program(&mut text, program)?;
    expect_typed(rt, alloc, text.as_str(), program.wanted)
}

fn expect_programs<R: Abort>(rt: &R, alloc: Global, programs: &[Program]) -> Result<(), Memory> {
    for program in programs {
        expect_program(rt, alloc, program)?;
    }
    Ok(())
}

fn expect_alike<R: Abort>(rt: &R, alloc: Global, program: &Program) -> Shown {
    let mut text = String::new(alloc);
    push_program(&mut text, program)?;
    expect_reprinted(rt, alloc, text.as_str())
}

fn expect_all_alike<R: Abort>(rt: &R, alloc: Global, programs: &[Program]) -> Shown {
    for program in programs {
        expect_alike(rt, alloc, program)?;
    }
    Ok(())
}

#[test]
fn programs_are_printed_alike(rt: HostRuntime) -> Shown {
    expect_all_alike(&rt, rt.alloc(), &PROGRAMS)
}

#[test]
fn programs_are_typed(rt: HostRuntime) -> Result<(), Memory> {
    expect_programs(&rt, rt.alloc(), &PROGRAMS)
}
