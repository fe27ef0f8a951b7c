//! Programs with parallel loops.

use crate::told::{Row, expect_adjoint};
use std::test::Fail;

static ROWS: [Row; 5] = [
    // one element an iteration, squared in its place
    Row {
        of: "x",
        wrt: "x",
        program: "subroutine sq(n, x)
  integer :: n, i
  integer(kind=8) :: x(n)
  !$omp parallel do
  do i = 1, n
    x(i) = x(i)*x(i)
  end do
end subroutine sq
",
        adjoint: "subroutine sq_b(n, x, x_b)
  implicit none
  integer(kind=4) :: n
  integer(kind=4) :: i
  integer(kind=8) :: x(n)
  integer(kind=8) :: x_b(n)
  integer(kind=4) :: formad_lo1
  integer(kind=4) :: formad_hi1
  integer(kind=4) :: formad_by1
  integer(kind=4) :: formad_k
  integer(kind=4) :: formad_w
  integer(kind=8) :: formad_t
  formad_lo1 = 1
  formad_hi1 = n
  formad_by1 = 1
  call formad_open(max(((formad_hi1-formad_lo1)+formad_by1)/formad_by1, 0))
  !$omp parallel do private(formad_k, formad_w, formad_t)
  do i = formad_lo1, formad_hi1, formad_by1
    formad_k = (i-formad_lo1)/formad_by1
    call formad_push(formad_k, x(i))
    x(i) = x(i)*x(i)
  end do
  call formad_close()
  call formad_push(-1, formad_lo1)
  call formad_push(-1, formad_hi1)
  call formad_push(-1, formad_by1)
  call formad_pop(-1, formad_by1)
  call formad_pop(-1, formad_hi1)
  call formad_pop(-1, formad_lo1)
  call formad_open(-1)
  !$omp parallel do private(formad_k, formad_w, formad_t)
  do i = formad_lo1, formad_hi1, formad_by1
    formad_k = (i-formad_lo1)/formad_by1
    formad_t = x_b(i)
    x_b(i) = 0_8
    call formad_pop(formad_k, x(i))
    !$omp atomic
    x_b(i) = x_b(i)+(formad_t*x(i))
    !$omp atomic
    x_b(i) = x_b(i)+(formad_t*x(i))
  end do
  call formad_close()
end subroutine sq_b
",
    },
    // an atomic chain of three terms that is undone by one term, and a sum before the place
    Row {
        of: "y",
        wrt: "x,y",
        program: "subroutine chain(n, x, y)
  integer :: n, i
  integer(kind=8) :: x(n), y(n)
  !$omp parallel do
  do i = 1, n
    !$omp atomic
    x(1) = x(1) + y(i) + y(i)*y(n)
    !$omp atomic
    x(1) = y(i)*y(n) + y(1) + x(1)
    !$omp atomic
    x(1) = x(1) - (y(i) + y(n))
  end do
  y(1) = x(1)*x(1)
end subroutine
",
        adjoint: "subroutine chain_b(n, x, x_b, y, y_b)
  implicit none
  integer(kind=4) :: n
  integer(kind=4) :: i
  integer(kind=8) :: x(n)
  integer(kind=8) :: x_b(n)
  integer(kind=8) :: y(n)
  integer(kind=8) :: y_b(n)
  integer(kind=4) :: formad_lo1
  integer(kind=4) :: formad_hi1
  integer(kind=4) :: formad_by1
  integer(kind=4) :: formad_k
  integer(kind=4) :: formad_w
  integer(kind=8) :: formad_t
  formad_lo1 = 1
  formad_hi1 = n
  formad_by1 = 1
  call formad_open(max(((formad_hi1-formad_lo1)+formad_by1)/formad_by1, 0))
  !$omp parallel do private(formad_k, formad_w, formad_t)
  do i = formad_lo1, formad_hi1, formad_by1
    formad_k = (i-formad_lo1)/formad_by1
    !$omp atomic
    x(1) = x(1)+y(i)+(y(i)*y(n))
    !$omp atomic
    x(1) = (y(i)*y(n))+y(1)+x(1)
    !$omp atomic
    x(1) = x(1)-(y(i)+y(n))
  end do
  call formad_close()
  call formad_push(-1, formad_lo1)
  call formad_push(-1, formad_hi1)
  call formad_push(-1, formad_by1)
  call formad_push(-1, y(1))
  y(1) = x(1)*x(1)
  formad_t = y_b(1)
  y_b(1) = 0_8
  call formad_pop(-1, y(1))
  x_b(1) = x_b(1)+(formad_t*x(1))
  x_b(1) = x_b(1)+(formad_t*x(1))
  call formad_pop(-1, formad_by1)
  call formad_pop(-1, formad_hi1)
  call formad_pop(-1, formad_lo1)
  call formad_open(-1)
  !$omp parallel do private(formad_k, formad_w, formad_t)
  do i = formad_lo1, formad_hi1, formad_by1
    formad_k = (i-formad_lo1)/formad_by1
    !$omp atomic
    x(1) = x(1)+(y(i)+y(n))
    formad_t = x_b(1)
    !$omp atomic
    y_b(i) = y_b(i)-formad_t
    !$omp atomic
    y_b(n) = y_b(n)-formad_t
    !$omp atomic
    x(1) = x(1)-((y(i)*y(n))+y(1))
    formad_t = x_b(1)
    !$omp atomic
    y_b(i) = y_b(i)+(formad_t*y(n))
    !$omp atomic
    y_b(n) = y_b(n)+(formad_t*y(i))
    !$omp atomic
    y_b(1) = y_b(1)+formad_t
    !$omp atomic
    x(1) = x(1)-(y(i)+(y(i)*y(n)))
    formad_t = x_b(1)
    !$omp atomic
    y_b(i) = y_b(i)+formad_t
    !$omp atomic
    y_b(i) = y_b(i)+(formad_t*y(n))
    !$omp atomic
    y_b(n) = y_b(n)+(formad_t*y(i))
  end do
  call formad_close()
end subroutine chain_b
",
    },
    // a reduction that is needed: undone under atomic, a first minus as a negation
    Row {
        of: "s",
        wrt: "s,x",
        program: "subroutine sums(n, s, x)
  integer :: n, i
  integer(kind=2) :: s, x(n)
  !$omp parallel do reduction(+: s)
  do i = 1, n
    s = s - x(i) + i - 3
    s = s - x(i)
  end do
  s = s*s
end subroutine sums
",
        adjoint: "subroutine sums_b(n, s, s_b, x, x_b)
  implicit none
  integer(kind=4) :: n
  integer(kind=4) :: i
  integer(kind=2) :: s
  integer(kind=2) :: s_b
  integer(kind=2) :: x(n)
  integer(kind=2) :: x_b(n)
  integer(kind=4) :: formad_lo1
  integer(kind=4) :: formad_hi1
  integer(kind=4) :: formad_by1
  integer(kind=4) :: formad_k
  integer(kind=4) :: formad_w
  integer(kind=2) :: formad_t
  formad_lo1 = 1
  formad_hi1 = n
  formad_by1 = 1
  call formad_open(max(((formad_hi1-formad_lo1)+formad_by1)/formad_by1, 0))
  !$omp parallel do private(formad_k, formad_w, formad_t) reduction(+: s)
  do i = formad_lo1, formad_hi1, formad_by1
    formad_k = (i-formad_lo1)/formad_by1
    s = ((s-x(i))+i)-3
    s = s-x(i)
  end do
  call formad_close()
  call formad_push(-1, formad_lo1)
  call formad_push(-1, formad_hi1)
  call formad_push(-1, formad_by1)
  call formad_push(-1, s)
  s = s*s
  formad_t = s_b
  s_b = 0_8
  call formad_pop(-1, s)
  s_b = s_b+(formad_t*s)
  s_b = s_b+(formad_t*s)
  call formad_pop(-1, formad_by1)
  call formad_pop(-1, formad_hi1)
  call formad_pop(-1, formad_lo1)
  call formad_open(-1)
  !$omp parallel do private(formad_k, formad_w, formad_t)
  do i = formad_lo1, formad_hi1, formad_by1
    formad_k = (i-formad_lo1)/formad_by1
    !$omp atomic
    s = s+x(i)
    formad_t = s_b
    !$omp atomic
    x_b(i) = x_b(i)-formad_t
    !$omp atomic
    s = s-(((-x(i))+i)-3)
    formad_t = s_b
    !$omp atomic
    x_b(i) = x_b(i)-formad_t
  end do
  call formad_close()
end subroutine sums_b
",
    },
    // two collapsed loops in a time loop that runs down, with a private scalar and an inner loop
    Row {
        of: "x",
        wrt: "x",
        program: "subroutine nest(n, m, x, y)
  integer :: t, i, n, m, j, k
  integer(kind=8) :: x(n, m), r, y(n)
  do t = m, 1, -1
    !$omp parallel do collapse(2) private(k, r) schedule(dynamic, 4)
    do i = 1, n
      do j = t, m, 2
        r = x(i, j)
        do k = 1, 2
          r = r*y(k)
        end do
        x(i, j) = r
      end do
    end do
  end do
end subroutine nest
",
        adjoint: "subroutine nest_b(n, m, x, x_b, y)
  implicit none
  integer(kind=4) :: t
  integer(kind=4) :: i
  integer(kind=4) :: n
  integer(kind=4) :: m
  integer(kind=4) :: j
  integer(kind=4) :: k
  integer(kind=8) :: x(n, m)
  integer(kind=8) :: x_b(n, m)
  integer(kind=8) :: r
  integer(kind=8) :: r_b
  integer(kind=8) :: y(n)
  integer(kind=4) :: formad_lo1
  integer(kind=4) :: formad_hi1
  integer(kind=4) :: formad_by1
  integer(kind=4) :: formad_lo2
  integer(kind=4) :: formad_hi2
  integer(kind=4) :: formad_by2
  integer(kind=4) :: formad_lo3
  integer(kind=4) :: formad_hi3
  integer(kind=4) :: formad_by3
  integer(kind=4) :: formad_lo4
  integer(kind=4) :: formad_hi4
  integer(kind=4) :: formad_by4
  integer(kind=4) :: formad_k
  integer(kind=4) :: formad_w
  integer(kind=8) :: formad_t
  formad_lo1 = m
  formad_hi1 = 1
  formad_by1 = -1
  do t = formad_lo1, formad_hi1, formad_by1
    formad_lo2 = 1
    formad_hi2 = n
    formad_by2 = 1
    formad_lo3 = t
    formad_hi3 = m
    formad_by3 = 2
    call formad_open(max(((formad_hi2-formad_lo2)+formad_by2)/formad_by2, 0)*max(((formad_hi3-formad_lo3)+formad_by3)/ &
        formad_by3, 0))
    !$omp parallel do private(k, r, r_b, formad_lo4, formad_hi4, formad_by4, formad_k, formad_w, formad_t) collapse(2) &
    !$omp schedule(dynamic, 4)
    do i = formad_lo2, formad_hi2, formad_by2
      do j = formad_lo3, formad_hi3, formad_by3
        formad_k = (((i-formad_lo2)/formad_by2)*max(((formad_hi3-formad_lo3)+formad_by3)/formad_by3, 0))+((j- &
            formad_lo3)/formad_by3)
        r = 0_8
        r = x(i, j)
        formad_lo4 = 1
        formad_hi4 = 2
        formad_by4 = 1
        do k = formad_lo4, formad_hi4, formad_by4
          r = r*y(k)
        end do
        call formad_push(formad_k, formad_lo4)
        call formad_push(formad_k, formad_hi4)
        call formad_push(formad_k, formad_by4)
        x(i, j) = r
      end do
    end do
    call formad_close()
    call formad_push(-1, formad_lo2)
    call formad_push(-1, formad_hi2)
    call formad_push(-1, formad_by2)
    call formad_push(-1, formad_lo3)
    call formad_push(-1, formad_hi3)
    call formad_push(-1, formad_by3)
  end do
  call formad_push(-1, formad_lo1)
  call formad_push(-1, formad_hi1)
  call formad_push(-1, formad_by1)
  call formad_pop(-1, formad_by1)
  call formad_pop(-1, formad_hi1)
  call formad_pop(-1, formad_lo1)
  do t = formad_lo1+((max(((formad_hi1-formad_lo1)+formad_by1)/formad_by1, 0)-1)*formad_by1), formad_lo1, -formad_by1
    call formad_pop(-1, formad_by3)
    call formad_pop(-1, formad_hi3)
    call formad_pop(-1, formad_lo3)
    call formad_pop(-1, formad_by2)
    call formad_pop(-1, formad_hi2)
    call formad_pop(-1, formad_lo2)
    call formad_open(-1)
    !$omp parallel do private(k, r, r_b, formad_lo4, formad_hi4, formad_by4, formad_k, formad_w, formad_t) collapse(2) &
    !$omp schedule(dynamic, 4)
    do i = formad_lo2, formad_hi2, formad_by2
      do j = formad_lo3, formad_hi3, formad_by3
        formad_k = (((i-formad_lo2)/formad_by2)*max(((formad_hi3-formad_lo3)+formad_by3)/formad_by3, 0))+((j- &
            formad_lo3)/formad_by3)
        r_b = 0_8
        formad_t = x_b(i, j)
        x_b(i, j) = 0_8
        r_b = r_b+formad_t
        call formad_pop(formad_k, formad_by4)
        call formad_pop(formad_k, formad_hi4)
        call formad_pop(formad_k, formad_lo4)
        do k = formad_lo4+((max(((formad_hi4-formad_lo4)+formad_by4)/formad_by4, 0)-1)*formad_by4), formad_lo4, - &
            formad_by4
          formad_t = r_b
          r_b = 0_8
          r_b = r_b+(formad_t*y(k))
        end do
        formad_t = r_b
        r_b = 0_8
        !$omp atomic
        x_b(i, j) = x_b(i, j)+formad_t
      end do
    end do
    call formad_close()
  end do
end subroutine nest_b
",
    },
    // index names that are needed because subscripts hold them: a private one, an array, an array in a subscript of that
    Row {
        of: "y",
        wrt: "x",
        program: "subroutine chase(n, c, d, x, y)
  integer :: n, c(n), d(n), i, p, q
  integer(kind=8) :: x(n), y(n)
  !$omp parallel do private(p, q)
  do i = 1, n
    q = i + 1
    p = c(q)
    q = 2
    d(c(i)) = p
    y(i) = x(d(p))
  end do
end subroutine chase
",
        adjoint: "subroutine chase_b(n, c, d, x, x_b, y, y_b)
  implicit none
  integer(kind=4) :: n
  integer(kind=4) :: c(n)
  integer(kind=4) :: d(n)
  integer(kind=4) :: i
  integer(kind=4) :: p
  integer(kind=4) :: q
  integer(kind=8) :: x(n)
  integer(kind=8) :: x_b(n)
  integer(kind=8) :: y(n)
  integer(kind=8) :: y_b(n)
  integer(kind=4) :: formad_lo1
  integer(kind=4) :: formad_hi1
  integer(kind=4) :: formad_by1
  integer(kind=4) :: formad_k
  integer(kind=4) :: formad_w
  integer(kind=8) :: formad_t
  formad_lo1 = 1
  formad_hi1 = n
  formad_by1 = 1
  call formad_open(max(((formad_hi1-formad_lo1)+formad_by1)/formad_by1, 0))
  !$omp parallel do private(p, q, formad_k, formad_w, formad_t)
  do i = formad_lo1, formad_hi1, formad_by1
    formad_k = (i-formad_lo1)/formad_by1
    p = 0
    q = 0
    q = i+1
    call formad_push(formad_k, p)
    p = c(q)
    q = 2
    call formad_push(formad_k, d(c(i)))
    d(c(i)) = p
    y(i) = x(d(p))
    call formad_push(formad_k, p)
  end do
  call formad_close()
  call formad_push(-1, formad_lo1)
  call formad_push(-1, formad_hi1)
  call formad_push(-1, formad_by1)
  call formad_pop(-1, formad_by1)
  call formad_pop(-1, formad_hi1)
  call formad_pop(-1, formad_lo1)
  call formad_open(-1)
  !$omp parallel do private(p, q, formad_k, formad_w, formad_t)
  do i = formad_lo1, formad_hi1, formad_by1
    formad_k = (i-formad_lo1)/formad_by1
    call formad_pop(formad_k, p)
    formad_t = y_b(i)
    y_b(i) = 0_8
    !$omp atomic
    x_b(d(p)) = x_b(d(p))+formad_t
    call formad_pop(formad_k, d(c(i)))
    call formad_pop(formad_k, p)
  end do
  call formad_close()
end subroutine chase_b
",
    },
];

#[test]
fn parallel_loops_are_reversed(rt: HostRuntime) -> Result<(), Fail> {
    for row in &ROWS {
        expect_adjoint(&rt, rt.alloc(), row)?;
    }
    Ok(())
}
