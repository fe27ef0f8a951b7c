//! Statements in statements.

use crate::told::{Row, expect_adjoint};
use std::test::Fail;

static ROWS: [Row; 4] = [
    // two parallel loops in a time loop, with atomic updates of two signs
    Row {
        of: "u",
        wrt: "u",
        program: "subroutine edges(n, m, q, a, b, u, r)
  integer :: n, m, q, a(m), b(m), e, i, t
  integer(kind=8) :: u(n), r(n), d
  do t = 1, q
    !$omp parallel do private(d)
    do e = 1, m
      d = u(a(e))*u(b(e))
      !$omp atomic
      r(a(e)) = r(a(e)) + d
      !$omp atomic
      r(b(e)) = r(b(e)) - d
    end do
    !$omp parallel do
    do i = 1, n
      u(i) = u(i) + r(i)
    end do
  end do
end subroutine edges
",
        adjoint: "subroutine edges_b(n, m, q, a, b, u, u_b, r, r_b)
  implicit none
  integer(kind=4) :: n
  integer(kind=4) :: m
  integer(kind=4) :: q
  integer(kind=4) :: a(m)
  integer(kind=4) :: b(m)
  integer(kind=4) :: e
  integer(kind=4) :: i
  integer(kind=4) :: t
  integer(kind=8) :: u(n)
  integer(kind=8) :: u_b(n)
  integer(kind=8) :: r(n)
  integer(kind=8) :: r_b(n)
  integer(kind=8) :: d
  integer(kind=8) :: d_b
  integer(kind=4) :: formad_lo1
  integer(kind=4) :: formad_hi1
  integer(kind=4) :: formad_by1
  integer(kind=4) :: formad_lo2
  integer(kind=4) :: formad_hi2
  integer(kind=4) :: formad_by2
  integer(kind=4) :: formad_lo3
  integer(kind=4) :: formad_hi3
  integer(kind=4) :: formad_by3
  integer(kind=4) :: formad_k
  integer(kind=4) :: formad_w
  integer(kind=8) :: formad_t
  formad_lo1 = 1
  formad_hi1 = q
  formad_by1 = 1
  do t = formad_lo1, formad_hi1, formad_by1
    formad_lo2 = 1
    formad_hi2 = m
    formad_by2 = 1
    call formad_open(max(((formad_hi2-formad_lo2)+formad_by2)/formad_by2, 0))
    !$omp parallel do private(d, d_b, formad_k, formad_w, formad_t)
    do e = formad_lo2, formad_hi2, formad_by2
      formad_k = (e-formad_lo2)/formad_by2
      d = 0_8
      call formad_push(formad_k, d)
      d = u(a(e))*u(b(e))
      !$omp atomic
      r(a(e)) = r(a(e))+d
      !$omp atomic
      r(b(e)) = r(b(e))-d
      call formad_push(formad_k, d)
    end do
    call formad_close()
    call formad_push(-1, formad_lo2)
    call formad_push(-1, formad_hi2)
    call formad_push(-1, formad_by2)
    formad_lo3 = 1
    formad_hi3 = n
    formad_by3 = 1
    call formad_open(max(((formad_hi3-formad_lo3)+formad_by3)/formad_by3, 0))
    !$omp parallel do private(formad_k, formad_w, formad_t)
    do i = formad_lo3, formad_hi3, formad_by3
      formad_k = (i-formad_lo3)/formad_by3
      u(i) = u(i)+r(i)
    end do
    call formad_close()
    call formad_push(-1, formad_lo3)
    call formad_push(-1, formad_hi3)
    call formad_push(-1, formad_by3)
  end do
  call formad_push(-1, formad_lo1)
  call formad_push(-1, formad_hi1)
  call formad_push(-1, formad_by1)
  call formad_pop(-1, formad_by1)
  call formad_pop(-1, formad_hi1)
  call formad_pop(-1, formad_lo1)
  do t = formad_lo1+((max(((formad_hi1-formad_lo1)+formad_by1)/formad_by1, 0)-1)*formad_by1), formad_lo1, -formad_by1
    call formad_pop(-1, formad_by3)
    call formad_pop(-1, formad_hi3)
    call formad_pop(-1, formad_lo3)
    call formad_open(-1)
    !$omp parallel do private(formad_k, formad_w, formad_t)
    do i = formad_lo3, formad_hi3, formad_by3
      formad_k = (i-formad_lo3)/formad_by3
      u(i) = u(i)-r(i)
      formad_t = u_b(i)
      !$omp atomic
      r_b(i) = r_b(i)+formad_t
    end do
    call formad_close()
    call formad_pop(-1, formad_by2)
    call formad_pop(-1, formad_hi2)
    call formad_pop(-1, formad_lo2)
    call formad_open(-1)
    !$omp parallel do private(d, d_b, formad_k, formad_w, formad_t)
    do e = formad_lo2, formad_hi2, formad_by2
      formad_k = (e-formad_lo2)/formad_by2
      call formad_pop(formad_k, d)
      d_b = 0_8
      !$omp atomic
      r(b(e)) = r(b(e))+d
      formad_t = r_b(b(e))
      d_b = d_b-formad_t
      !$omp atomic
      r(a(e)) = r(a(e))-d
      formad_t = r_b(a(e))
      d_b = d_b+formad_t
      formad_t = d_b
      d_b = 0_8
      call formad_pop(formad_k, d)
      !$omp atomic
      u_b(a(e)) = u_b(a(e))+(formad_t*u(b(e)))
      !$omp atomic
      u_b(b(e)) = u_b(b(e))+(formad_t*u(a(e)))
    end do
    call formad_close()
  end do
end subroutine edges_b
",
    },
    // branches in branches in a loop in a parallel loop
    Row {
        of: "x,y",
        wrt: "x,y",
        program: "subroutine branches(n, m, x, y)
  integer :: n, i, j, m(n)
  integer(kind=8) :: x(n), y(n)
  !$omp parallel do private(j)
  do i = 1, n
    do j = 1, 3
      if (m(i) > j) then
        if (x(i) < 0) then
          y(i) = y(i)*x(i)
        else if (mod(j, 2) == 0) then
          y(i) = x(i)**2
        else
          y(i) = y(i) - x(i)*j
        end if
      else if (m(i) == j) then
        x(i) = -x(i)
      end if
    end do
  end do
end subroutine branches
",
        adjoint: "subroutine branches_b(n, m, x, x_b, y, y_b)
  implicit none
  integer(kind=4) :: n
  integer(kind=4) :: i
  integer(kind=4) :: j
  integer(kind=4) :: m(n)
  integer(kind=8) :: x(n)
  integer(kind=8) :: x_b(n)
  integer(kind=8) :: y(n)
  integer(kind=8) :: y_b(n)
  integer(kind=4) :: formad_lo1
  integer(kind=4) :: formad_hi1
  integer(kind=4) :: formad_by1
  integer(kind=4) :: formad_lo2
  integer(kind=4) :: formad_hi2
  integer(kind=4) :: formad_by2
  integer(kind=4) :: formad_k
  integer(kind=4) :: formad_w
  integer(kind=8) :: formad_t
  formad_lo1 = 1
  formad_hi1 = n
  formad_by1 = 1
  call formad_open(max(((formad_hi1-formad_lo1)+formad_by1)/formad_by1, 0))
  !$omp parallel do private(j, formad_lo2, formad_hi2, formad_by2, formad_k, formad_w, formad_t)
  do i = formad_lo1, formad_hi1, formad_by1
    formad_k = (i-formad_lo1)/formad_by1
    formad_lo2 = 1
    formad_hi2 = 3
    formad_by2 = 1
    do j = formad_lo2, formad_hi2, formad_by2
      if (m(i) > j) then
        if (x(i) < 0) then
          call formad_push(formad_k, y(i))
          y(i) = y(i)*x(i)
          call formad_push(formad_k, 0)
        else if (mod(j, 2) == 0) then
          call formad_push(formad_k, y(i))
          y(i) = x(i)**2
          call formad_push(formad_k, 1)
        else
          y(i) = y(i)-(x(i)*j)
          call formad_push(formad_k, 2)
        end if
        call formad_push(formad_k, 0)
      else if (m(i) == j) then
        call formad_push(formad_k, x(i))
        x(i) = -x(i)
        call formad_push(formad_k, 1)
      else
        call formad_push(formad_k, 2)
      end if
    end do
    call formad_push(formad_k, formad_lo2)
    call formad_push(formad_k, formad_hi2)
    call formad_push(formad_k, formad_by2)
  end do
  call formad_close()
  call formad_push(-1, formad_lo1)
  call formad_push(-1, formad_hi1)
  call formad_push(-1, formad_by1)
  call formad_pop(-1, formad_by1)
  call formad_pop(-1, formad_hi1)
  call formad_pop(-1, formad_lo1)
  call formad_open(-1)
  !$omp parallel do private(j, formad_lo2, formad_hi2, formad_by2, formad_k, formad_w, formad_t)
  do i = formad_lo1, formad_hi1, formad_by1
    formad_k = (i-formad_lo1)/formad_by1
    call formad_pop(formad_k, formad_by2)
    call formad_pop(formad_k, formad_hi2)
    call formad_pop(formad_k, formad_lo2)
    do j = formad_lo2+((max(((formad_hi2-formad_lo2)+formad_by2)/formad_by2, 0)-1)*formad_by2), formad_lo2, -formad_by2
      call formad_pop(formad_k, formad_w)
      if (formad_w == 0) then
        call formad_pop(formad_k, formad_w)
        if (formad_w == 0) then
          formad_t = y_b(i)
          y_b(i) = 0_8
          call formad_pop(formad_k, y(i))
          !$omp atomic
          y_b(i) = y_b(i)+(formad_t*x(i))
          !$omp atomic
          x_b(i) = x_b(i)+(formad_t*y(i))
        else if (formad_w == 1) then
          formad_t = y_b(i)
          y_b(i) = 0_8
          call formad_pop(formad_k, y(i))
          !$omp atomic
          x_b(i) = x_b(i)+((formad_t*2_8)*x(i))
        else
          y(i) = y(i)+(x(i)*j)
          formad_t = y_b(i)
          !$omp atomic
          x_b(i) = x_b(i)-(formad_t*j)
        end if
      else if (formad_w == 1) then
        formad_t = x_b(i)
        x_b(i) = 0_8
        call formad_pop(formad_k, x(i))
        !$omp atomic
        x_b(i) = x_b(i)-formad_t
      end if
    end do
  end do
  call formad_close()
end subroutine branches_b
",
    },
    // increments with three rest terms: a chain, a sum, a reduction, an atomic one
    Row {
        of: "x,y",
        wrt: "s,x,y",
        program: "subroutine terms(n, c, s, x, y)
  integer :: n, i, c(n)
  integer(kind=8) :: s, x(n), y(n)
  s = s + x(1) - 2*x(2) + x(1)*x(2)
  s = x(1)*x(1) + s
  !$omp parallel do reduction(+: s)
  do i = 1, n
    s = s - x(i) + x(i)*x(c(i)) - 3
    !$omp atomic
    y(c(i)) = y(c(i)) + x(i) + x(c(i)) + i
  end do
  x(1) = s*s
  y(1) = y(1)*y(2)
end subroutine terms
",
        adjoint: "subroutine terms_b(n, c, s, s_b, x, x_b, y, y_b)
  implicit none
  integer(kind=4) :: n
  integer(kind=4) :: i
  integer(kind=4) :: c(n)
  integer(kind=8) :: s
  integer(kind=8) :: s_b
  integer(kind=8) :: x(n)
  integer(kind=8) :: x_b(n)
  integer(kind=8) :: y(n)
  integer(kind=8) :: y_b(n)
  integer(kind=4) :: formad_lo1
  integer(kind=4) :: formad_hi1
  integer(kind=4) :: formad_by1
  integer(kind=4) :: formad_k
  integer(kind=4) :: formad_w
  integer(kind=8) :: formad_t
  s = ((s+x(1))-(2*x(2)))+(x(1)*x(2))
  s = (x(1)*x(1))+s
  formad_lo1 = 1
  formad_hi1 = n
  formad_by1 = 1
  call formad_open(max(((formad_hi1-formad_lo1)+formad_by1)/formad_by1, 0))
  !$omp parallel do private(formad_k, formad_w, formad_t) reduction(+: s)
  do i = formad_lo1, formad_hi1, formad_by1
    formad_k = (i-formad_lo1)/formad_by1
    s = ((s-x(i))+(x(i)*x(c(i))))-3
    !$omp atomic
    y(c(i)) = y(c(i))+x(i)+x(c(i))+i
  end do
  call formad_close()
  call formad_push(-1, formad_lo1)
  call formad_push(-1, formad_hi1)
  call formad_push(-1, formad_by1)
  call formad_push(-1, x(1))
  x(1) = s*s
  call formad_push(-1, y(1))
  y(1) = y(1)*y(2)
  formad_t = y_b(1)
  y_b(1) = 0_8
  call formad_pop(-1, y(1))
  y_b(1) = y_b(1)+(formad_t*y(2))
  y_b(2) = y_b(2)+(formad_t*y(1))
  formad_t = x_b(1)
  x_b(1) = 0_8
  call formad_pop(-1, x(1))
  s_b = s_b+(formad_t*s)
  s_b = s_b+(formad_t*s)
  call formad_pop(-1, formad_by1)
  call formad_pop(-1, formad_hi1)
  call formad_pop(-1, formad_lo1)
  call formad_open(-1)
  !$omp parallel do private(formad_k, formad_w, formad_t)
  do i = formad_lo1, formad_hi1, formad_by1
    formad_k = (i-formad_lo1)/formad_by1
    !$omp atomic
    y(c(i)) = y(c(i))-((x(i)+x(c(i)))+i)
    formad_t = y_b(c(i))
    !$omp atomic
    x_b(i) = x_b(i)+formad_t
    !$omp atomic
    x_b(c(i)) = x_b(c(i))+formad_t
    !$omp atomic
    s = s-(((-x(i))+(x(i)*x(c(i))))-3)
    formad_t = s_b
    !$omp atomic
    x_b(i) = x_b(i)-formad_t
    !$omp atomic
    x_b(i) = x_b(i)+(formad_t*x(c(i)))
    !$omp atomic
    x_b(c(i)) = x_b(c(i))+(formad_t*x(i))
  end do
  call formad_close()
  s = s-(x(1)*x(1))
  formad_t = s_b
  x_b(1) = x_b(1)+(formad_t*x(1))
  x_b(1) = x_b(1)+(formad_t*x(1))
  s = ((s-x(1))+(2*x(2)))-(x(1)*x(2))
  formad_t = s_b
  x_b(1) = x_b(1)+formad_t
  x_b(2) = x_b(2)-(formad_t*2)
  x_b(1) = x_b(1)+(formad_t*x(2))
  x_b(2) = x_b(2)+(formad_t*x(1))
end subroutine terms_b
",
    },
    // a time loop that runs down, and a schedule
    Row {
        of: "x",
        wrt: "x,y",
        program: "subroutine times(q, n, x, y)
  integer :: q, n, i, t
  integer(kind=8) :: x(n), y(n)
  do t = q, 1, -1
    !$omp parallel do schedule(dynamic, 2)
    do i = 1, n
      y(i) = y(i)*x(n+1-i) + t
    end do
    !$omp parallel do
    do i = 1, n
      x(i) = x(i) + y(i)*y(i)
    end do
  end do
end subroutine times
",
        adjoint: "subroutine times_b(q, n, x, x_b, y, y_b)
  implicit none
  integer(kind=4) :: q
  integer(kind=4) :: n
  integer(kind=4) :: i
  integer(kind=4) :: t
  integer(kind=8) :: x(n)
  integer(kind=8) :: x_b(n)
  integer(kind=8) :: y(n)
  integer(kind=8) :: y_b(n)
  integer(kind=4) :: formad_lo1
  integer(kind=4) :: formad_hi1
  integer(kind=4) :: formad_by1
  integer(kind=4) :: formad_lo2
  integer(kind=4) :: formad_hi2
  integer(kind=4) :: formad_by2
  integer(kind=4) :: formad_lo3
  integer(kind=4) :: formad_hi3
  integer(kind=4) :: formad_by3
  integer(kind=4) :: formad_k
  integer(kind=4) :: formad_w
  integer(kind=8) :: formad_t
  formad_lo1 = q
  formad_hi1 = 1
  formad_by1 = -1
  do t = formad_lo1, formad_hi1, formad_by1
    formad_lo2 = 1
    formad_hi2 = n
    formad_by2 = 1
    call formad_open(max(((formad_hi2-formad_lo2)+formad_by2)/formad_by2, 0))
    !$omp parallel do private(formad_k, formad_w, formad_t) schedule(dynamic, 2)
    do i = formad_lo2, formad_hi2, formad_by2
      formad_k = (i-formad_lo2)/formad_by2
      call formad_push(formad_k, y(i))
      y(i) = (y(i)*x((n+1)-i))+t
    end do
    call formad_close()
    call formad_push(-1, formad_lo2)
    call formad_push(-1, formad_hi2)
    call formad_push(-1, formad_by2)
    formad_lo3 = 1
    formad_hi3 = n
    formad_by3 = 1
    call formad_open(max(((formad_hi3-formad_lo3)+formad_by3)/formad_by3, 0))
    !$omp parallel do private(formad_k, formad_w, formad_t)
    do i = formad_lo3, formad_hi3, formad_by3
      formad_k = (i-formad_lo3)/formad_by3
      x(i) = x(i)+(y(i)*y(i))
    end do
    call formad_close()
    call formad_push(-1, formad_lo3)
    call formad_push(-1, formad_hi3)
    call formad_push(-1, formad_by3)
  end do
  call formad_push(-1, formad_lo1)
  call formad_push(-1, formad_hi1)
  call formad_push(-1, formad_by1)
  call formad_pop(-1, formad_by1)
  call formad_pop(-1, formad_hi1)
  call formad_pop(-1, formad_lo1)
  do t = formad_lo1+((max(((formad_hi1-formad_lo1)+formad_by1)/formad_by1, 0)-1)*formad_by1), formad_lo1, -formad_by1
    call formad_pop(-1, formad_by3)
    call formad_pop(-1, formad_hi3)
    call formad_pop(-1, formad_lo3)
    call formad_open(-1)
    !$omp parallel do private(formad_k, formad_w, formad_t)
    do i = formad_lo3, formad_hi3, formad_by3
      formad_k = (i-formad_lo3)/formad_by3
      x(i) = x(i)-(y(i)*y(i))
      formad_t = x_b(i)
      !$omp atomic
      y_b(i) = y_b(i)+(formad_t*y(i))
      !$omp atomic
      y_b(i) = y_b(i)+(formad_t*y(i))
    end do
    call formad_close()
    call formad_pop(-1, formad_by2)
    call formad_pop(-1, formad_hi2)
    call formad_pop(-1, formad_lo2)
    call formad_open(-1)
    !$omp parallel do private(formad_k, formad_w, formad_t) schedule(dynamic, 2)
    do i = formad_lo2, formad_hi2, formad_by2
      formad_k = (i-formad_lo2)/formad_by2
      formad_t = y_b(i)
      y_b(i) = 0_8
      call formad_pop(formad_k, y(i))
      !$omp atomic
      y_b(i) = y_b(i)+(formad_t*x((n+1)-i))
      !$omp atomic
      x_b((n+1)-i) = x_b((n+1)-i)+(formad_t*y(i))
    end do
    call formad_close()
  end do
end subroutine times_b
",
    },
];

#[test]
fn nested_statements_are_reversed(rt: HostRuntime) -> Result<(), Fail> {
    for row in &ROWS {
        expect_adjoint(&rt, rt.alloc(), row)?;
    }
    Ok(())
}
