//! Places by the loop's own variable, and scalars.

use crate::told::{Row, expect_adjoint};
use std::test::Fail;

static ROWS: [Row; 5] = [
    // a scalar that the loop reads alone
    Row {
        of: "y",
        wrt: "a,x",
        program: "subroutine scale(n, a, x, y)
  integer :: n, i
  integer(kind=8) :: a, x(n), y(n)
  !$omp parallel do
  do i = 1, n
    y(i) = a*x(i)
  end do
end subroutine scale
",
        adjoint: "subroutine scale_b(n, a, a_b, x, x_b, y, y_b)
  implicit none
  integer(kind=4) :: n
  integer(kind=4) :: i
  integer(kind=8) :: a
  integer(kind=8) :: a_b
  integer(kind=8) :: x(n)
  integer(kind=8) :: x_b(n)
  integer(kind=8) :: y(n)
  integer(kind=8) :: y_b(n)
  integer(kind=4) :: formad_lo1
  integer(kind=4) :: formad_hi1
  integer(kind=4) :: formad_by1
  integer(kind=4) :: formad_k
  integer(kind=4) :: formad_w
  integer(kind=8) :: formad_t
  formad_lo1 = 1
  formad_hi1 = n
  formad_by1 = 1
  call formad_open(max(((formad_hi1-formad_lo1)+formad_by1)/formad_by1, 0))
  !$omp parallel do private(formad_k, formad_w, formad_t)
  do i = formad_lo1, formad_hi1, formad_by1
    formad_k = (i-formad_lo1)/formad_by1
    y(i) = a*x(i)
  end do
  call formad_close()
  call formad_push(-1, formad_lo1)
  call formad_push(-1, formad_hi1)
  call formad_push(-1, formad_by1)
  call formad_pop(-1, formad_by1)
  call formad_pop(-1, formad_hi1)
  call formad_pop(-1, formad_lo1)
  call formad_open(-1)
  !$omp parallel do private(formad_k, formad_w, formad_t) reduction(+: a_b)
  do i = formad_lo1, formad_hi1, formad_by1
    formad_k = (i-formad_lo1)/formad_by1
    formad_t = y_b(i)
    y_b(i) = 0_8
    a_b = a_b+(formad_t*x(i))
    !$omp atomic
    x_b(i) = x_b(i)+(formad_t*a)
  end do
  call formad_close()
end subroutine scale_b
",
    },
    // fewer places than iterations
    Row {
        of: "y",
        wrt: "x",
        program: "subroutine copy(n, x, y)
  integer :: n, i
  integer(kind=8) :: x(n), y(3)
  !$omp parallel do
  do i = 1, n
    y(i) = x(i)
  end do
end subroutine copy
",
        adjoint: "subroutine copy_b(n, x, x_b, y, y_b)
  implicit none
  integer(kind=4) :: n
  integer(kind=4) :: i
  integer(kind=8) :: x(n)
  integer(kind=8) :: x_b(n)
  integer(kind=8) :: y(3)
  integer(kind=8) :: y_b(3)
  integer(kind=4) :: formad_lo1
  integer(kind=4) :: formad_hi1
  integer(kind=4) :: formad_by1
  integer(kind=4) :: formad_k
  integer(kind=4) :: formad_w
  integer(kind=8) :: formad_t
  formad_lo1 = 1
  formad_hi1 = n
  formad_by1 = 1
  call formad_open(max(((formad_hi1-formad_lo1)+formad_by1)/formad_by1, 0))
  !$omp parallel do private(formad_k, formad_w, formad_t)
  do i = formad_lo1, formad_hi1, formad_by1
    formad_k = (i-formad_lo1)/formad_by1
    y(i) = x(i)
  end do
  call formad_close()
  call formad_push(-1, formad_lo1)
  call formad_push(-1, formad_hi1)
  call formad_push(-1, formad_by1)
  call formad_pop(-1, formad_by1)
  call formad_pop(-1, formad_hi1)
  call formad_pop(-1, formad_lo1)
  call formad_open(-1)
  !$omp parallel do private(formad_k, formad_w, formad_t)
  do i = formad_lo1, formad_hi1, formad_by1
    formad_k = (i-formad_lo1)/formad_by1
    formad_t = y_b(i)
    y_b(i) = 0_8
    !$omp atomic
    x_b(i) = x_b(i)+formad_t
  end do
  call formad_close()
end subroutine copy_b
",
    },
    // each element by itself
    Row {
        of: "y",
        wrt: "x",
        program: "subroutine pass(n, x, y)
  integer :: n, i
  integer(kind=8) :: x(n), y(n)
  !$omp parallel do
  do i = 1, n
    y(i) = x(i)
  end do
end subroutine pass
",
        adjoint: "subroutine pass_b(n, x, x_b, y, y_b)
  implicit none
  integer(kind=4) :: n
  integer(kind=4) :: i
  integer(kind=8) :: x(n)
  integer(kind=8) :: x_b(n)
  integer(kind=8) :: y(n)
  integer(kind=8) :: y_b(n)
  integer(kind=4) :: formad_lo1
  integer(kind=4) :: formad_hi1
  integer(kind=4) :: formad_by1
  integer(kind=4) :: formad_k
  integer(kind=4) :: formad_w
  integer(kind=8) :: formad_t
  formad_lo1 = 1
  formad_hi1 = n
  formad_by1 = 1
  call formad_open(max(((formad_hi1-formad_lo1)+formad_by1)/formad_by1, 0))
  !$omp parallel do private(formad_k, formad_w, formad_t)
  do i = formad_lo1, formad_hi1, formad_by1
    formad_k = (i-formad_lo1)/formad_by1
    y(i) = x(i)
  end do
  call formad_close()
  call formad_push(-1, formad_lo1)
  call formad_push(-1, formad_hi1)
  call formad_push(-1, formad_by1)
  call formad_pop(-1, formad_by1)
  call formad_pop(-1, formad_hi1)
  call formad_pop(-1, formad_lo1)
  call formad_open(-1)
  !$omp parallel do private(formad_k, formad_w, formad_t)
  do i = formad_lo1, formad_hi1, formad_by1
    formad_k = (i-formad_lo1)/formad_by1
    formad_t = y_b(i)
    y_b(i) = 0_8
    !$omp atomic
    x_b(i) = x_b(i)+formad_t
  end do
  call formad_close()
end subroutine pass_b
",
    },
    // a private name that is read before it is set
    Row {
        of: "y",
        wrt: "x",
        program: "subroutine unset(n, x, y)
  integer :: n, i
  integer(kind=8) :: x(n), y(n), t
  !$omp parallel do private(t)
  do i = 1, n
    y(i) = t
    t = x(i)
  end do
end subroutine unset
",
        adjoint: "subroutine unset_b(n, x, x_b, y, y_b)
  implicit none
  integer(kind=4) :: n
  integer(kind=4) :: i
  integer(kind=8) :: x(n)
  integer(kind=8) :: x_b(n)
  integer(kind=8) :: y(n)
  integer(kind=8) :: y_b(n)
  integer(kind=8) :: t
  integer(kind=8) :: t_b
  integer(kind=4) :: formad_lo1
  integer(kind=4) :: formad_hi1
  integer(kind=4) :: formad_by1
  integer(kind=4) :: formad_k
  integer(kind=4) :: formad_w
  integer(kind=8) :: formad_t
  formad_lo1 = 1
  formad_hi1 = n
  formad_by1 = 1
  call formad_open(max(((formad_hi1-formad_lo1)+formad_by1)/formad_by1, 0))
  !$omp parallel do private(t, t_b, formad_k, formad_w, formad_t)
  do i = formad_lo1, formad_hi1, formad_by1
    formad_k = (i-formad_lo1)/formad_by1
    t = 0_8
    y(i) = t
    t = x(i)
  end do
  call formad_close()
  call formad_push(-1, formad_lo1)
  call formad_push(-1, formad_hi1)
  call formad_push(-1, formad_by1)
  call formad_pop(-1, formad_by1)
  call formad_pop(-1, formad_hi1)
  call formad_pop(-1, formad_lo1)
  call formad_open(-1)
  !$omp parallel do private(t, t_b, formad_k, formad_w, formad_t)
  do i = formad_lo1, formad_hi1, formad_by1
    formad_k = (i-formad_lo1)/formad_by1
    t_b = 0_8
    formad_t = t_b
    t_b = 0_8
    !$omp atomic
    x_b(i) = x_b(i)+formad_t
    formad_t = y_b(i)
    y_b(i) = 0_8
    t_b = t_b+formad_t
  end do
  call formad_close()
end subroutine unset_b
",
    },
    // private scalars that depend on each other, and one that is firstprivate
    Row {
        of: "y",
        wrt: "a,x",
        program: "subroutine private(n, a, x, y)
  integer :: n, i, k
  integer(kind=8) :: a, x(n), y(n), t, u
  !$omp parallel do private(t, u, k) firstprivate(a)
  do i = 1, n
    k = n + 1 - i
    t = a*x(k)
    u = t*t + t
    t = u - a
    y(k) = t*u
  end do
end subroutine private
",
        adjoint: "subroutine private_b(n, a, a_b, x, x_b, y, y_b)
  implicit none
  integer(kind=4) :: n
  integer(kind=4) :: i
  integer(kind=4) :: k
  integer(kind=8) :: a
  integer(kind=8) :: a_b
  integer(kind=8) :: x(n)
  integer(kind=8) :: x_b(n)
  integer(kind=8) :: y(n)
  integer(kind=8) :: y_b(n)
  integer(kind=8) :: t
  integer(kind=8) :: t_b
  integer(kind=8) :: u
  integer(kind=8) :: u_b
  integer(kind=4) :: formad_lo1
  integer(kind=4) :: formad_hi1
  integer(kind=4) :: formad_by1
  integer(kind=4) :: formad_k
  integer(kind=4) :: formad_w
  integer(kind=8) :: formad_t
  formad_lo1 = 1
  formad_hi1 = n
  formad_by1 = 1
  call formad_open(max(((formad_hi1-formad_lo1)+formad_by1)/formad_by1, 0))
  !$omp parallel do private(k, t, t_b, u, u_b, formad_k, formad_w, formad_t) firstprivate(a)
  do i = formad_lo1, formad_hi1, formad_by1
    formad_k = (i-formad_lo1)/formad_by1
    k = 0
    t = 0_8
    u = 0_8
    call formad_push(formad_k, k)
    k = (n+1)-i
    call formad_push(formad_k, t)
    t = a*x(k)
    call formad_push(formad_k, u)
    u = (t*t)+t
    call formad_push(formad_k, t)
    t = u-a
    y(k) = t*u
    call formad_push(formad_k, k)
    call formad_push(formad_k, t)
    call formad_push(formad_k, u)
  end do
  call formad_close()
  call formad_push(-1, formad_lo1)
  call formad_push(-1, formad_hi1)
  call formad_push(-1, formad_by1)
  call formad_pop(-1, formad_by1)
  call formad_pop(-1, formad_hi1)
  call formad_pop(-1, formad_lo1)
  call formad_open(-1)
  !$omp parallel do private(k, t, t_b, u, u_b, formad_k, formad_w, formad_t) firstprivate(a) reduction(+: a_b)
  do i = formad_lo1, formad_hi1, formad_by1
    formad_k = (i-formad_lo1)/formad_by1
    call formad_pop(formad_k, u)
    call formad_pop(formad_k, t)
    call formad_pop(formad_k, k)
    t_b = 0_8
    u_b = 0_8
    formad_t = y_b(k)
    y_b(k) = 0_8
    t_b = t_b+(formad_t*u)
    u_b = u_b+(formad_t*t)
    formad_t = t_b
    t_b = 0_8
    call formad_pop(formad_k, t)
    u_b = u_b+formad_t
    a_b = a_b-formad_t
    formad_t = u_b
    u_b = 0_8
    call formad_pop(formad_k, u)
    t_b = t_b+(formad_t*t)
    t_b = t_b+(formad_t*t)
    t_b = t_b+formad_t
    formad_t = t_b
    t_b = 0_8
    call formad_pop(formad_k, t)
    a_b = a_b+(formad_t*x(k))
    !$omp atomic
    x_b(k) = x_b(k)+(formad_t*a)
    call formad_pop(formad_k, k)
  end do
  call formad_close()
end subroutine private_b
",
    },
];

#[test]
fn places_are_reversed(rt: HostRuntime) -> Result<(), Fail> {
    for row in &ROWS {
        expect_adjoint(&rt, rt.alloc(), row)?;
    }
    Ok(())
}
