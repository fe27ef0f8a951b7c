//! Arrays in subscripts.

use crate::told::{Row, expect_adjoint};
use std::test::Fail;

static ROWS: [Row; 7] = [
    // an array in the subscripts of both sides
    Row {
        of: "y",
        wrt: "x",
        program: "subroutine scatter(n, c, x, y)
  integer :: n, i, c(n)
  integer(kind=8) :: x(n), y(n)
  !$omp parallel do
  do i = 1, n
    y(c(i)) = x(c(i))*x(c(i))
  end do
end subroutine scatter
",
        adjoint: "subroutine scatter_b(n, c, x, x_b, y, y_b)
  implicit none
  integer(kind=4) :: n
  integer(kind=4) :: i
  integer(kind=4) :: c(n)
  integer(kind=8) :: x(n)
  integer(kind=8) :: x_b(n)
  integer(kind=8) :: y(n)
  integer(kind=8) :: y_b(n)
  integer(kind=4) :: formad_lo1
  integer(kind=4) :: formad_hi1
  integer(kind=4) :: formad_by1
  integer(kind=4) :: formad_k
  integer(kind=4) :: formad_w
  integer(kind=8) :: formad_t
  formad_lo1 = 1
  formad_hi1 = n
  formad_by1 = 1
  call formad_open(max(((formad_hi1-formad_lo1)+formad_by1)/formad_by1, 0))
  !$omp parallel do private(formad_k, formad_w, formad_t)
  do i = formad_lo1, formad_hi1, formad_by1
    formad_k = (i-formad_lo1)/formad_by1
    y(c(i)) = x(c(i))*x(c(i))
  end do
  call formad_close()
  call formad_push(-1, formad_lo1)
  call formad_push(-1, formad_hi1)
  call formad_push(-1, formad_by1)
  call formad_pop(-1, formad_by1)
  call formad_pop(-1, formad_hi1)
  call formad_pop(-1, formad_lo1)
  call formad_open(-1)
  !$omp parallel do private(formad_k, formad_w, formad_t)
  do i = formad_lo1, formad_hi1, formad_by1
    formad_k = (i-formad_lo1)/formad_by1
    formad_t = y_b(c(i))
    y_b(c(i)) = 0_8
    !$omp atomic
    x_b(c(i)) = x_b(c(i))+(formad_t*x(c(i)))
    !$omp atomic
    x_b(c(i)) = x_b(c(i))+(formad_t*x(c(i)))
  end do
  call formad_close()
end subroutine scatter_b
",
    },
    // several iterations may read one place
    Row {
        of: "y",
        wrt: "x",
        program: "subroutine gather(n, p, c, x, y)
  integer :: n, p, i, c(n)
  integer(kind=8) :: x(p), y(n)
  !$omp parallel do
  do i = 1, n
    y(i) = x(c(i))
  end do
end subroutine gather
",
        adjoint: "subroutine gather_b(n, p, c, x, x_b, y, y_b)
  implicit none
  integer(kind=4) :: n
  integer(kind=4) :: p
  integer(kind=4) :: i
  integer(kind=4) :: c(n)
  integer(kind=8) :: x(p)
  integer(kind=8) :: x_b(p)
  integer(kind=8) :: y(n)
  integer(kind=8) :: y_b(n)
  integer(kind=4) :: formad_lo1
  integer(kind=4) :: formad_hi1
  integer(kind=4) :: formad_by1
  integer(kind=4) :: formad_k
  integer(kind=4) :: formad_w
  integer(kind=8) :: formad_t
  formad_lo1 = 1
  formad_hi1 = n
  formad_by1 = 1
  call formad_open(max(((formad_hi1-formad_lo1)+formad_by1)/formad_by1, 0))
  !$omp parallel do private(formad_k, formad_w, formad_t)
  do i = formad_lo1, formad_hi1, formad_by1
    formad_k = (i-formad_lo1)/formad_by1
    y(i) = x(c(i))
  end do
  call formad_close()
  call formad_push(-1, formad_lo1)
  call formad_push(-1, formad_hi1)
  call formad_push(-1, formad_by1)
  call formad_pop(-1, formad_by1)
  call formad_pop(-1, formad_hi1)
  call formad_pop(-1, formad_lo1)
  call formad_open(-1)
  !$omp parallel do private(formad_k, formad_w, formad_t)
  do i = formad_lo1, formad_hi1, formad_by1
    formad_k = (i-formad_lo1)/formad_by1
    formad_t = y_b(i)
    y_b(i) = 0_8
    !$omp atomic
    x_b(c(i)) = x_b(c(i))+formad_t
  end do
  call formad_close()
end subroutine gather_b
",
    },
    // an array in a subscript of an array
    Row {
        of: "y",
        wrt: "x",
        program: "subroutine compose(n, c, d, x, y)
  integer :: n, i, c(n), d(n)
  integer(kind=8) :: x(n), y(n)
  !$omp parallel do
  do i = 1, n
    y(d(c(i))) = x(c(i))
  end do
end subroutine compose
",
        adjoint: "subroutine compose_b(n, c, d, x, x_b, y, y_b)
  implicit none
  integer(kind=4) :: n
  integer(kind=4) :: i
  integer(kind=4) :: c(n)
  integer(kind=4) :: d(n)
  integer(kind=8) :: x(n)
  integer(kind=8) :: x_b(n)
  integer(kind=8) :: y(n)
  integer(kind=8) :: y_b(n)
  integer(kind=4) :: formad_lo1
  integer(kind=4) :: formad_hi1
  integer(kind=4) :: formad_by1
  integer(kind=4) :: formad_k
  integer(kind=4) :: formad_w
  integer(kind=8) :: formad_t
  formad_lo1 = 1
  formad_hi1 = n
  formad_by1 = 1
  call formad_open(max(((formad_hi1-formad_lo1)+formad_by1)/formad_by1, 0))
  !$omp parallel do private(formad_k, formad_w, formad_t)
  do i = formad_lo1, formad_hi1, formad_by1
    formad_k = (i-formad_lo1)/formad_by1
    y(d(c(i))) = x(c(i))
  end do
  call formad_close()
  call formad_push(-1, formad_lo1)
  call formad_push(-1, formad_hi1)
  call formad_push(-1, formad_by1)
  call formad_pop(-1, formad_by1)
  call formad_pop(-1, formad_hi1)
  call formad_pop(-1, formad_lo1)
  call formad_open(-1)
  !$omp parallel do private(formad_k, formad_w, formad_t)
  do i = formad_lo1, formad_hi1, formad_by1
    formad_k = (i-formad_lo1)/formad_by1
    formad_t = y_b(d(c(i)))
    y_b(d(c(i))) = 0_8
    !$omp atomic
    x_b(c(i)) = x_b(c(i))+formad_t
  end do
  call formad_close()
end subroutine compose_b
",
    },
    // an assignment in an arm alone
    Row {
        of: "w",
        wrt: "z",
        program: "subroutine path(n, m, p, z, w, y)
  integer :: n, i, m(n), p(n)
  integer(kind=8) :: z(n), w(n), y(n)
  !$omp parallel do
  do i = 1, n
    if (m(i) > 0) y(p(i)) = 1
    w(i) = z(p(i))
  end do
end subroutine path
",
        adjoint: "subroutine path_b(n, m, p, z, z_b, w, w_b, y)
  implicit none
  integer(kind=4) :: n
  integer(kind=4) :: i
  integer(kind=4) :: m(n)
  integer(kind=4) :: p(n)
  integer(kind=8) :: z(n)
  integer(kind=8) :: z_b(n)
  integer(kind=8) :: w(n)
  integer(kind=8) :: w_b(n)
  integer(kind=8) :: y(n)
  integer(kind=4) :: formad_lo1
  integer(kind=4) :: formad_hi1
  integer(kind=4) :: formad_by1
  integer(kind=4) :: formad_k
  integer(kind=4) :: formad_w
  integer(kind=8) :: formad_t
  formad_lo1 = 1
  formad_hi1 = n
  formad_by1 = 1
  call formad_open(max(((formad_hi1-formad_lo1)+formad_by1)/formad_by1, 0))
  !$omp parallel do private(formad_k, formad_w, formad_t)
  do i = formad_lo1, formad_hi1, formad_by1
    formad_k = (i-formad_lo1)/formad_by1
    if (m(i) > 0) then
      y(p(i)) = 1
      call formad_push(formad_k, 0)
    else
      call formad_push(formad_k, 1)
    end if
    w(i) = z(p(i))
  end do
  call formad_close()
  call formad_push(-1, formad_lo1)
  call formad_push(-1, formad_hi1)
  call formad_push(-1, formad_by1)
  call formad_pop(-1, formad_by1)
  call formad_pop(-1, formad_hi1)
  call formad_pop(-1, formad_lo1)
  call formad_open(-1)
  !$omp parallel do private(formad_k, formad_w, formad_t)
  do i = formad_lo1, formad_hi1, formad_by1
    formad_k = (i-formad_lo1)/formad_by1
    formad_t = w_b(i)
    w_b(i) = 0_8
    !$omp atomic
    z_b(p(i)) = z_b(p(i))+formad_t
    call formad_pop(formad_k, formad_w)
    if (formad_w == 0) then
    end if
  end do
  call formad_close()
end subroutine path_b
",
    },
    // a private index that is assigned twice
    Row {
        of: "w",
        wrt: "z",
        program: "subroutine version(n, b, c, z, w, y)
  integer :: n, i, k, b(n), c(n)
  integer(kind=8) :: z(n), w(n), y(n)
  !$omp parallel do private(k)
  do i = 1, n
    k = c(i)
    y(k) = 1
    k = b(i)
    w(i) = z(k)
  end do
end subroutine version
",
        adjoint: "subroutine version_b(n, b, c, z, z_b, w, w_b, y)
  implicit none
  integer(kind=4) :: n
  integer(kind=4) :: i
  integer(kind=4) :: k
  integer(kind=4) :: b(n)
  integer(kind=4) :: c(n)
  integer(kind=8) :: z(n)
  integer(kind=8) :: z_b(n)
  integer(kind=8) :: w(n)
  integer(kind=8) :: w_b(n)
  integer(kind=8) :: y(n)
  integer(kind=4) :: formad_lo1
  integer(kind=4) :: formad_hi1
  integer(kind=4) :: formad_by1
  integer(kind=4) :: formad_k
  integer(kind=4) :: formad_w
  integer(kind=8) :: formad_t
  formad_lo1 = 1
  formad_hi1 = n
  formad_by1 = 1
  call formad_open(max(((formad_hi1-formad_lo1)+formad_by1)/formad_by1, 0))
  !$omp parallel do private(k, formad_k, formad_w, formad_t)
  do i = formad_lo1, formad_hi1, formad_by1
    formad_k = (i-formad_lo1)/formad_by1
    k = 0
    call formad_push(formad_k, k)
    k = c(i)
    y(k) = 1
    call formad_push(formad_k, k)
    k = b(i)
    w(i) = z(k)
    call formad_push(formad_k, k)
  end do
  call formad_close()
  call formad_push(-1, formad_lo1)
  call formad_push(-1, formad_hi1)
  call formad_push(-1, formad_by1)
  call formad_pop(-1, formad_by1)
  call formad_pop(-1, formad_hi1)
  call formad_pop(-1, formad_lo1)
  call formad_open(-1)
  !$omp parallel do private(k, formad_k, formad_w, formad_t)
  do i = formad_lo1, formad_hi1, formad_by1
    formad_k = (i-formad_lo1)/formad_by1
    call formad_pop(formad_k, k)
    formad_t = w_b(i)
    w_b(i) = 0_8
    !$omp atomic
    z_b(k) = z_b(k)+formad_t
    call formad_pop(formad_k, k)
    call formad_pop(formad_k, k)
  end do
  call formad_close()
end subroutine version_b
",
    },
    // a multiple of an element as subscript
    Row {
        of: "y",
        wrt: "x",
        program: "subroutine doubled(n, c, x, y)
  integer :: n, i, c(n)
  integer(kind=8) :: x(n), y(2*n)
  !$omp parallel do
  do i = 1, n
    y(2*c(i)) = x(c(i))
  end do
end subroutine doubled
",
        adjoint: "subroutine doubled_b(n, c, x, x_b, y, y_b)
  implicit none
  integer(kind=4) :: n
  integer(kind=4) :: i
  integer(kind=4) :: c(n)
  integer(kind=8) :: x(n)
  integer(kind=8) :: x_b(n)
  integer(kind=8) :: y(2*n)
  integer(kind=8) :: y_b(2*n)
  integer(kind=4) :: formad_lo1
  integer(kind=4) :: formad_hi1
  integer(kind=4) :: formad_by1
  integer(kind=4) :: formad_k
  integer(kind=4) :: formad_w
  integer(kind=8) :: formad_t
  formad_lo1 = 1
  formad_hi1 = n
  formad_by1 = 1
  call formad_open(max(((formad_hi1-formad_lo1)+formad_by1)/formad_by1, 0))
  !$omp parallel do private(formad_k, formad_w, formad_t)
  do i = formad_lo1, formad_hi1, formad_by1
    formad_k = (i-formad_lo1)/formad_by1
    y(2*c(i)) = x(c(i))
  end do
  call formad_close()
  call formad_push(-1, formad_lo1)
  call formad_push(-1, formad_hi1)
  call formad_push(-1, formad_by1)
  call formad_pop(-1, formad_by1)
  call formad_pop(-1, formad_hi1)
  call formad_pop(-1, formad_lo1)
  call formad_open(-1)
  !$omp parallel do private(formad_k, formad_w, formad_t)
  do i = formad_lo1, formad_hi1, formad_by1
    formad_k = (i-formad_lo1)/formad_by1
    formad_t = y_b(2*c(i))
    y_b(2*c(i)) = 0_8
    !$omp atomic
    x_b(c(i)) = x_b(c(i))+formad_t
  end do
  call formad_close()
end subroutine doubled_b
",
    },
    // an atomic increment by a square
    Row {
        of: "y",
        wrt: "x",
        program: "subroutine tally(n, c, x, y)
  integer :: n, i, c(n)
  integer(kind=8) :: x(n), y(n)
  !$omp parallel do
  do i = 1, n
    !$omp atomic
    y(c(i)) = y(c(i)) + x(i)*x(i)
  end do
end subroutine tally
",
        adjoint: "subroutine tally_b(n, c, x, x_b, y, y_b)
  implicit none
  integer(kind=4) :: n
  integer(kind=4) :: i
  integer(kind=4) :: c(n)
  integer(kind=8) :: x(n)
  integer(kind=8) :: x_b(n)
  integer(kind=8) :: y(n)
  integer(kind=8) :: y_b(n)
  integer(kind=4) :: formad_lo1
  integer(kind=4) :: formad_hi1
  integer(kind=4) :: formad_by1
  integer(kind=4) :: formad_k
  integer(kind=4) :: formad_w
  integer(kind=8) :: formad_t
  formad_lo1 = 1
  formad_hi1 = n
  formad_by1 = 1
  call formad_open(max(((formad_hi1-formad_lo1)+formad_by1)/formad_by1, 0))
  !$omp parallel do private(formad_k, formad_w, formad_t)
  do i = formad_lo1, formad_hi1, formad_by1
    formad_k = (i-formad_lo1)/formad_by1
    !$omp atomic
    y(c(i)) = y(c(i))+(x(i)*x(i))
  end do
  call formad_close()
  call formad_push(-1, formad_lo1)
  call formad_push(-1, formad_hi1)
  call formad_push(-1, formad_by1)
  call formad_pop(-1, formad_by1)
  call formad_pop(-1, formad_hi1)
  call formad_pop(-1, formad_lo1)
  call formad_open(-1)
  !$omp parallel do private(formad_k, formad_w, formad_t)
  do i = formad_lo1, formad_hi1, formad_by1
    formad_k = (i-formad_lo1)/formad_by1
    formad_t = y_b(c(i))
    !$omp atomic
    x_b(i) = x_b(i)+(formad_t*x(i))
    !$omp atomic
    x_b(i) = x_b(i)+(formad_t*x(i))
  end do
  call formad_close()
end subroutine tally_b
",
    },
];

#[test]
fn gathers_are_reversed(rt: HostRuntime) -> Result<(), Fail> {
    for row in &ROWS {
        expect_adjoint(&rt, rt.alloc(), row)?;
    }
    Ok(())
}
