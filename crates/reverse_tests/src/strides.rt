//! Subscripts that are sums.

use crate::told::{Row, expect_adjoint};
use std::test::Fail;

static ROWS: [Row; 7] = [
    // two neighbours
    Row {
        of: "y",
        wrt: "x",
        program: "subroutine stencil(n, x, y)
  integer :: n, i
  integer(kind=8) :: x(n), y(n)
  !$omp parallel do
  do i = 2, n-1
    y(i) = x(i-1) + x(i+1)
  end do
end subroutine stencil
",
        adjoint: "subroutine stencil_b(n, x, x_b, y, y_b)
  implicit none
  integer(kind=4) :: n
  integer(kind=4) :: i
  integer(kind=8) :: x(n)
  integer(kind=8) :: x_b(n)
  integer(kind=8) :: y(n)
  integer(kind=8) :: y_b(n)
  integer(kind=4) :: formad_lo1
  integer(kind=4) :: formad_hi1
  integer(kind=4) :: formad_by1
  integer(kind=4) :: formad_k
  integer(kind=4) :: formad_w
  integer(kind=8) :: formad_t
  formad_lo1 = 2
  formad_hi1 = n-1
  formad_by1 = 1
  call formad_open(max(((formad_hi1-formad_lo1)+formad_by1)/formad_by1, 0))
  !$omp parallel do private(formad_k, formad_w, formad_t)
  do i = formad_lo1, formad_hi1, formad_by1
    formad_k = (i-formad_lo1)/formad_by1
    y(i) = x(i-1)+x(i+1)
  end do
  call formad_close()
  call formad_push(-1, formad_lo1)
  call formad_push(-1, formad_hi1)
  call formad_push(-1, formad_by1)
  call formad_pop(-1, formad_by1)
  call formad_pop(-1, formad_hi1)
  call formad_pop(-1, formad_lo1)
  call formad_open(-1)
  !$omp parallel do private(formad_k, formad_w, formad_t)
  do i = formad_lo1, formad_hi1, formad_by1
    formad_k = (i-formad_lo1)/formad_by1
    formad_t = y_b(i)
    y_b(i) = 0_8
    !$omp atomic
    x_b(i-1) = x_b(i-1)+formad_t
    !$omp atomic
    x_b(i+1) = x_b(i+1)+formad_t
  end do
  call formad_close()
end subroutine stencil_b
",
    },
    // a step of two, with neighbours that meet no other iteration
    Row {
        of: "y",
        wrt: "x",
        program: "subroutine stride(n, x, y)
  integer :: n, i
  integer(kind=8) :: x(n), y(n)
  !$omp parallel do
  do i = 1, n, 2
    y(i) = x(i)*x(i+1)
  end do
end subroutine stride
",
        adjoint: "subroutine stride_b(n, x, x_b, y, y_b)
  implicit none
  integer(kind=4) :: n
  integer(kind=4) :: i
  integer(kind=8) :: x(n)
  integer(kind=8) :: x_b(n)
  integer(kind=8) :: y(n)
  integer(kind=8) :: y_b(n)
  integer(kind=4) :: formad_lo1
  integer(kind=4) :: formad_hi1
  integer(kind=4) :: formad_by1
  integer(kind=4) :: formad_k
  integer(kind=4) :: formad_w
  integer(kind=8) :: formad_t
  formad_lo1 = 1
  formad_hi1 = n
  formad_by1 = 2
  call formad_open(max(((formad_hi1-formad_lo1)+formad_by1)/formad_by1, 0))
  !$omp parallel do private(formad_k, formad_w, formad_t)
  do i = formad_lo1, formad_hi1, formad_by1
    formad_k = (i-formad_lo1)/formad_by1
    y(i) = x(i)*x(i+1)
  end do
  call formad_close()
  call formad_push(-1, formad_lo1)
  call formad_push(-1, formad_hi1)
  call formad_push(-1, formad_by1)
  call formad_pop(-1, formad_by1)
  call formad_pop(-1, formad_hi1)
  call formad_pop(-1, formad_lo1)
  call formad_open(-1)
  !$omp parallel do private(formad_k, formad_w, formad_t)
  do i = formad_lo1, formad_hi1, formad_by1
    formad_k = (i-formad_lo1)/formad_by1
    formad_t = y_b(i)
    y_b(i) = 0_8
    !$omp atomic
    x_b(i) = x_b(i)+(formad_t*x(i+1))
    !$omp atomic
    x_b(i+1) = x_b(i+1)+(formad_t*x(i))
  end do
  call formad_close()
end subroutine stride_b
",
    },
    // a step of two, with neighbours that meet others
    Row {
        of: "y",
        wrt: "x",
        program: "subroutine stride2(n, x, y)
  integer :: n, i
  integer(kind=8) :: x(n+2), y(n)
  !$omp parallel do
  do i = 1, n, 2
    y(i) = x(i)*x(i+2)
  end do
end subroutine stride2
",
        adjoint: "subroutine stride2_b(n, x, x_b, y, y_b)
  implicit none
  integer(kind=4) :: n
  integer(kind=4) :: i
  integer(kind=8) :: x(n+2)
  integer(kind=8) :: x_b(n+2)
  integer(kind=8) :: y(n)
  integer(kind=8) :: y_b(n)
  integer(kind=4) :: formad_lo1
  integer(kind=4) :: formad_hi1
  integer(kind=4) :: formad_by1
  integer(kind=4) :: formad_k
  integer(kind=4) :: formad_w
  integer(kind=8) :: formad_t
  formad_lo1 = 1
  formad_hi1 = n
  formad_by1 = 2
  call formad_open(max(((formad_hi1-formad_lo1)+formad_by1)/formad_by1, 0))
  !$omp parallel do private(formad_k, formad_w, formad_t)
  do i = formad_lo1, formad_hi1, formad_by1
    formad_k = (i-formad_lo1)/formad_by1
    y(i) = x(i)*x(i+2)
  end do
  call formad_close()
  call formad_push(-1, formad_lo1)
  call formad_push(-1, formad_hi1)
  call formad_push(-1, formad_by1)
  call formad_pop(-1, formad_by1)
  call formad_pop(-1, formad_hi1)
  call formad_pop(-1, formad_lo1)
  call formad_open(-1)
  !$omp parallel do private(formad_k, formad_w, formad_t)
  do i = formad_lo1, formad_hi1, formad_by1
    formad_k = (i-formad_lo1)/formad_by1
    formad_t = y_b(i)
    y_b(i) = 0_8
    !$omp atomic
    x_b(i) = x_b(i)+(formad_t*x(i+2))
    !$omp atomic
    x_b(i+2) = x_b(i+2)+(formad_t*x(i))
  end do
  call formad_close()
end subroutine stride2_b
",
    },
    // a sequential loop in a parallel one
    Row {
        of: "s",
        wrt: "x",
        program: "subroutine block(n, s, x)
  integer :: n, i, j
  integer(kind=8) :: s(n), x(4*n)
  !$omp parallel do
  do i = 1, n
    do j = 1, 4
      s(i) = s(i) + x(4*(i-1)+j)
    end do
  end do
end subroutine block
",
        adjoint: "subroutine block_b(n, s, s_b, x, x_b)
  implicit none
  integer(kind=4) :: n
  integer(kind=4) :: i
  integer(kind=4) :: j
  integer(kind=8) :: s(n)
  integer(kind=8) :: s_b(n)
  integer(kind=8) :: x(4*n)
  integer(kind=8) :: x_b(4*n)
  integer(kind=4) :: formad_lo1
  integer(kind=4) :: formad_hi1
  integer(kind=4) :: formad_by1
  integer(kind=4) :: formad_lo2
  integer(kind=4) :: formad_hi2
  integer(kind=4) :: formad_by2
  integer(kind=4) :: formad_k
  integer(kind=4) :: formad_w
  integer(kind=8) :: formad_t
  formad_lo1 = 1
  formad_hi1 = n
  formad_by1 = 1
  call formad_open(max(((formad_hi1-formad_lo1)+formad_by1)/formad_by1, 0))
  !$omp parallel do private(j, formad_lo2, formad_hi2, formad_by2, formad_k, formad_w, formad_t)
  do i = formad_lo1, formad_hi1, formad_by1
    formad_k = (i-formad_lo1)/formad_by1
    formad_lo2 = 1
    formad_hi2 = 4
    formad_by2 = 1
    do j = formad_lo2, formad_hi2, formad_by2
      s(i) = s(i)+x((4*(i-1))+j)
    end do
    call formad_push(formad_k, formad_lo2)
    call formad_push(formad_k, formad_hi2)
    call formad_push(formad_k, formad_by2)
  end do
  call formad_close()
  call formad_push(-1, formad_lo1)
  call formad_push(-1, formad_hi1)
  call formad_push(-1, formad_by1)
  call formad_pop(-1, formad_by1)
  call formad_pop(-1, formad_hi1)
  call formad_pop(-1, formad_lo1)
  call formad_open(-1)
  !$omp parallel do private(j, formad_lo2, formad_hi2, formad_by2, formad_k, formad_w, formad_t)
  do i = formad_lo1, formad_hi1, formad_by1
    formad_k = (i-formad_lo1)/formad_by1
    call formad_pop(formad_k, formad_by2)
    call formad_pop(formad_k, formad_hi2)
    call formad_pop(formad_k, formad_lo2)
    do j = formad_lo2+((max(((formad_hi2-formad_lo2)+formad_by2)/formad_by2, 0)-1)*formad_by2), formad_lo2, -formad_by2
      formad_t = s_b(i)
      !$omp atomic
      x_b((4*(i-1))+j) = x_b((4*(i-1))+j)+formad_t
    end do
  end do
  call formad_close()
end subroutine block_b
",
    },
    // the same, where neighbours share a place
    Row {
        of: "s",
        wrt: "x",
        program: "subroutine block5(n, s, x)
  integer :: n, i, j
  integer(kind=8) :: s(n), x(4*n+1)
  !$omp parallel do
  do i = 1, n
    do j = 1, 5
      s(i) = s(i) + x(4*(i-1)+j)
    end do
  end do
end subroutine block5
",
        adjoint: "subroutine block5_b(n, s, s_b, x, x_b)
  implicit none
  integer(kind=4) :: n
  integer(kind=4) :: i
  integer(kind=4) :: j
  integer(kind=8) :: s(n)
  integer(kind=8) :: s_b(n)
  integer(kind=8) :: x(4*n+1)
  integer(kind=8) :: x_b(4*n+1)
  integer(kind=4) :: formad_lo1
  integer(kind=4) :: formad_hi1
  integer(kind=4) :: formad_by1
  integer(kind=4) :: formad_lo2
  integer(kind=4) :: formad_hi2
  integer(kind=4) :: formad_by2
  integer(kind=4) :: formad_k
  integer(kind=4) :: formad_w
  integer(kind=8) :: formad_t
  formad_lo1 = 1
  formad_hi1 = n
  formad_by1 = 1
  call formad_open(max(((formad_hi1-formad_lo1)+formad_by1)/formad_by1, 0))
  !$omp parallel do private(j, formad_lo2, formad_hi2, formad_by2, formad_k, formad_w, formad_t)
  do i = formad_lo1, formad_hi1, formad_by1
    formad_k = (i-formad_lo1)/formad_by1
    formad_lo2 = 1
    formad_hi2 = 5
    formad_by2 = 1
    do j = formad_lo2, formad_hi2, formad_by2
      s(i) = s(i)+x((4*(i-1))+j)
    end do
    call formad_push(formad_k, formad_lo2)
    call formad_push(formad_k, formad_hi2)
    call formad_push(formad_k, formad_by2)
  end do
  call formad_close()
  call formad_push(-1, formad_lo1)
  call formad_push(-1, formad_hi1)
  call formad_push(-1, formad_by1)
  call formad_pop(-1, formad_by1)
  call formad_pop(-1, formad_hi1)
  call formad_pop(-1, formad_lo1)
  call formad_open(-1)
  !$omp parallel do private(j, formad_lo2, formad_hi2, formad_by2, formad_k, formad_w, formad_t)
  do i = formad_lo1, formad_hi1, formad_by1
    formad_k = (i-formad_lo1)/formad_by1
    call formad_pop(formad_k, formad_by2)
    call formad_pop(formad_k, formad_hi2)
    call formad_pop(formad_k, formad_lo2)
    do j = formad_lo2+((max(((formad_hi2-formad_lo2)+formad_by2)/formad_by2, 0)-1)*formad_by2), formad_lo2, -formad_by2
      formad_t = s_b(i)
      !$omp atomic
      x_b((4*(i-1))+j) = x_b((4*(i-1))+j)+formad_t
    end do
  end do
  call formad_close()
end subroutine block5_b
",
    },
    // two loops collapsed
    Row {
        of: "y",
        wrt: "x",
        program: "subroutine lin(n, x, y)
  integer :: n, i, j
  integer(kind=8) :: x(4*n), y(n,4)
  !$omp parallel do collapse(2)
  do i = 1, n
    do j = 1, 4
      y(i,j) = x(4*(i-1)+j)
    end do
  end do
end subroutine lin
",
        adjoint: "subroutine lin_b(n, x, x_b, y, y_b)
  implicit none
  integer(kind=4) :: n
  integer(kind=4) :: i
  integer(kind=4) :: j
  integer(kind=8) :: x(4*n)
  integer(kind=8) :: x_b(4*n)
  integer(kind=8) :: y(n, 4)
  integer(kind=8) :: y_b(n, 4)
  integer(kind=4) :: formad_lo1
  integer(kind=4) :: formad_hi1
  integer(kind=4) :: formad_by1
  integer(kind=4) :: formad_lo2
  integer(kind=4) :: formad_hi2
  integer(kind=4) :: formad_by2
  integer(kind=4) :: formad_k
  integer(kind=4) :: formad_w
  integer(kind=8) :: formad_t
  formad_lo1 = 1
  formad_hi1 = n
  formad_by1 = 1
  formad_lo2 = 1
  formad_hi2 = 4
  formad_by2 = 1
  call formad_open(max(((formad_hi1-formad_lo1)+formad_by1)/formad_by1, 0)*max(((formad_hi2-formad_lo2)+formad_by2)/ &
      formad_by2, 0))
  !$omp parallel do private(formad_k, formad_w, formad_t) collapse(2)
  do i = formad_lo1, formad_hi1, formad_by1
    do j = formad_lo2, formad_hi2, formad_by2
      formad_k = (((i-formad_lo1)/formad_by1)*max(((formad_hi2-formad_lo2)+formad_by2)/formad_by2, 0))+((j-formad_lo2) &
          /formad_by2)
      y(i, j) = x((4*(i-1))+j)
    end do
  end do
  call formad_close()
  call formad_push(-1, formad_lo1)
  call formad_push(-1, formad_hi1)
  call formad_push(-1, formad_by1)
  call formad_push(-1, formad_lo2)
  call formad_push(-1, formad_hi2)
  call formad_push(-1, formad_by2)
  call formad_pop(-1, formad_by2)
  call formad_pop(-1, formad_hi2)
  call formad_pop(-1, formad_lo2)
  call formad_pop(-1, formad_by1)
  call formad_pop(-1, formad_hi1)
  call formad_pop(-1, formad_lo1)
  call formad_open(-1)
  !$omp parallel do private(formad_k, formad_w, formad_t) collapse(2)
  do i = formad_lo1, formad_hi1, formad_by1
    do j = formad_lo2, formad_hi2, formad_by2
      formad_k = (((i-formad_lo1)/formad_by1)*max(((formad_hi2-formad_lo2)+formad_by2)/formad_by2, 0))+((j-formad_lo2) &
          /formad_by2)
      formad_t = y_b(i, j)
      y_b(i, j) = 0_8
      !$omp atomic
      x_b((4*(i-1))+j) = x_b((4*(i-1))+j)+formad_t
    end do
  end do
  call formad_close()
end subroutine lin_b
",
    },
    // data of two bytes, an array from zero, a loop that runs down
    Row {
        of: "y",
        wrt: "x",
        program: "subroutine words(n, x, y)
  integer :: n, i
  integer(kind=2) :: x(0:n), y(n)
  !$omp parallel do
  do i = n, 1, -1
    y(i) = x(i)*x(i)*x(0) - abs(x(i)*300)
  end do
end subroutine words
",
        adjoint: "subroutine words_b(n, x, x_b, y, y_b)
  implicit none
  integer(kind=4) :: n
  integer(kind=4) :: i
  integer(kind=2) :: x(0:n)
  integer(kind=2) :: x_b(0:n)
  integer(kind=2) :: y(n)
  integer(kind=2) :: y_b(n)
  integer(kind=4) :: formad_lo1
  integer(kind=4) :: formad_hi1
  integer(kind=4) :: formad_by1
  integer(kind=4) :: formad_k
  integer(kind=4) :: formad_w
  integer(kind=2) :: formad_t
  formad_lo1 = n
  formad_hi1 = 1
  formad_by1 = -1
  call formad_open(max(((formad_hi1-formad_lo1)+formad_by1)/formad_by1, 0))
  !$omp parallel do private(formad_k, formad_w, formad_t)
  do i = formad_lo1, formad_hi1, formad_by1
    formad_k = (i-formad_lo1)/formad_by1
    y(i) = ((x(i)*x(i))*x(0))-abs(x(i)*300)
  end do
  call formad_close()
  call formad_push(-1, formad_lo1)
  call formad_push(-1, formad_hi1)
  call formad_push(-1, formad_by1)
  call formad_pop(-1, formad_by1)
  call formad_pop(-1, formad_hi1)
  call formad_pop(-1, formad_lo1)
  call formad_open(-1)
  !$omp parallel do private(formad_k, formad_w, formad_t)
  do i = formad_lo1, formad_hi1, formad_by1
    formad_k = (i-formad_lo1)/formad_by1
    formad_t = y_b(i)
    y_b(i) = 0_8
    !$omp atomic
    x_b(i) = x_b(i)+((formad_t*x(0))*x(i))
    !$omp atomic
    x_b(i) = x_b(i)+((formad_t*x(0))*x(i))
    !$omp atomic
    x_b(0) = x_b(0)+(formad_t*(x(i)*x(i)))
    !$omp atomic
    x_b(i) = x_b(i)-((formad_t*merge(-1_8, 1_8, (x(i)*300) < 0_8))*300)
  end do
  call formad_close()
end subroutine words_b
",
    },
];

#[test]
fn strides_are_reversed(rt: HostRuntime) -> Result<(), Fail> {
    for row in &ROWS {
        expect_adjoint(&rt, rt.alloc(), row)?;
    }
    Ok(())
}
