//! Straight lines.

use crate::told::{Row, expect_adjoint};
use std::test::Fail;

static ROWS: [Row; 5] = [
    // a polynomial
    Row {
        of: "y",
        wrt: "x",
        program: "subroutine poly(x, y)
  !
  integer(kind=8) :: x, y
  y = x*x + 3*x
end subroutine poly
",
        adjoint: "subroutine poly_b(x, x_b, y, y_b)
  implicit none
  integer(kind=8) :: x
  integer(kind=8) :: x_b
  integer(kind=8) :: y
  integer(kind=8) :: y_b
  integer(kind=4) :: formad_k
  integer(kind=4) :: formad_w
  integer(kind=8) :: formad_t
  y = (x*x)+(3*x)
  formad_t = y_b
  y_b = 0_8
  x_b = x_b+(formad_t*x)
  x_b = x_b+(formad_t*x)
  x_b = x_b+(formad_t*3)
end subroutine poly_b
",
    },
    // a factor that stands twice
    Row {
        of: "y",
        wrt: "x",
        program: "subroutine square(x, y)
  !
  integer(kind=8) :: x, y
  y = x*x
end subroutine square
",
        adjoint: "subroutine square_b(x, x_b, y, y_b)
  implicit none
  integer(kind=8) :: x
  integer(kind=8) :: x_b
  integer(kind=8) :: y
  integer(kind=8) :: y_b
  integer(kind=4) :: formad_k
  integer(kind=4) :: formad_w
  integer(kind=8) :: formad_t
  y = x*x
  formad_t = y_b
  y_b = 0_8
  x_b = x_b+(formad_t*x)
  x_b = x_b+(formad_t*x)
end subroutine square_b
",
    },
    // a local index that is set first, and an increment by it
    Row {
        of: "x",
        wrt: "x",
        program: "subroutine over(n, x)
  integer :: n, k
  integer(kind=8) :: x
  k = n + 1
  x = x + k
end subroutine over
",
        adjoint: "subroutine over_b(n, x, x_b)
  implicit none
  integer(kind=4) :: n
  integer(kind=4) :: k
  integer(kind=8) :: x
  integer(kind=8) :: x_b
  integer(kind=4) :: formad_k
  integer(kind=4) :: formad_w
  integer(kind=8) :: formad_t
  k = 0
  k = n+1
  x = x+k
  formad_t = x_b
end subroutine over_b
",
    },
    // products of five factors, max of two products, the power of an abs
    Row {
        of: "y,z",
        wrt: "a,b,c",
        program: "subroutine products(a, b, c, y, z)
  integer(kind=8) :: a, b, c, y, z
  y = a*b*(a + c)*c*b
  z = max(a*b, b*c) + 2*abs(a - b)**3
  y = y*min(z, -a*c)
end subroutine products
",
        adjoint: "subroutine products_b(a, a_b, b, b_b, c, c_b, y, y_b, z, z_b)
  implicit none
  integer(kind=8) :: a
  integer(kind=8) :: a_b
  integer(kind=8) :: b
  integer(kind=8) :: b_b
  integer(kind=8) :: c
  integer(kind=8) :: c_b
  integer(kind=8) :: y
  integer(kind=8) :: y_b
  integer(kind=8) :: z
  integer(kind=8) :: z_b
  integer(kind=4) :: formad_k
  integer(kind=4) :: formad_w
  integer(kind=8) :: formad_t
  call formad_push(-1, y)
  y = (((a*b)*(a+c))*c)*b
  call formad_push(-1, z)
  z = max(a*b, b*c)+(2*(abs(a-b)**3))
  call formad_push(-1, y)
  y = y*min(z, -(a*c))
  formad_t = y_b
  y_b = 0_8
  call formad_pop(-1, y)
  y_b = y_b+(formad_t*min(z, -(a*c)))
  z_b = z_b+((formad_t*y)*merge(1_8, 0_8, z <= (-(a*c))))
  a_b = a_b-(((formad_t*y)*merge(0_8, 1_8, z <= (-(a*c))))*c)
  c_b = c_b-(((formad_t*y)*merge(0_8, 1_8, z <= (-(a*c))))*a)
  formad_t = z_b
  z_b = 0_8
  call formad_pop(-1, z)
  a_b = a_b+((formad_t*merge(1_8, 0_8, (a*b) >= (b*c)))*b)
  b_b = b_b+((formad_t*merge(1_8, 0_8, (a*b) >= (b*c)))*a)
  b_b = b_b+((formad_t*merge(0_8, 1_8, (a*b) >= (b*c)))*c)
  c_b = c_b+((formad_t*merge(0_8, 1_8, (a*b) >= (b*c)))*b)
  a_b = a_b+((((formad_t*2)*3_8)*(abs(a-b)**2))*merge(-1_8, 1_8, (a-b) < 0_8))
  b_b = b_b-((((formad_t*2)*3_8)*(abs(a-b)**2))*merge(-1_8, 1_8, (a-b) < 0_8))
  formad_t = y_b
  y_b = 0_8
  call formad_pop(-1, y)
  a_b = a_b+((((formad_t*b)*c)*(a+c))*b)
  b_b = b_b+((((formad_t*b)*c)*(a+c))*a)
  a_b = a_b+(((formad_t*b)*c)*(a*b))
  c_b = c_b+(((formad_t*b)*c)*(a*b))
  c_b = c_b+((formad_t*b)*((a*b)*(a+c)))
  b_b = b_b+(formad_t*(((a*b)*(a+c))*c))
end subroutine products_b
",
    },
    // data of one byte
    Row {
        of: "y",
        wrt: "x",
        program: "subroutine bytes(n, x, y)
  integer :: n, i
  integer(kind=1) :: x(n), y(n), t
  t = 1
  do i = 1, n
    y(i) = x(i)*t + max(x(i), t)
    t = t*x(i) - 3
  end do
end subroutine bytes
",
        adjoint: "subroutine bytes_b(n, x, x_b, y, y_b)
  implicit none
  integer(kind=4) :: n
  integer(kind=4) :: i
  integer(kind=1) :: x(n)
  integer(kind=1) :: x_b(n)
  integer(kind=1) :: y(n)
  integer(kind=1) :: y_b(n)
  integer(kind=1) :: t
  integer(kind=1) :: t_b
  integer(kind=4) :: formad_lo1
  integer(kind=4) :: formad_hi1
  integer(kind=4) :: formad_by1
  integer(kind=4) :: formad_k
  integer(kind=4) :: formad_w
  integer(kind=1) :: formad_t
  t = 0_8
  t_b = 0_8
  call formad_push(-1, t)
  t = 1
  formad_lo1 = 1
  formad_hi1 = n
  formad_by1 = 1
  do i = formad_lo1, formad_hi1, formad_by1
    y(i) = (x(i)*t)+max(x(i), t)
    call formad_push(-1, t)
    t = (t*x(i))-3
  end do
  call formad_push(-1, formad_lo1)
  call formad_push(-1, formad_hi1)
  call formad_push(-1, formad_by1)
  call formad_pop(-1, formad_by1)
  call formad_pop(-1, formad_hi1)
  call formad_pop(-1, formad_lo1)
  do i = formad_lo1+((max(((formad_hi1-formad_lo1)+formad_by1)/formad_by1, 0)-1)*formad_by1), formad_lo1, -formad_by1
    formad_t = t_b
    t_b = 0_8
    call formad_pop(-1, t)
    t_b = t_b+(formad_t*x(i))
    x_b(i) = x_b(i)+(formad_t*t)
    formad_t = y_b(i)
    y_b(i) = 0_8
    x_b(i) = x_b(i)+(formad_t*t)
    t_b = t_b+(formad_t*x(i))
    x_b(i) = x_b(i)+(formad_t*merge(1_8, 0_8, x(i) >= t))
    t_b = t_b+(formad_t*merge(0_8, 1_8, x(i) >= t))
  end do
  formad_t = t_b
  t_b = 0_8
  call formad_pop(-1, t)
end subroutine bytes_b
",
    },
];

#[test]
fn straight_lines_are_reversed(rt: HostRuntime) -> Result<(), Fail> {
    for row in &ROWS {
        expect_adjoint(&rt, rt.alloc(), row)?;
    }
    Ok(())
}
