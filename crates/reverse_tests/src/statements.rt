//! Programs without parallel loops.

use crate::told::{Row, expect_adjoint};
use std::test::Fail;

static ROWS: [Row; 4] = [
    // arms in all forms: an empty one, one whose reverse is empty, no else, an else without reverse
    Row {
        of: "x",
        wrt: "x",
        program: "subroutine arms(n, c, x)
  integer :: n, c(n)
  integer(kind=8) :: x(n)
  if (n > 3 .and. .not. (n == 5 .or. x(1) < -2_8)) then
  else if (n+1 /= -1) then
    x(1) = x(2)*x(2)
  else
    c(1) = 2
  end if
  if (x(1) >= 0) c(2) = 3
end subroutine arms
",
        adjoint: "subroutine arms_b(n, c, x, x_b)
  implicit none
  integer(kind=4) :: n
  integer(kind=4) :: c(n)
  integer(kind=8) :: x(n)
  integer(kind=8) :: x_b(n)
  integer(kind=4) :: formad_k
  integer(kind=4) :: formad_w
  integer(kind=8) :: formad_t
  if ((n > 3) .and. (.not. ((n == 5) .or. (x(1) < (-2_8))))) then
    call formad_push(-1, 0)
  else if ((n+1) /= (-1)) then
    call formad_push(-1, x(1))
    x(1) = x(2)*x(2)
    call formad_push(-1, 1)
  else
    c(1) = 2
    call formad_push(-1, 2)
  end if
  if (x(1) >= 0) then
    c(2) = 3
    call formad_push(-1, 0)
  else
    call formad_push(-1, 1)
  end if
  call formad_pop(-1, formad_w)
  if (formad_w == 0) then
  end if
  call formad_pop(-1, formad_w)
  if (formad_w == 0) then
  else if (formad_w == 1) then
    formad_t = x_b(1)
    x_b(1) = 0_8
    call formad_pop(-1, x(1))
    x_b(2) = x_b(2)+(formad_t*x(2))
    x_b(2) = x_b(2)+(formad_t*x(2))
  end if
end subroutine arms_b
",
    },
    // powers 0 to 3, max, min and abs, one in the other
    Row {
        of: "y",
        wrt: "a,b",
        program: "subroutine powers(a, b, y)
  integer(kind=8), intent(in) :: a, b
  integer(kind=8), intent(out) :: y
  y = a**0 + b**1 - (a*b)**2*abs(a) + max(b**3, min(a, -b))
end subroutine powers
",
        adjoint: "subroutine powers_b(a, a_b, b, b_b, y, y_b)
  implicit none
  integer(kind=8) :: a
  integer(kind=8) :: a_b
  integer(kind=8) :: b
  integer(kind=8) :: b_b
  integer(kind=8) :: y
  integer(kind=8) :: y_b
  integer(kind=4) :: formad_k
  integer(kind=4) :: formad_w
  integer(kind=8) :: formad_t
  y = (((a**0)+(b**1))-(((a*b)**2)*abs(a)))+max(b**3, min(a, -b))
  formad_t = y_b
  y_b = 0_8
  a_b = a_b+(formad_t*0_8)
  b_b = b_b+formad_t
  a_b = a_b-((((formad_t*abs(a))*2_8)*(a*b))*b)
  b_b = b_b-((((formad_t*abs(a))*2_8)*(a*b))*a)
  a_b = a_b-((formad_t*((a*b)**2))*merge(-1_8, 1_8, a < 0_8))
  b_b = b_b+(((formad_t*merge(1_8, 0_8, (b**3) >= min(a, -b)))*3_8)*(b**2))
  a_b = a_b+((formad_t*merge(0_8, 1_8, (b**3) >= min(a, -b)))*merge(1_8, 0_8, a <= (-b)))
  b_b = b_b-((formad_t*merge(0_8, 1_8, (b**3) >= min(a, -b)))*merge(0_8, 1_8, a <= (-b)))
end subroutine powers_b
",
    },
    // an increment that is needed makes the names of its rest needed, one that is not needed does not
    Row {
        of: "y",
        wrt: "x",
        program: "subroutine rest(n, c, w, v, x, y, z)
  integer :: n, c(n)
  integer(kind=8) :: w(n), v(n), x(n), y(n), z(n)
  c(1) = 2
  w(c(1)) = 7
  z(1) = z(1) + w(c(1)) - 2*w(1)
  v(1) = 3
  y(1) = y(1) + v(1)
  z(1) = w(2) + z(1)
  y(1) = y(1) - z(1)*x(1)
  w(2) = 8
  z(1) = 0
end subroutine rest
",
        adjoint: "subroutine rest_b(n, c, w, v, x, x_b, y, y_b, z)
  implicit none
  integer(kind=4) :: n
  integer(kind=4) :: c(n)
  integer(kind=8) :: w(n)
  integer(kind=8) :: v(n)
  integer(kind=8) :: x(n)
  integer(kind=8) :: x_b(n)
  integer(kind=8) :: y(n)
  integer(kind=8) :: y_b(n)
  integer(kind=8) :: z(n)
  integer(kind=4) :: formad_k
  integer(kind=4) :: formad_w
  integer(kind=8) :: formad_t
  call formad_push(-1, c(1))
  c(1) = 2
  call formad_push(-1, w(c(1)))
  w(c(1)) = 7
  z(1) = (z(1)+w(c(1)))-(2*w(1))
  v(1) = 3
  y(1) = y(1)+v(1)
  z(1) = w(2)+z(1)
  y(1) = y(1)-(z(1)*x(1))
  call formad_push(-1, w(2))
  w(2) = 8
  call formad_push(-1, z(1))
  z(1) = 0
  call formad_pop(-1, z(1))
  call formad_pop(-1, w(2))
  formad_t = y_b(1)
  x_b(1) = x_b(1)-(formad_t*z(1))
  z(1) = z(1)-w(2)
  formad_t = y_b(1)
  z(1) = (z(1)-w(c(1)))+(2*w(1))
  call formad_pop(-1, w(c(1)))
  call formad_pop(-1, c(1))
end subroutine rest_b
",
    },
    // signs: right of a difference, negations, an increment after its rest, a target in its own value
    Row {
        of: "x",
        wrt: "a,x",
        program: "subroutine signs(a, x)
  integer(kind=1) :: a, x
  x = -x - (a - (3 - x))
  x = a - 2*x + a
  x = -(-a) + x
  x = x - a + (x - x)
end subroutine signs
",
        adjoint: "subroutine signs_b(a, a_b, x, x_b)
  implicit none
  integer(kind=1) :: a
  integer(kind=1) :: a_b
  integer(kind=1) :: x
  integer(kind=1) :: x_b
  integer(kind=4) :: formad_k
  integer(kind=4) :: formad_w
  integer(kind=1) :: formad_t
  x = (-x)-(a-(3-x))
  x = (a-(2*x))+a
  x = (-(-a))+x
  x = (x-a)+(x-x)
  formad_t = x_b
  x_b = 0_8
  x_b = x_b+formad_t
  a_b = a_b-formad_t
  x_b = x_b+formad_t
  x_b = x_b-formad_t
  formad_t = x_b
  a_b = a_b+formad_t
  formad_t = x_b
  x_b = 0_8
  a_b = a_b+formad_t
  x_b = x_b-(formad_t*2)
  a_b = a_b+formad_t
  formad_t = x_b
  x_b = 0_8
  x_b = x_b-formad_t
  a_b = a_b-formad_t
  x_b = x_b-formad_t
end subroutine signs_b
",
    },
];

#[test]
fn statements_are_reversed(rt: HostRuntime) -> Result<(), Fail> {
    for row in &ROWS {
        expect_adjoint(&rt, rt.alloc(), row)?;
    }
    Ok(())
}
