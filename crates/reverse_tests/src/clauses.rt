//! Programs whose parallel loops have clauses and choices.

use crate::told::{Row, expect_adjoint};
use std::test::Fail;

static ROWS: [Row; 3] = [
    // the head and the lists in order of declaration: locals, a private name with its adjoint, loop variables that are listed
    Row {
        of: "b",
        wrt: "x,b",
        program: "subroutine order(n, b, x)
  integer :: j, n, i
  integer(kind=8) :: t, b, u, x(-2:n+1)
  integer :: p
  integer(kind=8) :: s
  u = b*b
  s = 0
  p = n
  !$omp parallel do private(j, i, t) reduction(+: s) firstprivate(p, b)
  do i = p, 1, -1
    t = x(i)*u
    do j = 1, 2
      s = s + t*b
    end do
  end do
  b = s
end subroutine order
",
        adjoint: "subroutine order_b(n, b, b_b, x, x_b)
  implicit none
  integer(kind=4) :: j
  integer(kind=4) :: n
  integer(kind=4) :: i
  integer(kind=8) :: t
  integer(kind=8) :: t_b
  integer(kind=8) :: b
  integer(kind=8) :: b_b
  integer(kind=8) :: u
  integer(kind=8) :: u_b
  integer(kind=8) :: x(-2:n+1)
  integer(kind=8) :: x_b(-2:n+1)
  integer(kind=4) :: p
  integer(kind=8) :: s
  integer(kind=8) :: s_b
  integer(kind=4) :: formad_lo1
  integer(kind=4) :: formad_hi1
  integer(kind=4) :: formad_by1
  integer(kind=4) :: formad_lo2
  integer(kind=4) :: formad_hi2
  integer(kind=4) :: formad_by2
  integer(kind=4) :: formad_k
  integer(kind=4) :: formad_w
  integer(kind=8) :: formad_t
  u = 0_8
  u_b = 0_8
  p = 0
  s = 0_8
  s_b = 0_8
  call formad_push(-1, u)
  u = b*b
  s = 0
  p = n
  formad_lo1 = p
  formad_hi1 = 1
  formad_by1 = -1
  call formad_open(max(((formad_hi1-formad_lo1)+formad_by1)/formad_by1, 0))
  !$omp parallel do private(j, t, t_b, formad_lo2, formad_hi2, formad_by2, formad_k, formad_w, formad_t) firstprivate( &
  !$omp b, p) reduction(+: s)
  do i = formad_lo1, formad_hi1, formad_by1
    formad_k = (i-formad_lo1)/formad_by1
    t = 0_8
    call formad_push(formad_k, t)
    t = x(i)*u
    formad_lo2 = 1
    formad_hi2 = 2
    formad_by2 = 1
    do j = formad_lo2, formad_hi2, formad_by2
      s = s+(t*b)
    end do
    call formad_push(formad_k, formad_lo2)
    call formad_push(formad_k, formad_hi2)
    call formad_push(formad_k, formad_by2)
    call formad_push(formad_k, t)
  end do
  call formad_close()
  call formad_push(-1, formad_lo1)
  call formad_push(-1, formad_hi1)
  call formad_push(-1, formad_by1)
  call formad_push(-1, b)
  b = s
  formad_t = b_b
  b_b = 0_8
  call formad_pop(-1, b)
  s_b = s_b+formad_t
  call formad_pop(-1, formad_by1)
  call formad_pop(-1, formad_hi1)
  call formad_pop(-1, formad_lo1)
  call formad_open(-1)
  !$omp parallel do private(j, t, t_b, formad_lo2, formad_hi2, formad_by2, formad_k, formad_w, formad_t) firstprivate( &
  !$omp b, p) reduction(+: b_b, u_b)
  do i = formad_lo1, formad_hi1, formad_by1
    formad_k = (i-formad_lo1)/formad_by1
    call formad_pop(formad_k, t)
    t_b = 0_8
    call formad_pop(formad_k, formad_by2)
    call formad_pop(formad_k, formad_hi2)
    call formad_pop(formad_k, formad_lo2)
    do j = formad_lo2+((max(((formad_hi2-formad_lo2)+formad_by2)/formad_by2, 0)-1)*formad_by2), formad_lo2, -formad_by2
      formad_t = s_b
      t_b = t_b+(formad_t*b)
      b_b = b_b+(formad_t*t)
    end do
    formad_t = t_b
    t_b = 0_8
    call formad_pop(formad_k, t)
    !$omp atomic
    x_b(i) = x_b(i)+(formad_t*u)
    u_b = u_b+(formad_t*x(i))
  end do
  call formad_close()
  formad_t = s_b
  s_b = 0_8
  formad_t = u_b
  u_b = 0_8
  call formad_pop(-1, u)
  b_b = b_b+(formad_t*b)
  b_b = b_b+(formad_t*b)
end subroutine order_b
",
    },
    // a private target under atomic, a private name that is unneeded, a scalar that is read only, and one that is assigned
    Row {
        of: "y,b",
        wrt: "a,b,x",
        program: "subroutine scalars(n, a, b, x, y)
  integer :: n, i
  integer(kind=8) :: a, b, x(n), y(n), t, u
  !$omp parallel do private(u, t) shared(a) default(none) shared(x, y, b)
  do i = 1, n
    t = a
    !$omp atomic
    t = t + a*x(i)
    u = t*t
    if (i == 3) b = b*u
    y(i) = y(i) + u
  end do
end subroutine scalars
",
        adjoint: "subroutine scalars_b(n, a, a_b, b, b_b, x, x_b, y, y_b)
  implicit none
  integer(kind=4) :: n
  integer(kind=4) :: i
  integer(kind=8) :: a
  integer(kind=8) :: a_b
  integer(kind=8) :: b
  integer(kind=8) :: b_b
  integer(kind=8) :: x(n)
  integer(kind=8) :: x_b(n)
  integer(kind=8) :: y(n)
  integer(kind=8) :: y_b(n)
  integer(kind=8) :: t
  integer(kind=8) :: t_b
  integer(kind=8) :: u
  integer(kind=8) :: u_b
  integer(kind=4) :: formad_lo1
  integer(kind=4) :: formad_hi1
  integer(kind=4) :: formad_by1
  integer(kind=4) :: formad_k
  integer(kind=4) :: formad_w
  integer(kind=8) :: formad_t
  formad_lo1 = 1
  formad_hi1 = n
  formad_by1 = 1
  call formad_open(max(((formad_hi1-formad_lo1)+formad_by1)/formad_by1, 0))
  !$omp parallel do private(t, t_b, u, u_b, formad_k, formad_w, formad_t)
  do i = formad_lo1, formad_hi1, formad_by1
    formad_k = (i-formad_lo1)/formad_by1
    t = 0_8
    u = 0_8
    call formad_push(formad_k, t)
    t = a
    !$omp atomic
    t = t+(a*x(i))
    call formad_push(formad_k, u)
    u = t*t
    if (i == 3) then
      call formad_push(formad_k, b)
      b = b*u
      call formad_push(formad_k, 0)
    else
      call formad_push(formad_k, 1)
    end if
    y(i) = y(i)+u
    call formad_push(formad_k, t)
    call formad_push(formad_k, u)
  end do
  call formad_close()
  call formad_push(-1, formad_lo1)
  call formad_push(-1, formad_hi1)
  call formad_push(-1, formad_by1)
  call formad_pop(-1, formad_by1)
  call formad_pop(-1, formad_hi1)
  call formad_pop(-1, formad_lo1)
  call formad_open(-1)
  !$omp parallel do private(t, t_b, u, u_b, formad_k, formad_w, formad_t) reduction(+: a_b)
  do i = formad_lo1, formad_hi1, formad_by1
    formad_k = (i-formad_lo1)/formad_by1
    call formad_pop(formad_k, u)
    call formad_pop(formad_k, t)
    t_b = 0_8
    u_b = 0_8
    formad_t = y_b(i)
    u_b = u_b+formad_t
    call formad_pop(formad_k, formad_w)
    if (formad_w == 0) then
      formad_t = b_b
      b_b = 0_8
      call formad_pop(formad_k, b)
      !$omp atomic
      b_b = b_b+(formad_t*u)
      u_b = u_b+(formad_t*b)
    end if
    formad_t = u_b
    u_b = 0_8
    call formad_pop(formad_k, u)
    t_b = t_b+(formad_t*t)
    t_b = t_b+(formad_t*t)
    !$omp atomic
    t = t-(a*x(i))
    formad_t = t_b
    a_b = a_b+(formad_t*x(i))
    !$omp atomic
    x_b(i) = x_b(i)+(formad_t*a)
    formad_t = t_b
    t_b = 0_8
    call formad_pop(formad_k, t)
    a_b = a_b+formad_t
  end do
  call formad_close()
end subroutine scalars_b
",
    },
    // statements and a directive that go on over several lines
    Row {
        of: "y",
        wrt: "an_array_whose_name_is_as_long_as_it_may_be_in_this_language",
        program: "subroutine wide(n, an_array_whose_name_is_as_long_as_it_may_be_in_this_language, y)
  integer :: n, i, a_private_scalar_whose_name_is_nearly_as_long_as_that_of_it
  integer(kind=8) :: an_array_whose_name_is_as_long_as_it_may_be_in_this_language(n), y(n)
  !$omp parallel do private(a_private_scalar_whose_name_is_nearly_as_long_as_that_of_it) schedule(static)
  do i = 1, n
    a_private_scalar_whose_name_is_nearly_as_long_as_that_of_it = n - i
    y(i) = an_array_whose_name_is_as_long_as_it_may_be_in_this_language(a_private_scalar_whose_name_is_nearly_as_long_as_that_of_it) &
      *an_array_whose_name_is_as_long_as_it_may_be_in_this_language(i)
  end do
end subroutine wide
",
        adjoint: "subroutine wide_b(n, an_array_whose_name_is_as_long_as_it_may_be_in_this_language, &
    an_array_whose_name_is_as_long_as_it_may_be_in_this_language_b, y, y_b)
  implicit none
  integer(kind=4) :: n
  integer(kind=4) :: i
  integer(kind=4) :: a_private_scalar_whose_name_is_nearly_as_long_as_that_of_it
  integer(kind=8) :: an_array_whose_name_is_as_long_as_it_may_be_in_this_language(n)
  integer(kind=8) :: an_array_whose_name_is_as_long_as_it_may_be_in_this_language_b(n)
  integer(kind=8) :: y(n)
  integer(kind=8) :: y_b(n)
  integer(kind=4) :: formad_lo1
  integer(kind=4) :: formad_hi1
  integer(kind=4) :: formad_by1
  integer(kind=4) :: formad_k
  integer(kind=4) :: formad_w
  integer(kind=8) :: formad_t
  formad_lo1 = 1
  formad_hi1 = n
  formad_by1 = 1
  call formad_open(max(((formad_hi1-formad_lo1)+formad_by1)/formad_by1, 0))
  !$omp parallel do private(a_private_scalar_whose_name_is_nearly_as_long_as_that_of_it, formad_k, formad_w, formad_t) &
  !$omp schedule(static)
  do i = formad_lo1, formad_hi1, formad_by1
    formad_k = (i-formad_lo1)/formad_by1
    a_private_scalar_whose_name_is_nearly_as_long_as_that_of_it = 0
    call formad_push(formad_k, a_private_scalar_whose_name_is_nearly_as_long_as_that_of_it)
    a_private_scalar_whose_name_is_nearly_as_long_as_that_of_it = n-i
    y(i) = an_array_whose_name_is_as_long_as_it_may_be_in_this_language( &
        a_private_scalar_whose_name_is_nearly_as_long_as_that_of_it)* &
        an_array_whose_name_is_as_long_as_it_may_be_in_this_language(i)
    call formad_push(formad_k, a_private_scalar_whose_name_is_nearly_as_long_as_that_of_it)
  end do
  call formad_close()
  call formad_push(-1, formad_lo1)
  call formad_push(-1, formad_hi1)
  call formad_push(-1, formad_by1)
  call formad_pop(-1, formad_by1)
  call formad_pop(-1, formad_hi1)
  call formad_pop(-1, formad_lo1)
  call formad_open(-1)
  !$omp parallel do private(a_private_scalar_whose_name_is_nearly_as_long_as_that_of_it, formad_k, formad_w, formad_t) &
  !$omp schedule(static)
  do i = formad_lo1, formad_hi1, formad_by1
    formad_k = (i-formad_lo1)/formad_by1
    call formad_pop(formad_k, a_private_scalar_whose_name_is_nearly_as_long_as_that_of_it)
    formad_t = y_b(i)
    y_b(i) = 0_8
    !$omp atomic
    an_array_whose_name_is_as_long_as_it_may_be_in_this_language_b( &
        a_private_scalar_whose_name_is_nearly_as_long_as_that_of_it) = &
        an_array_whose_name_is_as_long_as_it_may_be_in_this_language_b( &
        a_private_scalar_whose_name_is_nearly_as_long_as_that_of_it)+(formad_t* &
        an_array_whose_name_is_as_long_as_it_may_be_in_this_language(i))
    !$omp atomic
    an_array_whose_name_is_as_long_as_it_may_be_in_this_language_b(i) = &
        an_array_whose_name_is_as_long_as_it_may_be_in_this_language_b(i)+(formad_t* &
        an_array_whose_name_is_as_long_as_it_may_be_in_this_language( &
        a_private_scalar_whose_name_is_nearly_as_long_as_that_of_it))
    call formad_pop(formad_k, a_private_scalar_whose_name_is_nearly_as_long_as_that_of_it)
  end do
  call formad_close()
end subroutine wide_b
",
    },
];

#[test]
fn clauses_are_reversed(rt: HostRuntime) -> Result<(), Fail> {
    for row in &ROWS {
        expect_adjoint(&rt, rt.alloc(), row)?;
    }
    Ok(())
}
