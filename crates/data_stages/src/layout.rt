ghost use Rattle.std.specs.Prelude.{◌≡◌, ◌≤◌, ◌^◌, length, IfOk};
ghost use Rattle.ending.specs.Stage.{IsPart, IsSaying};
ghost use Rattle.store_core.specs.Keys.{keys_of};
ghost use Rattle.store_core.specs.Places.{shapes_of};
ghost use Rattle.data_stages.specs.Layouts.{say_layout, layout_stage};

use ending::{Early, Verdict, said};
use fl_types::Typed;
use std::alloc::Global;
use store_core::{Args, Layout, LayoutError};

/// What is said of a program that has no layout.
fn layout_refused(alloc: Global, error: LayoutError) -> Early
    ensures { IsSaying (say_layout error) result }
{
    match error {
        LayoutError::TooManyPlaces => said(alloc, Verdict::OverLimit, b"limit places 1048576\n"),
        LayoutError::Memory => Early::Memory,
    }
}

/// The places of a program with these arguments.
pub fn lay_out(alloc: Global, typed: &Typed, args: &Args) -> Result<Layout, Early>
    ensures part { IsPart (λ layout. layout) (layout_stage typed.now args.now) result }
    ensures laid { IfOk result (λ layout. layout ≡ shapes_of typed.now args.now.entries) }
    ensures few { IfOk result (λ layout. length (keys_of layout) ≤ 2 ^ 20) }
{
    match Layout::of(alloc, typed, args) {
        Ok(layout) => Ok(layout),
        Err(error) => Err(layout_refused(alloc, error)),
    }
}
