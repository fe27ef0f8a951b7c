ghost use Rattle.std.specs.Prelude.{◌≡◌, List, ℕ, Ok, IfOk, codes};
ghost use Rattle.ending.specs.Stage.{IsPart, IsStage};
ghost use Rattle.data_stages.specs.Files.{args_in, seed_in, args_part, seed_part, direction_part, args_stage, seed_stage, direction_stage};

use crate::fault::data_refused;
use data_io::{read_args, read_direction, read_seed};
use ending::{Early, take_file};
use fl_base::Name;
use fl_types::Typed;
use outside::Folder;
use std::alloc::Global;
use store_core::{Args, Direction, Weights};

/// The most bytes of a data file, a seed file or a direction file.
const MOST: u64 = 67_108_864;

fn args_of(alloc: Global, bytes: &[u8], typed: &Typed) -> Result<Args, Early>
    ensures part { IsPart (λ args. args) (args_part typed.now bytes.now) result }
    ensures read { IfOk result (λ args. args_in typed.now bytes.now ≡ Ok args) }
{
    match read_args(alloc, bytes, typed) {
        Ok(args) => Ok(args),
        Err(error) => Err(data_refused(alloc, b"data", error)),
    }
}

/// The arguments that the data file gives.
pub fn load_args<F: Folder>(
    alloc: Global,
    folder: &mut F,
    file: &Name,
    typed: &Typed,
) -> Result<Args, Early>
    ensures stage { IsStage (λ args. args) (F.state folder.old) (F.state folder.new) (args_stage file.now typed.now) result }
    ensures read { IfOk result (λ args. (bytes : List ℕ) × (args_in typed.now bytes ≡ Ok args)) }
{
    let bytes = take_file(alloc, folder, file, MOST, b"limit data 67108864\n")?;
    args_of(alloc, &bytes, typed)
}

fn seed_of(
    alloc: Global,
    bytes: &[u8],
    typed: &Typed,
    args: &Args,
    of: &[Name],
) -> Result<Weights, Early>
    ensures part { IsPart (λ weights. weights) (seed_part typed.now args.now of.now bytes.now) result }
    ensures read { IfOk result (λ weights. seed_in typed.now args.now of.now bytes.now ≡ Ok weights) }
{
    match read_seed(alloc, bytes, typed, args, of) {
        Ok(weights) => Ok(weights),
        Err(error) => Err(data_refused(alloc, b"seed", error)),
    }
}

/// The weights that the seed file gives the names of `of`.
pub fn load_seed<F: Folder>(
    alloc: Global,
    folder: &mut F,
    file: &Name,
    typed: &Typed,
    args: &Args,
    of: &[Name],
) -> Result<Weights, Early>
    ensures stage { IsStage (λ weights. weights) (F.state folder.old) (F.state folder.new) (seed_stage file.now typed.now args.now of.now) result }
    ensures read { IfOk result (λ weights. (bytes : List ℕ) × (seed_in typed.now args.now of.now bytes ≡ Ok weights)) }
{
    let bytes = take_file(alloc, folder, file, MOST, b"limit data 67108864\n")?;
    seed_of(alloc, &bytes, typed, args, of)
}

fn direction_of(alloc: Global, bytes: &[u8], typed: &Typed, args: &Args) -> Result<Direction, Early>
    ensures { IsPart (λ direction. direction) (direction_part typed.now args.now bytes.now) result }
{
    match read_direction(alloc, bytes, typed, args) {
        Ok(direction) => Ok(direction),
        Err(error) => Err(data_refused(alloc, b"direction", error)),
    }
}

/// The direction that the direction file gives.
pub fn load_direction<F: Folder>(
    alloc: Global,
    folder: &mut F,
    file: &Name,
    typed: &Typed,
    args: &Args,
) -> Result<Direction, Early>
    ensures { IsStage (λ direction. direction) (F.state folder.old) (F.state folder.new) (direction_stage file.now typed.now args.now) result }
{
    let bytes = take_file(alloc, folder, file, MOST, b"limit data 67108864\n")?;
    direction_of(alloc, &bytes, typed, args)
}
