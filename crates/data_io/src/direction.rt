ghost use Rattle.std.specs.Prelude.{◌≡◌, ◌++◌, IfOk, OnOk};
ghost use Rattle.serde_json.specs.Data.{Data};
ghost use Rattle.serde_json.specs.View.{view};
ghost use Rattle.data_io.specs.DataFaults.{Answers, IsJson, no_json};
ghost use Rattle.data_io.specs.Directions.{is_given as is_given_lem, given_name, given_names as given_names_lem, direction_faults, direction_of, no_direction};

use crate::data::DataError;
use crate::number::find;
use crate::read::seed_entries;
use fl_ast::Name;
use fl_base::{Items, Memory};
use fl_types::Typed;
use serde_json::Value;
use std::alloc::Global;
use store_core::{Args, Direction};

/// Whether an object has a name.
fn is_given(value: &Value, name: &Name) -> bool
    ensures { result ≡ is_given_lem (view value.now) name.now }
{
    match find(value, name) {
        Some(_) => true,
        None => false,
    }
}

fn add_given(
    alloc: Global,
    names: &mut Items<Name>,
    typed: &Typed,
    value: &Value,
    name: &Name,
) -> Result<(), Memory>
    ensures { OnOk result (names.new ≡ names.old ++ given_name typed.now (view value.now) name.now) }
{
    if !typed.is_ring_argument(name) {
        return Ok(());
    }
    if !is_given(value, name) {
        return Ok(());
    }
    names.push(name.clone(alloc)?)?;
    Ok(())
}

/// The arguments of the ring kind that an object has, in their order.
fn given_names(alloc: Global, typed: &Typed, value: &Value) -> Result<Items<Name>, Memory>
    ensures { IfOk result (λ names. names ≡ given_names_lem typed.now (view value.now)) }
{
    let mut names = Items::new(alloc);
    for name in typed.program().args.as_slice() {
        add_given(alloc, &mut names, typed, value, name)?;
    }
    Ok(names)
}

fn direction_from(
    alloc: Global,
    typed: &Typed,
    args: &Args,
    value: &Value,
) -> Result<Direction, DataError>
    ensures { Answers result (direction_faults typed.now args.now (view value.now)) (direction_of typed.now (view value.now)) }
{
    let names = given_names(alloc, typed, value)?;
    let values = args.entries.as_slice();
    let decls = typed.program().decls.as_slice();
    Ok(Direction {
        entries: seed_entries(alloc, values, decls, names.as_slice(), value)?,
    })
}

/// The direction that a direction file gives: an object with names of arguments of the ring kind, shaped as the
/// arguments are. Names that are absent are 0. Faults are told as those of a seed file.
pub fn read_direction(
    alloc: Global,
    bytes: &[u8],
    typed: &Typed,
    args: &Args,
) -> Result<Direction, DataError>
    ensures json { (d : Data) → IsJson bytes.now d
        → Answers result (direction_faults typed.now args.now d) (direction_of typed.now d) }
    ensures no_json { ¬ ((d : Data) × IsJson bytes.now d) → Answers result no_json no_direction }
{
    match Value::from_slice(alloc, bytes) {
        Ok(value) => direction_from(alloc, typed, args, &value),
        Err(error) => Err(if error.is_memory() {
            DataError::Memory
        } else {
            DataError::NotJson
        }),
    }
}
