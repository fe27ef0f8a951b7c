ghost use Rattle.std.specs.Prelude.{[], ◌≡◌, ◌∷◌, ◌++◌, flat_map, option_map, Some};
ghost use Rattle.serde_json.specs.Data.{Data};
ghost use Rattle.serde_json.specs.View.{view, members_view};
ghost use Rattle.serde_json.specs.Find.{as_array, as_object};
ghost use Rattle.data_io.specs.DataFaults.{Answers, named_faults, number_faults, list_faults, list_of, whole, word_at, words_at, found, want_of, scalar_faults_of, array_faults_of, scalar_faults, array_faults, name_faults, extra_faults, is_asked, scalars_named, entry_of, name_entries, scalars_of, entries_of, faults_of, IsJson, no_json, array_entry as array_entry_of, scalar_entry as scalar_entry_of, args_of, seed_of, args_faults, no_args, no_weights};

use crate::data::DataError;
use crate::number::{find, word, words};
use fl_ast::{Decl, Name, Program};
use fl_base::Items;
use fl_types::Typed;
use serde_json::Value;
use serde_json::value::Map;
use std::alloc::Global;
use store_core::{Args, Entry, Weights, declaration, declared_shape, size};

/// The word of a scalar.
fn scalar(alloc: Global, decl: &Decl, value: &Value) -> Result<u64, DataError>
    ensures { Answers result (named_faults decl.now (λ x. number_faults decl.now 0 (whole x))
        (found decl.now.name (view value.now))) (word_at (found decl.now.name (view value.now))) }
{
    match find(value, &decl.name) {
        Some(number) => word(alloc, decl, 0, number),
        None => Err(DataError::Missing {
            name: decl.name.clone(alloc)?,
        }),
    }
}

/// The words of an array that is to have `want` elements.
fn array(alloc: Global, decl: &Decl, want: u64, value: &Value) -> Result<Items<u64>, DataError>
    ensures { Answers result (named_faults decl.now
        (λ x. list_faults decl.now want (option_map list_of (as_array x)))
        (found decl.now.name (view value.now))) (words_at (found decl.now.name (view value.now))) }
{
    match find(value, &decl.name) {
        Some(list) => array_from(alloc, decl, want, list),
        None => Err(DataError::Missing {
            name: decl.name.clone(alloc)?,
        }),
    }
}

fn array_from(alloc: Global, decl: &Decl, want: u64, list: &Value) -> Result<Items<u64>, DataError>
    ensures { Answers result
        (list_faults decl.now want (option_map list_of (as_array (view list.now))))
        (words_at (Some (view list.now))) }
{
    match list.as_array() {
        Some(items) => {
            let items = items.as_slice();
            let got = items.len() as u64;
            if got == want {
                words(alloc, decl, items)
            } else {
                Err(DataError::Shape {
                    name: decl.name.clone(alloc)?,
                    want,
                    got,
                })
            }
        }
        None => Err(DataError::NotWhole {
            name: decl.name.clone(alloc)?,
            at: 0,
        }),
    }
}

/// Whether a key is among the names.
fn has_name(names: &[Name], key: &[u8]) -> bool
    ensures { result ≡ is_asked names.now key.now }
{
    names.iter().any(|name| name.bytes() == key)
}

/// Refuses a key that isn't asked for.
fn no_extra(alloc: Global, names: &[Name], members: &Map<String, Value>) -> Result<(), DataError>
    ensures { Answers result (extra_faults names.now (members_view members.now.entries)) tt }
{
    for (key, _) in members.iter() {
        if !has_name(names, key.as_bytes()) {
            return Err(DataError::Extra {
                name: Name::of(alloc, key.as_bytes())?,
            });
        }
    }
    Ok(())
}

fn scalar_entry(alloc: Global, decl: &Decl, value: &Value) -> Result<Entry, DataError>
    ensures { Answers result (named_faults decl.now (λ x. number_faults decl.now 0 (whole x))
        (found decl.now.name (view value.now))) (scalar_entry_of (view value.now) decl.now) }
{
    let mut words = Items::new(alloc);
    words.push(scalar(alloc, decl, value)?)?;
    Ok(Entry {
        name: decl.name.clone(alloc)?,
        scalar: true,
        words,
    })
}

fn array_entry(
    alloc: Global,
    values: &[Entry],
    decl: &Decl,
    value: &Value,
) -> Result<Entry, DataError>
    ensures { Answers result (named_faults decl.now
        (λ x. list_faults decl.now (want_of values.now decl.now.dims) (option_map list_of (as_array x)))
        (found decl.now.name (view value.now))) (array_entry_of (view value.now) decl.now) }
{
    let shape = declared_shape(alloc, values, decl)?;
    let words = array(alloc, decl, size(shape.axes.as_slice()), value)?;
    Ok(Entry {
        name: decl.name.clone(alloc)?,
        scalar: false,
        words,
    })
}

/// The entry of a name that is declared as a scalar.
fn scalars_at(
    alloc: Global,
    decls: &[Decl],
    name: &Name,
    value: &Value,
) -> Result<Items<Entry>, DataError>
    ensures { Answers result (scalar_faults decls.now (view value.now) name.now)
        (scalars_named decls.now (view value.now) name.now) }
{
    let mut entries = Items::new(alloc);
    match declaration(decls, name) {
        Some(decl) => {
            if decl.dims.is_empty() {
                entries.push(scalar_entry(alloc, decl, value)?)?;
            }
            Ok(entries)
        }
        None => Ok(entries),
    }
}

/// The entry of a declared name.
fn entry(alloc: Global, values: &[Entry], decl: &Decl, value: &Value) -> Result<Entry, DataError>
    ensures { Answers result
        (scalar_faults_of (view value.now) decl.now ++ array_faults_of values.now (view value.now) decl.now)
        (entry_of (view value.now) decl.now) }
{
    if decl.dims.is_empty() {
        scalar_entry(alloc, decl, value)
    } else {
        array_entry(alloc, values, decl, value)
    }
}

fn entries_at(
    alloc: Global,
    values: &[Entry],
    decls: &[Decl],
    name: &Name,
    value: &Value,
) -> Result<Items<Entry>, DataError>
    ensures { Answers result (name_faults values.now decls.now (view value.now) name.now)
        (name_entries decls.now (view value.now) name.now) }
{
    let mut entries = Items::new(alloc);
    match declaration(decls, name) {
        Some(decl) => {
            entries.push(entry(alloc, values, decl, value)?)?;
            Ok(entries)
        }
        None => Ok(entries),
    }
}

/// The entries of the scalars among the names.
fn scalars(
    alloc: Global,
    decls: &[Decl],
    names: &[Name],
    value: &Value,
) -> Result<Items<Entry>, DataError>
    ensures { Answers result (flat_map (scalar_faults decls.now (view value.now)) names.now)
        (scalars_of decls.now names.now (view value.now)) }
{
    let mut entries = Items::new(alloc);
    for name in names {
        entries.append(scalars_at(alloc, decls, name, value)?)?;
    }
    Ok(entries)
}

/// The entries of the names.
fn entries(
    alloc: Global,
    values: &[Entry],
    decls: &[Decl],
    names: &[Name],
    value: &Value,
) -> Result<Items<Entry>, DataError>
    ensures { Answers result (flat_map (name_faults values.now decls.now (view value.now)) names.now)
        (entries_of decls.now names.now (view value.now)) }
{
    let mut entries = Items::new(alloc);
    for name in names {
        entries.append(entries_at(alloc, values, decls, name, value)?)?;
    }
    Ok(entries)
}

/// The entries of the names, of which no scalar is at fault.
fn rest(
    alloc: Global,
    values: &[Entry],
    decls: &[Decl],
    names: &[Name],
    value: &Value,
    members: &Map<String, Value>,
) -> Result<Items<Entry>, DataError>
    requires whole { flat_map (scalar_faults decls.now (view value.now)) names.now ≡ [] }
    requires object { Some (members_view members.now.entries) ≡ as_object (view value.now) }
    ensures { Answers result (faults_of values.now decls.now names.now (view value.now))
        (entries_of decls.now names.now (view value.now)) }
{
    let entries = entries(alloc, values, decls, names, value)?;
    no_extra(alloc, names, members)?;
    Ok(entries)
}

fn args_entries(
    alloc: Global,
    decls: &[Decl],
    names: &[Name],
    value: &Value,
) -> Result<Items<Entry>, DataError>
    ensures { Answers result (args_faults decls.now names.now (view value.now))
        (entries_of decls.now names.now (view value.now)) }
{
    match value.as_object() {
        Some(members) => {
            let scalars = scalars(alloc, decls, names, value)?;
            rest(alloc, scalars.as_slice(), decls, names, value, members)
        }
        None => Err(DataError::NotObject),
    }
}

pub(crate) fn seed_entries(
    alloc: Global,
    values: &[Entry],
    decls: &[Decl],
    names: &[Name],
    value: &Value,
) -> Result<Items<Entry>, DataError>
    ensures { Answers result (faults_of values.now decls.now names.now (view value.now))
        (entries_of decls.now names.now (view value.now)) }
{
    match value.as_object() {
        Some(members) => {
            scalars(alloc, decls, names, value)?;
            rest(alloc, values, decls, names, value, members)
        }
        None => Err(DataError::NotObject),
    }
}

fn args_from(alloc: Global, program: &Program, value: &Value) -> Result<Args, DataError>
    ensures { Answers result (args_faults program.now.decls program.now.args (view value.now))
        (args_of program.now (view value.now)) }
{
    let decls = program.decls.as_slice();
    let names = program.args.as_slice();
    Ok(Args {
        entries: args_entries(alloc, decls, names, value)?,
    })
}

fn seed_from(
    alloc: Global,
    program: &Program,
    args: &Args,
    of: &[Name],
    value: &Value,
) -> Result<Weights, DataError>
    ensures { Answers result
        (faults_of args.now.entries program.now.decls of.now (view value.now))
        (seed_of program.now of.now (view value.now)) }
{
    let decls = program.decls.as_slice();
    let values = args.entries.as_slice();
    Ok(Weights {
        entries: seed_entries(alloc, values, decls, of, value)?,
    })
}

/// The arguments that a data file gives: an object with exactly the names of the arguments, a number for a scalar, and
/// for an array the flat list of its elements in column-major order. Faults are told in the order of their tests:
/// scalars, arrays, then the least other name.
pub fn read_args(alloc: Global, bytes: &[u8], typed: &Typed) -> Result<Args, DataError>
    ensures json { (d : Data) → IsJson bytes.now d
        → Answers result (args_faults typed.now.decls typed.now.args d) (args_of typed.now d) }
    ensures no_json { ¬ ((d : Data) × IsJson bytes.now d) → Answers result no_json no_args }
{
    match Value::from_slice(alloc, bytes) {
        Ok(value) => args_from(alloc, typed.program(), &value),
        Err(error) => Err(if error.is_memory() {
            DataError::Memory
        } else {
            DataError::NotJson
        }),
    }
}

/// The weights that a seed file gives: an object with exactly the names of `of`, shaped as the arguments are.
pub fn read_seed(
    alloc: Global,
    bytes: &[u8],
    typed: &Typed,
    args: &Args,
    of: &[Name],
) -> Result<Weights, DataError>
    ensures json { (d : Data) → IsJson bytes.now d
        → Answers result (faults_of args.now.entries typed.now.decls of.now d)
        (seed_of typed.now of.now d) }
    ensures no_json { ¬ ((d : Data) × IsJson bytes.now d) → Answers result no_json no_weights }
{
    match Value::from_slice(alloc, bytes) {
        Ok(value) => seed_from(alloc, typed.program(), args, of, &value),
        Err(error) => Err(if error.is_memory() {
            DataError::Memory
        } else {
            DataError::NotJson
        }),
    }
}
