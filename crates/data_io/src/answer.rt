ghost use Rattle.std.specs.Prelude.{false, ◌≡◌, IfOk, OnOk};
ghost use Rattle.serde_json.specs.View.{view, members_view};
ghost use Rattle.serde_json.specs.Data.{no_members, object};
ghost use Rattle.serde_json.specs.Written.{compact_text, members_have_float};
ghost use Rattle.data_io.specs.Written.{signed, shown, put_all, text_of, word_of, choice_of, choices_of, race_of, put_race_of, members, tangent_members};

use fl_base::{Memory, Name};
use fl_types::{Choice, Choices, Chosen};
use serde_json::Value;
use serde_json::value::Map;
use std::alloc::Global;
use std::str;
use store_core::{Entry, Weights};

/// A place that two iterations reach at once, by its text.
#[derive(Drop)]
pub struct RaceText {
    pub first: u64,
    pub place: Name,
    pub second: u64,
}

/// What a run answers. `race` is told by a replay alone, and holds nothing where there was no race.
#[derive(Drop)]
pub struct Answer {
    pub adds: u64,
    pub adjoint: Weights,
    pub value: Weights,
    pub choices: Choices,
    pub race: Option<Option<RaceText>>,
}

/// A word as a JSON number, by its signed representative.
fn number(word: u64) -> Value
    ensures { view result ≡ signed word }
{
    Value::from(word.cast_signed())
}

/// A name as text; one that isn't UTF-8 is the empty text.
fn text(name: &Name) -> &str
    ensures { result.now ≡ text_of name.now }
{
    match str::from_utf8(name.bytes()) {
        Ok(text) => text,
        Err(_) => "",
    }
}

/// The words of a name as JSON: a number for a scalar, a list for an array.
fn show(alloc: Global, scalar: bool, words: &[u64]) -> Result<Value, Memory>
    ensures { IfOk result (λ v. view v ≡ shown scalar words.now) }
{
    if scalar {
        return Ok(number(match words {
            [word, ..] => *word,
            [] => 0,
        }));
    }
    let mut items = Vec::with_capacity(alloc, words.len())?;
    for word in words {
        items.push(number(*word))?;
    }
    Ok(Value::Array(items))
}

/// The entries as a JSON object.
fn show_all(alloc: Global, entries: &[Entry]) -> Result<Map<String, Value>, Memory>
    ensures { IfOk result (λ m. members_view m.entries ≡ put_all no_members entries.now) }
{
    let mut members = Map::new(alloc);
    for entry in entries {
        let shown = show(alloc, entry.scalar, entry.words.as_slice())?;
        serde_json::put(&mut members, alloc, text(&entry.name), shown)?;
    }
    Ok(members)
}

fn word(choice: Choice) -> &'static str
    ensures { result.now ≡ word_of choice }
{
    match choice {
        Choice::Shared => "shared",
        Choice::Atomic => "atomic",
        Choice::Reduction => "reduction",
    }
}

/// A choice as text, as `1:x:shared`.
fn show_choice(alloc: Global, chosen: &Chosen) -> Result<Value, Memory>
    ensures { IfOk result (λ v. view v ≡ choice_of chosen.now) }
{
    let loop_number = chosen.loop_number;
    let name = text(&chosen.name);
    let choice = word(chosen.choice);
    Ok(Value::String(format!(in alloc; "{loop_number}:{name}:{choice}")?))
}

fn show_choices(alloc: Global, choices: &[Chosen]) -> Result<Value, Memory>
    ensures { IfOk result (λ v. view v ≡ choices_of choices.now) }
{
    let mut items = Vec::with_capacity(alloc, choices.len())?;
    for chosen in choices {
        items.push(show_choice(alloc, chosen)?)?;
    }
    Ok(Value::Array(items))
}

fn show_race(alloc: Global, race: &Option<RaceText>) -> Result<Value, Memory>
    ensures { IfOk result (λ v. view v ≡ race_of race.now) }
{
    match race {
        Some(race) => {
            let mut members = Map::new(alloc);
            serde_json::put(&mut members, alloc, "first", Value::from(race.first))?;
            let place = String::from_str(alloc, text(&race.place))?;
            serde_json::put(&mut members, alloc, "place", Value::String(place))?;
            serde_json::put(&mut members, alloc, "second", Value::from(race.second))?;
            Ok(Value::Object(members))
        }
        None => Ok(Value::Null),
    }
}

fn put_race(
    alloc: Global,
    members: &mut Map<String, Value>,
    race: &Option<Option<RaceText>>,
) -> Result<(), Memory>
    ensures { OnOk result (members_view members.new.entries
        ≡ put_race_of race.now (members_view members.old.entries)) }
{
    match race {
        Some(race) => {
            serde_json::put(members, alloc, "race", show_race(alloc, race)?)?;
            Ok(())
        }
        None => Ok(()),
    }
}

/// The members of an answer.
fn answer_members(alloc: Global, answer: &Answer) -> Result<Map<String, Value>, Memory>
    ensures { IfOk result (λ m. members_view m.entries ≡ members answer.now) }
{
    let mut members = Map::new(alloc);
    serde_json::put(&mut members, alloc, "adds", Value::from(answer.adds))?;
    let adjoint = show_all(alloc, answer.adjoint.entries.as_slice())?;
    serde_json::put(&mut members, alloc, "adjoint", Value::Object(adjoint))?;
    let choices = show_choices(alloc, answer.choices.entries.as_slice())?;
    serde_json::put(&mut members, alloc, "choices", choices)?;
    put_race(alloc, &mut members, &answer.race)?;
    let value = show_all(alloc, answer.value.entries.as_slice())?;
    serde_json::put(&mut members, alloc, "value", Value::Object(value))?;
    Ok(members)
}

/// The bytes of an object without floats.
fn object_bytes(alloc: Global, members: Map<String, Value>) -> Result<Vec<u8>, Memory>
    requires { members_have_float (members_view members.entries) ≡ false }
    ensures { IfOk result (λ bytes. bytes.items
        ≡ compact_text (object (members_view members.entries))) }
{
    let value = Value::Object(members);
    Ok(value.to_vec(alloc)?)
}

/// An answer as compact JSON with its keys in byte order, as
/// `{"adds":0,"adjoint":{"x":13},"choices":[],"value":{"y":40}}`. No line feed ends it.
pub fn write_answer(alloc: Global, answer: &Answer) -> Result<Vec<u8>, Memory>
    ensures { IfOk result (λ bytes. bytes.items ≡ compact_text (object (members answer.now))) }
{
    object_bytes(alloc, answer_members(alloc, answer)?)
}

/// The members of an answer in a direction.
fn direction_members(
    alloc: Global,
    tangent: &Weights,
    value: &Weights,
) -> Result<Map<String, Value>, Memory>
    ensures { IfOk result (λ m. members_view m.entries ≡ tangent_members tangent.now value.now) }
{
    let mut members = Map::new(alloc);
    let tangent = show_all(alloc, tangent.entries.as_slice())?;
    serde_json::put(&mut members, alloc, "tangent", Value::Object(tangent))?;
    let value = show_all(alloc, value.entries.as_slice())?;
    serde_json::put(&mut members, alloc, "value", Value::Object(value))?;
    Ok(members)
}

/// Tangents and values as compact JSON, as `{"tangent":{"x":1,"y":13},"value":{"x":5,"y":40}}`. No line feed ends it.
pub fn write_tangent(alloc: Global, tangent: &Weights, value: &Weights) -> Result<Vec<u8>, Memory>
    ensures { IfOk result (λ bytes. bytes.items ≡ compact_text (object (tangent_members tangent.now value.now))) }
{
    object_bytes(alloc, direction_members(alloc, tangent, value)?)
}
