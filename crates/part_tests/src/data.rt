use data_io::{Answer, write_answer};
use fl_ast::Name;
use fl_base::Items;
use fl_types::{Choice, Choices, Chosen};
use std::alloc::Global;
use std::test::Fail;
use store_core::{Entry, Tape, Weights};

#[test]
fn words_come_off_the_tape(rt: HostRuntime) -> Result<(), Fail> {
    let mut tape = Tape::new(rt.alloc());
    tape.push(3)?;
    assert_eq!(rt; tape.pop(), 3);
    Ok(())
}

fn one_entry(alloc: Global, word: u64) -> Result<Weights, Fail> {
    let name = Name::of(alloc, b"y")?;
    let words = Items::from_slice(alloc, &[word])?;
    let mut entries = Items::new(alloc);
    entries.push(Entry {
        name,
        scalar: true,
        words,
    })?;
    Ok(Weights { entries })
}

fn one_choice(alloc: Global) -> Result<Choices, Fail> {
    let name = Name::of(alloc, b"x")?;
    let mut entries = Items::new(alloc);
    entries.push(Chosen {
        loop_number: 1,
        name,
        choice: Choice::Atomic,
    })?;
    Ok(Choices { entries })
}

fn answer(alloc: Global) -> Result<Answer, Fail> {
    let adjoint = one_entry(alloc, 7)?;
    let value = one_entry(alloc, u64::MAX)?;
    let choices = one_choice(alloc)?;
    Ok(Answer {
        adds: 0,
        adjoint,
        value,
        choices,
        race: Some(None),
    })
}

#[test]
fn answers_are_compact_and_signed(rt: HostRuntime) -> Result<(), Fail> {
    let text = write_answer(rt.alloc(), &answer(rt.alloc())?)?;
    let due =
        "{\"adds\":0,\"adjoint\":{\"y\":7},\"choices\":[\"1:x:atomic\"],\"race\":null,\"value\":{\"y\":-1}}";
    assert_eq!(rt; text.as_slice(), due.as_bytes());
    Ok(())
}
