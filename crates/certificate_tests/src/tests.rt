use acceptance::{LoopKnowledge, accept};
use certificate::{Derivation, Given, Heading, print_cert, read_cert};
use disjoint_prover::prove;
use fl_base::{Boxed, Items, Memory, Name};
use index_forms::{Atom, Counter, Form, Scene, Side};
use index_knowledge::Pair;
use std::alloc::Global;
use std::test::Fail;

/// A derivation, and whether it is accepted for the pair.
struct Row {
    text: &'static [u8],
    is_accepted: bool,
}

static ROWS: [Row; 5] = [
    Row {
        text: b"formad 1\npair 1 1 2\nhyp 1\nclose residue 1\nend\n",
        is_accepted: true,
    },
    Row {
        text: b"formad 1\npair 1 1 2\nhyp 1\ncomb 3 1 -1 1\nclose residue 2\nend\n",
        is_accepted: true,
    },
    Row {
        text: b"formad 1\npair 1 1 2\nhyp 1\ncomb 2 1\nclose residue 2\nend\n",
        is_accepted: true,
    },
    Row {
        text: b"formad 1\npair 1 1 2\nhyp 1\nclose distinct 1\nend\n",
        is_accepted: false,
    },
    Row {
        text: b"formad 1\npair 1 1 2\nhyp 1\nhyp 2\nclose residue 1\nend\n",
        is_accepted: false,
    },
];

fn no_names(alloc: Global) -> Scene {
    Scene {
        side: Side::One,
        unshared: Items::new(alloc),
        written: Items::new(alloc),
        ring: Items::new(alloc),
        counter: Counter {
            name: Name::from_vec(Vec::new(alloc)),
            first: None,
            step: None,
        },
        further: None,
    }
}

fn nothing_known(alloc: Global) -> LoopKnowledge {
    LoopKnowledge {
        accesses: Items::new(alloc),
        ones: Items::new(alloc),
        twos: Items::new(alloc),
        scene: no_names(alloc),
        facts: Items::new(alloc),
        ranges: Items::new(alloc),
        second: None,
    }
}

/// `2*Iter(One) - 2*Iter(Two) - 1`
fn difference(alloc: Global) -> Result<Form, Memory> {
    let mut terms = Items::new(alloc);
    terms.push((Atom::Iter(Side::One), 2))?;
    terms.push((Atom::Iter(Side::Two), -2))?;
    Ok(Form {
        constant: -1,
        terms,
    })
}

fn pair(alloc: Global) -> Result<Boxed<Pair>, Memory> {
    let mut differences = Items::new(alloc);
    differences.push(difference(alloc)?)?;
    Boxed::new(
        alloc,
        Pair {
            loop_number: 1,
            first: 1,
            second: 2,
            differences,
            nest: 1,
        },
    )
}

fn text_of(alloc: Global, derivation: Derivation) -> Result<Vec<u8>, Memory> {
    let mut givens = Items::new(alloc);
    givens.push(Given {
        heading: Heading {
            line: 2,
            loop_number: 1,
            first: 1,
            second: 2,
        },
        derivation,
    })?;
    Ok(print_cert(alloc, givens.as_slice())?)
}

/// The text of the stated derivation, empty where the pair isn't plain.
fn stated_text(alloc: Global) -> Result<Vec<u8>, Memory> {
    let pair = pair(alloc)?;
    match prove(alloc, &nothing_known(alloc), pair.get())? {
        Some(derivation) => text_of(alloc, derivation),
        None => Ok(Vec::new(alloc)),
    }
}

/// Whether the text has one derivation, which is accepted for the pair.
fn is_accepted(alloc: Global, text: &[u8]) -> Result<bool, Memory> {
    let pair = pair(alloc)?;
    match read_cert(alloc, text) {
        Ok(givens) => match givens.as_slice() {
            [given] => accept(alloc, &nothing_known(alloc), pair.get(), &given.derivation),
            _ => Ok(false),
        },
        Err(_) => Err(Memory),
    }
}

#[test]
fn odd_differences_leave_a_remainder(rt: HostRuntime) -> Result<(), Fail> {
    let text = stated_text(rt.alloc())?;
    assert_eq!(rt; text.as_slice(), ROWS[0].text);
    Ok(())
}

#[test]
fn derivations_are_accepted_by_the_rules(rt: HostRuntime) -> Result<(), Fail> {
    for row in &ROWS {
        assert_eq!(rt; is_accepted(rt.alloc(), row.text)?, row.is_accepted);
    }
    Ok(())
}
