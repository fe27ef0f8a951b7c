ghost use Rattle.std.specs.Prelude.{◌≡◌, IfOk};

use fl_base::{Items, Memory, Name};
use std::alloc::Global;

#[derive(Clone, Copy, Debug, PartialEq, Eq)]
pub enum Side {
    One,
    Two,
}

#[cycle(form)]
#[derive(Drop)]
pub enum Atom {
    Start,
    Iter(Side),
    Inner(Side, u32),
    Inv(Name),
    Version(Side, u32, Name),
    Read(Name, Items<Form>),
    Opaque(Side, u32, u32),
    Start2,
    Iter2(Side),
}

#[cycle(form)]
#[derive(Drop)]
pub struct Form {
    pub constant: i64,
    pub terms: Items<(Atom, i64)>,
}

impl Atom {
    #[cycle(form_clone)]
    pub fn clone(&self, alloc: Global) -> Result<Atom, Memory>
        ensures { IfOk result (λ a. a ≡ self.now) }
    {
        match self {
            Atom::Start => Ok(Atom::Start),
            Atom::Iter(s) => Ok(Atom::Iter(*s)),
            Atom::Inner(s, l) => Ok(Atom::Inner(*s, *l)),
            Atom::Inv(n) => Ok(Atom::Inv(n.clone(alloc)?)),
            Atom::Version(s, l, n) => Ok(Atom::Version(*s, *l, n.clone(alloc)?)),
            Atom::Read(n, fs) => clone_read(alloc, n, fs.as_slice()),
            Atom::Opaque(s, a, n) => Ok(Atom::Opaque(*s, *a, *n)),
            Atom::Start2 => Ok(Atom::Start2),
            Atom::Iter2(s) => Ok(Atom::Iter2(*s)),
        }
    }
}

#[cycle(form_clone)]
fn clone_read(alloc: Global, name: &Name, forms: &[Form]) -> Result<Atom, Memory>
    ensures { IfOk result (λ a. a ≡ Atom.Read name.now forms.now) }
{
    let inner = clone_forms(alloc, forms)?;
    Ok(Atom::Read(name.clone(alloc)?, inner))
}

impl Form {
    #[cycle(form_clone)]
    pub fn clone(&self, alloc: Global) -> Result<Form, Memory>
        ensures { IfOk result (λ f. f ≡ self.now) }
    {
        Ok(Form {
            constant: self.constant,
            terms: clone_terms(alloc, self.terms.as_slice())?,
        })
    }
}

#[cycle(form_clone)]
fn clone_forms(alloc: Global, forms: &[Form]) -> Result<Items<Form>, Memory>
    ensures { IfOk result (λ l. l ≡ forms.now) }
{
    let mut all = Items::new(alloc);
    for i in 0..forms.len() {
        all.push(forms[i].clone(alloc)?)?;
    }
    Ok(all)
}

#[cycle(form_clone)]
fn clone_terms(alloc: Global, terms: &[(Atom, i64)]) -> Result<Items<(Atom, i64)>, Memory>
    ensures { IfOk result (λ l. l ≡ terms.now) }
{
    let mut all = Items::new(alloc);
    for i in 0..terms.len() {
        let (atom, k) = &terms[i];
        all.push((atom.clone(alloc)?, *k))?;
    }
    Ok(all)
}
