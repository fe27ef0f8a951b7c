//! Nodes over operands of either kind, each standing for what it is made of.

ghost use Rattle.std.specs.Prelude.{◌≡◌, ℕ, Bool, true, ◌&&◌, List, [], ◌∷◌, IfOk};
ghost use Rattle.fl_ast.specs.Tree.{Expression, literal as literal_tree, get, minus, power as power_tree, binary as binary_tree, call, Designator, relation as relation_tree};
ghost use Rattle.fl_ast.specs.declared.kind.Fun.TheVariants.{Abs as abs};
ghost use Rattle.fl_types.specs.Kinds.{literal_fits, takes_operands, takes_arguments};
ghost use Rattle.meaning.specs.Sites.{kind_of};
ghost use Rattle.store_core.specs.declared.layout.Shape.{Shape};
ghost use Rattle.resolved.specs.SlotTables.{Names, kind_at, table_site};
ghost use Rattle.sweep_trees.specs.Split.{ring_tree, index_tree, spot_tree, test_tree, ring_test, ring_binary as ring_binary_tree};
ghost use Rattle.sweep_trees.specs.Standing.{one, two, op_back, index_back, ring_back, is_index_fit};
ghost use Rattle.split_trees.specs.Codes.{code_tree, code_kind, ring_code, index_code, as_ring as as_ring_lem, is_code_fit, StandsFor, SpotStandsFor, TestStandsFor};

use crate::code::Code;
use fl_ast::{BinOp, Fun, Kind, Memory, RelOp};
use fl_base::Boxed;
use std::alloc::Global;
use sweep_trees::{IndexCode, RingCode, RingOp, Spot, TestCode};

/// A tree of the ring kind as an expression.
pub(crate) fn in_ring(alloc: Global, code: RingCode) -> Result<Code, Memory>
    ensures { IfOk result (λ made. code_tree made ≡ ring_code (ring_tree code)) }
{
    Ok(Code::Ring(Boxed::new(alloc, code)?))
}

/// A tree of the index kind as an expression.
pub(crate) fn in_index(alloc: Global, code: IndexCode) -> Result<Code, Memory>
    ensures { IfOk result (λ made. code_tree made ≡ index_code (index_tree code)) }
{
    Ok(Code::Index(Boxed::new(alloc, code)?))
}

/// An expression as one of the ring kind.
pub(crate) fn as_ring(code: Code) -> RingCode
    ensures { ring_tree result ≡ as_ring_lem (code_tree code) }
{
    match code {
        Code::Ring(code) => code.into_inner(),
        Code::Index(code) => RingCode::Widened(code.into_inner()),
    }
}

pub(crate) fn negated(alloc: Global, inner: Code) -> Result<Code, Memory>
    ensures { (names : Names) → (flags : List Bool) → (e : Expression) → StandsFor names flags e (code_tree inner)
        → IfOk result (λ made. StandsFor names flags (minus e) (code_tree made)) }
{
    match inner {
        Code::Ring(inner) => in_ring(alloc, RingCode::Negated(inner)),
        Code::Index(inner) => in_index(alloc, IndexCode::Negated(inner)),
    }
}

pub(crate) fn power(alloc: Global, base: Code, exponent: u32) -> Result<Code, Memory>
    ensures { (names : Names) → (flags : List Bool) → (e : Expression) → StandsFor names flags e (code_tree base)
        → IfOk result (λ made. StandsFor names flags (power_tree e exponent) (code_tree made)) }
{
    match base {
        Code::Ring(base) => in_ring(alloc, RingCode::Power { base, exponent }),
        Code::Index(base) => in_index(alloc, IndexCode::Power { base, exponent }),
    }
}

pub(crate) fn absolute(alloc: Global, inner: Code) -> Result<Code, Memory>
    ensures { (names : Names) → (flags : List Bool) → (e : Expression) → StandsFor names flags e (code_tree inner)
        → IfOk result (λ made. StandsFor names flags (call abs (one e)) (code_tree made)) }
{
    match inner {
        Code::Ring(inner) => in_ring(alloc, RingCode::Absolute(inner)),
        Code::Index(inner) => in_index(alloc, IndexCode::Absolute(inner)),
    }
}

pub(crate) fn literal(alloc: Global, word: u64, kind: Kind) -> Result<Code, Memory>
    requires { literal_fits word kind ≡ true }
    ensures { (names : Names) → (flags : List Bool) → IfOk result (λ made. StandsFor names flags (literal_tree word kind) (code_tree made)) }
{
    match kind {
        Kind::Ring => in_ring(alloc, RingCode::Word(word)),
        Kind::Index => in_index(alloc, IndexCode::Number(word as i32)),
    }
}

/// What stands at an occurrence of a name of the kind.
pub(crate) fn content(alloc: Global, kind: Kind, spot: Spot) -> Result<Code, Memory>
    ensures { (names : Names) → (flags : List Bool) → (slot : ℕ) → (p : Designator) → kind ≡ kind_at names.1 slot
        → kind ≡ kind_of (table_site names) p.name → SpotStandsFor names flags slot p (spot_tree spot)
        → IfOk result (λ made. StandsFor names flags (get p.name p.subscripts) (code_tree made)) }
{
    match kind {
        Kind::Ring => in_ring(alloc, RingCode::Get(spot)),
        Kind::Index => in_index(alloc, IndexCode::Get(spot)),
    }
}

/// The operation on data.
fn ring_op(op: BinOp) -> RingOp
    requires { takes_operands op Kind.Ring Kind.Index ≡ true }
    ensures { op_back result ≡ op }
{
    match op {
        BinOp::Add => RingOp::Add,
        BinOp::Sub => RingOp::Sub,
        BinOp::Mul => RingOp::Mul,
        BinOp::Div => unreachable!(),
    }
}

fn ring_binary(alloc: Global, op: RingOp, left: Code, right: Code) -> Result<Code, Memory>
    ensures { IfOk result (λ made. code_tree made ≡ ring_code (ring_binary_tree op (as_ring_lem (code_tree left)) (as_ring_lem (code_tree right)))) }
{
    let left = Boxed::new(alloc, as_ring(left))?;
    let right = Boxed::new(alloc, as_ring(right))?;
    in_ring(alloc, RingCode::Binary { op, left, right })
}

/// An operation, on data where one operand is data.
pub(crate) fn binary(alloc: Global, op: BinOp, left: Code, right: Code) -> Result<Code, Memory>
    requires { takes_operands op (code_kind (code_tree left)) (code_kind (code_tree right)) ≡ true }
    ensures { (names : Names) → (flags : List Bool) → (a b : Expression) → StandsFor names flags a (code_tree left) → StandsFor names flags b (code_tree right)
        → IfOk result (λ made. StandsFor names flags (binary_tree op a b) (code_tree made)) }
{
    match (left, right) {
        (Code::Index(left), Code::Index(right)) => {
            in_index(alloc, IndexCode::Binary { op, left, right })
        }
        (left, right) => ring_binary(alloc, ring_op(op), left, right),
    }
}

fn index_of_two(fun: Fun, left: Boxed<IndexCode>, right: Boxed<IndexCode>) -> IndexCode
    requires { takes_arguments fun (Kind.Index ∷ Kind.Index ∷ []) ≡ true }
    ensures back { (shapes : List Shape) → index_back shapes (index_tree result) ≡ call fun (two (index_back shapes (index_tree left)) (index_back shapes (index_tree right))) }
    ensures fit { (names : Names) → (flags : List Bool)
        → is_index_fit names flags (index_tree result) ≡ (is_index_fit names flags (index_tree left) && is_index_fit names flags (index_tree right)) }
{
    match fun {
        Fun::Max => IndexCode::Larger(left, right),
        Fun::Min => IndexCode::Smaller(left, right),
        Fun::Mod => IndexCode::Remainder(left, right),
        Fun::Abs => unreachable!(),
    }
}

fn ring_of_two(fun: Fun, left: Boxed<RingCode>, right: Boxed<RingCode>) -> RingCode
    requires { takes_arguments fun (Kind.Ring ∷ Kind.Ring ∷ []) ≡ true }
    ensures back { (shapes : List Shape) → ring_back shapes (ring_tree result) ≡ call fun (two (ring_back shapes (ring_tree left)) (ring_back shapes (ring_tree right))) }
    ensures fit { (names : Names) → (flags : List Bool) → is_code_fit names flags (ring_code (ring_tree result))
        ≡ (is_code_fit names flags (ring_code (ring_tree left)) && is_code_fit names flags (ring_code (ring_tree right))) }
{
    match fun {
        Fun::Max => RingCode::Larger(left, right),
        Fun::Min => RingCode::Smaller(left, right),
        Fun::Mod | Fun::Abs => unreachable!(),
    }
}

/// A call with two arguments.
pub(crate) fn of_two(alloc: Global, fun: Fun, left: Code, right: Code) -> Result<Code, Memory>
    requires { takes_arguments fun (code_kind (code_tree left) ∷ code_kind (code_tree right) ∷ []) ≡ true }
    ensures { (names : Names) → (flags : List Bool) → (a b : Expression) → StandsFor names flags a (code_tree left) → StandsFor names flags b (code_tree right)
        → IfOk result (λ made. StandsFor names flags (call fun (two a b)) (code_tree made)) }
{
    match (left, right) {
        (Code::Index(left), Code::Index(right)) => in_index(alloc, index_of_two(fun, left, right)),
        (Code::Ring(left), Code::Ring(right)) => in_ring(alloc, ring_of_two(fun, left, right)),
        _ => unreachable!(),
    }
}

fn ring_relation(
    alloc: Global,
    op: RelOp,
    left: Code,
    right: Code,
) -> Result<Boxed<TestCode>, Memory>
    ensures { IfOk result (λ test. test_tree test ≡ ring_test op (as_ring_lem (code_tree left)) (as_ring_lem (code_tree right))) }
{
    let left = as_ring(left);
    let right = as_ring(right);
    Boxed::new(alloc, TestCode::Rings { op, left, right })
}

/// A relation, between numbers of the index kind where both operands are such.
pub(crate) fn relation(
    alloc: Global,
    op: RelOp,
    left: Code,
    right: Code,
) -> Result<Boxed<TestCode>, Memory>
    ensures { (names : Names) → (flags : List Bool) → (a b : Expression) → StandsFor names flags a (code_tree left) → StandsFor names flags b (code_tree right)
        → IfOk result (λ test. TestStandsFor names flags (relation_tree op a b) (test_tree test)) }
{
    match (left, right) {
        (Code::Index(left), Code::Index(right)) => {
            let left = left.into_inner();
            let right = right.into_inner();
            Boxed::new(alloc, TestCode::Indices { op, left, right })
        }
        (left, right) => ring_relation(alloc, op, left, right),
    }
}
