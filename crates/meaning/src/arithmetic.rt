ghost use Rattle.std.specs.Prelude.{◌≡◌, [], ◌∷◌};
ghost use Rattle.meaning.specs.Values.{dual_add, dual_sub, dual_neg, dual_mul, dual_pow, cause_of, as_dual, as_kind, rank, whole_number, literal_value, index_result, ring_result, binary_result, negation_result, power_result, larger_result, smaller_result, absolute_result, remainder, call_result, compares, ranks as ranks_lem, relates as relates_lem};
ghost use Rattle.meaning.specs.declared.value.Value.{Value};

use crate::value::{Cause, Dual, Value};
use fl_ast::{BinOp, Fun, Kind, RelOp};
use ring_core::{Index, IndexTrap, Ring, Width};

impl From<IndexTrap> for Cause {
    ghost from_gives = { λ t c. c ≡ cause_of t };

    fn from(trap: IndexTrap) -> Cause {
        match trap {
            IndexTrap::Range => Cause::Range,
            IndexTrap::ZeroDivisor => Cause::ZeroDivisor,
        }
    }
}

impl Dual {
    /// A value that no direction moves.
    pub fn constant(value: Ring) -> Dual
        ensures { result ≡ record { value = value; tangent = 0 } }
    {
        Dual {
            value,
            tangent: Ring::of_word(0),
        }
    }

    pub fn add(self, other: Dual) -> Dual
        ensures { result ≡ dual_add self other }
    {
        Dual {
            value: self.value.add(other.value),
            tangent: self.tangent.add(other.tangent),
        }
    }

    pub fn sub(self, other: Dual) -> Dual
        ensures { result ≡ dual_sub self other }
    {
        Dual {
            value: self.value.sub(other.value),
            tangent: self.tangent.sub(other.tangent),
        }
    }

    pub fn neg(self) -> Dual
        ensures { result ≡ dual_neg self }
    {
        Dual {
            value: self.value.neg(),
            tangent: self.tangent.neg(),
        }
    }

    pub fn mul(self, other: Dual) -> Dual
        ensures { result ≡ dual_mul self other }
    {
        let left = self.value.mul(other.tangent);
        let right = self.tangent.mul(other.value);
        Dual {
            value: self.value.mul(other.value),
            tangent: left.add(right),
        }
    }

    /// The product of so many factors, by one power of the value.
    #[tactic(auto, using(crate::proofs::Powers::powers))]
    pub fn pow(self, exponent: u32) -> Dual
        ensures { result ≡ dual_pow self exponent }
    {
        if exponent == 0 {
            return Dual::constant(Ring::of_word(1));
        }
        let less = self.value.pow(exponent - 1);
        Dual {
            value: self.value.pow(exponent),
            tangent: Ring::of_word(u64::from(exponent))
                .mul(less)
                .mul(self.tangent),
        }
    }
}

impl Value {
    /// The value as one of the ring kind; an index value has tangent 0.
    pub fn as_dual(self) -> Dual
        ensures { result ≡ as_dual self }
    {
        match self {
            Value::Index(index) => Dual::constant(Ring::from_signed(i64::from(index.value()))),
            Value::Ring(dual) => dual,
        }
    }

    /// What a name of a kind holds when it is set to this value.
    pub fn as_kind(self, kind: Kind) -> Value
        ensures { result ≡ as_kind kind self }
    {
        match kind {
            Kind::Ring => Value::Ring(self.as_dual()),
            Kind::Index => self,
        }
    }

    /// The number by which values are compared, of a ring value at the width of data.
    pub fn rank(&self, width: Width) -> i64
        ensures { result ≡ rank width self.now }
    {
        match self {
            Value::Index(index) => i64::from(index.value()),
            Value::Ring(dual) => dual.value.signed_at(width),
        }
    }

    /// The number of an index value, 0 of a ring value.
    pub fn whole_number(&self) -> i32
        ensures { result ≡ whole_number self.now }
    {
        match self {
            Value::Index(index) => index.value(),
            Value::Ring(_) => 0,
        }
    }

    pub fn neg(self) -> Result<Value, Cause>
        ensures { result ≡ negation_result self }
    {
        match self {
            Value::Index(index) => Ok(Value::Index(index.neg()?)),
            Value::Ring(dual) => Ok(Value::Ring(dual.neg())),
        }
    }

    pub fn pow(self, exponent: u32) -> Result<Value, Cause>
        ensures { result ≡ power_result self exponent }
    {
        match self {
            Value::Index(index) => Ok(Value::Index(index.pow(exponent)?)),
            Value::Ring(dual) => Ok(Value::Ring(dual.pow(exponent))),
        }
    }

    pub fn max(self, other: Value, width: Width) -> Result<Value, Cause>
        ensures { result ≡ larger_result width self other }
    {
        if self.rank(width) >= other.rank(width) {
            Ok(self)
        } else {
            Ok(other)
        }
    }

    pub fn min(self, other: Value, width: Width) -> Result<Value, Cause>
        ensures { result ≡ smaller_result width self other }
    {
        if self.rank(width) <= other.rank(width) {
            Ok(self)
        } else {
            Ok(other)
        }
    }

    pub fn abs(self, width: Width) -> Result<Value, Cause>
        ensures { result ≡ absolute_result width self }
    {
        if self.rank(width) < 0 {
            self.neg()
        } else {
            Ok(self)
        }
    }

    pub fn rem(self, other: Value) -> Result<Value, Cause>
        ensures { result ≡ remainder self other }
    {
        match self {
            Value::Index(left) => match other {
                Value::Index(right) => Ok(Value::Index(left.rem(right)?)),
                Value::Ring(_) => Err(Cause::Range),
            },
            Value::Ring(_) => Err(Cause::Range),
        }
    }
}

/// A literal's value.
#[tactic(auto, using(ring_core::proofs::Fits::fits))]
pub fn literal(word: u64, kind: Kind) -> Result<Value, Cause>
    ensures { result ≡ literal_value word kind }
{
    match kind {
        Kind::Index => match i32::try_from(word) {
            Ok(value) => Ok(Value::Index(Index::of(value))),
            Err(_) => Err(Cause::Range),
        },
        Kind::Ring => Ok(Value::Ring(Dual::constant(Ring::of_word(word)))),
    }
}

fn on_index(op: BinOp, left: Index, right: Index) -> Result<Value, Cause>
    ensures { result ≡ index_result op left right }
{
    let found = match op {
        BinOp::Add => left.add(right),
        BinOp::Sub => left.sub(right),
        BinOp::Mul => left.mul(right),
        BinOp::Div => left.div(right),
    };
    Ok(Value::Index(found?))
}

fn on_ring(op: BinOp, left: Dual, right: Dual) -> Result<Value, Cause>
    ensures { result ≡ ring_result op left right }
{
    match op {
        BinOp::Add => Ok(Value::Ring(left.add(right))),
        BinOp::Sub => Ok(Value::Ring(left.sub(right))),
        BinOp::Mul => Ok(Value::Ring(left.mul(right))),
        BinOp::Div => Err(Cause::Range),
    }
}

/// The sum, difference, product or quotient; of two kinds the index operand is converted to the ring kind.
pub fn binary(op: BinOp, left: Value, right: Value) -> Result<Value, Cause>
    ensures { result ≡ binary_result op left right }
{
    match left {
        Value::Index(index) => match right {
            Value::Index(other) => on_index(op, index, other),
            Value::Ring(dual) => on_ring(op, left.as_dual(), dual),
        },
        Value::Ring(dual) => on_ring(op, dual, right.as_dual()),
    }
}

fn on_two(width: Width, fun: Fun, left: Value, right: Value) -> Result<Value, Cause>
    ensures { result ≡ call_result width fun (left ∷ right ∷ []) }
{
    match fun {
        Fun::Max => left.max(right, width),
        Fun::Min => left.min(right, width),
        Fun::Mod => left.rem(right),
        Fun::Abs => Err(Cause::Range),
    }
}

/// The intrinsic's value at its arguments; ring values are compared at the width of data.
pub fn intrinsic(width: Width, fun: Fun, args: &[Value]) -> Result<Value, Cause>
    ensures { result ≡ call_result width fun args.now }
{
    match args {
        [value] => match fun {
            Fun::Abs => value.abs(width),
            _ => Err(Cause::Range),
        },
        [left, right] => on_two(width, fun, *left, *right),
        _ => Err(Cause::Range),
    }
}

/// The numbers by which two values are compared; of two kinds the index value is converted to the ring kind.
fn ranks(width: Width, left: Value, right: Value) -> (i64, i64)
    ensures { result ≡ ranks_lem width left right }
{
    match left {
        Value::Index(index) => match right {
            Value::Index(other) => (i64::from(index.value()), i64::from(other.value())),
            Value::Ring(dual) => (
                left.as_dual().value.signed_at(width),
                dual.value.signed_at(width),
            ),
        },
        Value::Ring(dual) => (
            dual.value.signed_at(width),
            right.as_dual().value.signed_at(width),
        ),
    }
}

fn compares_by(op: RelOp, left: i64, right: i64) -> bool
    ensures { result ≡ compares op left right }
{
    match op {
        RelOp::Eq => left == right,
        RelOp::Ne => left != right,
        RelOp::Lt => left < right,
        RelOp::Le => left <= right,
        RelOp::Gt => left > right,
        RelOp::Ge => left >= right,
    }
}

/// Whether a relation holds. Ring values are compared by their representatives in -2^(B-1) .. 2^(B-1)-1, B being the width of data.
pub fn relates(width: Width, op: RelOp, left: Value, right: Value) -> bool
    ensures { result ≡ relates_lem width op left right }
{
    let (left, right) = ranks(width, left, right);
    compares_by(op, left, right)
}
