//! How signs and names of the language are spelled.

ghost use Rattle.std.specs.Prelude.{◌≡◌};
ghost use Rattle.fl_printer.specs.Words as spec;

use fl_ast::{BinOp, Fun, Intent, Kind, RelOp, ScheduleKind, Sign};

pub fn operator_text(op: BinOp) -> &'static [u8]
    ensures { result.now ≡ spec.operator_text op }
{
    match op {
        BinOp::Add => b"+",
        BinOp::Sub => b"-",
        BinOp::Mul => b"*",
        BinOp::Div => b"/",
    }
}

pub fn relation_text(op: RelOp) -> &'static [u8]
    ensures { result.now ≡ spec.relation_text op }
{
    match op {
        RelOp::Eq => b"==",
        RelOp::Ne => b"/=",
        RelOp::Lt => b"<",
        RelOp::Le => b"<=",
        RelOp::Gt => b">",
        RelOp::Ge => b">=",
    }
}

pub fn function_text(fun: Fun) -> &'static [u8]
    ensures { result.now ≡ spec.function_text fun }
{
    match fun {
        Fun::Max => b"max",
        Fun::Min => b"min",
        Fun::Abs => b"abs",
        Fun::Mod => b"mod",
    }
}

pub fn suffix_text(kind: Kind) -> &'static [u8]
    ensures { result.now ≡ spec.suffix_text kind }
{
    match kind {
        Kind::Index => b"",
        Kind::Ring => b"_8",
    }
}

pub fn sign_text(sign: Sign) -> &'static [u8]
    ensures { result.now ≡ spec.sign_text sign }
{
    match sign {
        Sign::Plus => b"+",
        Sign::Minus => b"-",
    }
}

pub fn intent_text(intent: Intent) -> &'static [u8]
    ensures { result.now ≡ spec.intent_text intent }
{
    match intent {
        Intent::Unsaid => b"",
        Intent::ReadOnly => b"in",
        Intent::WriteOnly => b"out",
        Intent::Both => b"inout",
    }
}

pub fn schedule_text(kind: ScheduleKind) -> &'static [u8]
    ensures { result.now ≡ spec.schedule_text kind }
{
    match kind {
        ScheduleKind::Static => b"static",
        ScheduleKind::Dynamic => b"dynamic",
        ScheduleKind::Guided => b"guided",
        ScheduleKind::Auto => b"auto",
        ScheduleKind::Runtime => b"runtime",
    }
}
