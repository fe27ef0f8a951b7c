//! The error of a broken rule.

ghost use Rattle.std.specs.Prelude.{◌≡◌, IfOk};
ghost use Rattle.typing.specs.Errors.{error_by};

use crate::around::Fault;
use crate::rule::Rule;
use fl_base::{Memory, Name};
use fl_types::TypeError;
use std::alloc::Global;

fn error(rule: Rule, line: u32, name: Name) -> TypeError
    ensures { result ≡ error_by rule line name }
{
    match rule {
        Rule::Undeclared => TypeError::Undeclared { line, name },
        Rule::Doubled => TypeError::Doubled { line, name },
        Rule::ReservedSuffix => TypeError::ReservedSuffix { line, name },
        Rule::LocalArray => TypeError::LocalArray { line, name },
        Rule::Rank => TypeError::Rank { line, name },
        Rule::LiteralRange => TypeError::LiteralRange { line },
        Rule::KindClash => TypeError::KindClash { line },
        Rule::DataDivision => TypeError::DataDivision { line },
        Rule::DataToIndex => TypeError::DataToIndex { line },
        Rule::IntentIn => TypeError::IntentIn { line, name },
        Rule::SelfSubscript => TypeError::SelfSubscript { line, name },
        Rule::LoopVarUse => TypeError::LoopVarUse { line, name },
        Rule::PrivateUse => TypeError::PrivateUse { line, name },
        Rule::ReductionUse => TypeError::ReductionUse { line, name },
        Rule::AtomicForm => TypeError::AtomicForm { line },
        Rule::NotShareable => TypeError::NotShareable { line, name },
        Rule::Unlisted => TypeError::Unlisted { line, name },
        Rule::MixedKinds => TypeError::MixedKinds { line, name },
        Rule::CollapseForm => TypeError::CollapseForm { line },
    }
}

pub(crate) fn error_of(alloc: Global, fault: Fault<'_>) -> Result<TypeError, Memory>
    ensures { IfOk result (λ e. e ≡ error_by fault.entry.rule fault.entry.line fault.entry.name.now) }
{
    let name = Name::of(alloc, fault.name)?;
    Ok(error(fault.rule, fault.line, name))
}
