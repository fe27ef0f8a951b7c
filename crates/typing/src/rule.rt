/// A rule of typing. Where two are broken at one name or number, the earlier one is told.
#[derive(Clone, Copy, Debug, PartialEq, Eq)]
pub enum Rule {
    Undeclared,
    Doubled,
    ReservedSuffix,
    LocalArray,
    Rank,
    LiteralRange,
    KindClash,
    DataDivision,
    DataToIndex,
    IntentIn,
    SelfSubscript,
    LoopVarUse,
    PrivateUse,
    ReductionUse,
    AtomicForm,
    NotShareable,
    Unlisted,
    MixedKinds,
    CollapseForm,
}
