ghost use Rattle.std.specs.Prelude.{◌≡◌, map};
ghost use Rattle.std.specs.Str.{str_to_ascii_lowercase};
ghost use Rattle.tokens.specs.declared.TokenKind.TheVariants as kind;
ghost use Rattle.parsing.specs.declared.symbol.Symbol.{Symbol};
ghost use Rattle.parsing.specs.declared.symbol.Symbol.TheVariants as symbols;
ghost use Rattle.parsing.specs.Example.{construct_words, example};
ghost use Rattle.parsing.specs.Symbol.{entries, look_up, symbol_by, symbol_of};
ghost use Rattle.parsing.specs.Terminal as terminal;

use tokens::TokenKind;

/// What a token is to a grammar. Words have a symbol of their own where the language gives them a meaning somewhere.
#[derive(Clone, Copy, PartialEq, Eq)]
pub enum Symbol {
    /// A word without a meaning of its own.
    Name,
    Number,
    /// The number `4` in just this spelling.
    Four,
    /// The number `8` in just this spelling.
    Eight,
    Open,
    Close,
    Comma,
    Equals,
    Plus,
    Minus,
    Star,
    Slash,
    Power,
    Colon,
    Colons,
    Equal,
    Unequal,
    Less,
    AtMost,
    Greater,
    AtLeast,
    And,
    Or,
    Not,
    If,
    Do,
    Else,
    ElseIf,
    End,
    EndDo,
    EndIf,
    EndSubroutine,
    Call,
    Integer,
    Subroutine,
    Implicit,
    Max,
    Min,
    Abs,
    Mod,
    Merge,
    /// The word `int`, which has no meaning and is no name.
    Int,
    /// The word `none`.
    NoneWord,
    Kind,
    Intent,
    In,
    Out,
    InOut,
    Then,
    Parallel,
    Atomic,
    Update,
    Private,
    FirstPrivate,
    Shared,
    Reduction,
    Default,
    Schedule,
    Static,
    Dynamic,
    Guided,
    Auto,
    Runtime,
    Collapse,
    FormadPush,
    FormadPop,
    FormadOpen,
    FormadClose,
    /// A word that begins a construct outside the language.
    Construct,
    Sentinel,
    LineEnd,
    /// A mark or a word between dots without a meaning.
    Other,
}

static KINDS: [(&[u8], Symbol); 2] = [(b"4", Symbol::Four), (b"8", Symbol::Eight)];

static MARKS: [(&[u8], Symbol); 17] = [
    (b"(", Symbol::Open),
    (b")", Symbol::Close),
    (b",", Symbol::Comma),
    (b"=", Symbol::Equals),
    (b"+", Symbol::Plus),
    (b"-", Symbol::Minus),
    (b"*", Symbol::Star),
    (b"/", Symbol::Slash),
    (b"**", Symbol::Power),
    (b":", Symbol::Colon),
    (b"::", Symbol::Colons),
    (b"==", Symbol::Equal),
    (b"/=", Symbol::Unequal),
    (b"<", Symbol::Less),
    (b"<=", Symbol::AtMost),
    (b">", Symbol::Greater),
    (b">=", Symbol::AtLeast),
];

static DOTS: [(&[u8], Symbol); 9] = [
    (b".eq.", Symbol::Equal),
    (b".ne.", Symbol::Unequal),
    (b".lt.", Symbol::Less),
    (b".le.", Symbol::AtMost),
    (b".gt.", Symbol::Greater),
    (b".ge.", Symbol::AtLeast),
    (b".and.", Symbol::And),
    (b".or.", Symbol::Or),
    (b".not.", Symbol::Not),
];

static WORDS: [(&[u8], Symbol); 75] = [
    (b"if", Symbol::If),
    (b"do", Symbol::Do),
    (b"else", Symbol::Else),
    (b"elseif", Symbol::ElseIf),
    (b"end", Symbol::End),
    (b"enddo", Symbol::EndDo),
    (b"endif", Symbol::EndIf),
    (b"endsubroutine", Symbol::EndSubroutine),
    (b"call", Symbol::Call),
    (b"integer", Symbol::Integer),
    (b"subroutine", Symbol::Subroutine),
    (b"implicit", Symbol::Implicit),
    (b"max", Symbol::Max),
    (b"min", Symbol::Min),
    (b"abs", Symbol::Abs),
    (b"mod", Symbol::Mod),
    (b"merge", Symbol::Merge),
    (b"int", Symbol::Int),
    (b"none", Symbol::NoneWord),
    (b"kind", Symbol::Kind),
    (b"intent", Symbol::Intent),
    (b"in", Symbol::In),
    (b"out", Symbol::Out),
    (b"inout", Symbol::InOut),
    (b"then", Symbol::Then),
    (b"parallel", Symbol::Parallel),
    (b"atomic", Symbol::Atomic),
    (b"update", Symbol::Update),
    (b"private", Symbol::Private),
    (b"firstprivate", Symbol::FirstPrivate),
    (b"shared", Symbol::Shared),
    (b"reduction", Symbol::Reduction),
    (b"default", Symbol::Default),
    (b"schedule", Symbol::Schedule),
    (b"static", Symbol::Static),
    (b"dynamic", Symbol::Dynamic),
    (b"guided", Symbol::Guided),
    (b"auto", Symbol::Auto),
    (b"runtime", Symbol::Runtime),
    (b"collapse", Symbol::Collapse),
    (b"formad_push", Symbol::FormadPush),
    (b"formad_pop", Symbol::FormadPop),
    (b"formad_open", Symbol::FormadOpen),
    (b"formad_close", Symbol::FormadClose),
    (b"exit", Symbol::Construct),
    (b"cycle", Symbol::Construct),
    (b"goto", Symbol::Construct),
    (b"return", Symbol::Construct),
    (b"stop", Symbol::Construct),
    (b"while", Symbol::Construct),
    (b"contains", Symbol::Construct),
    (b"allocate", Symbol::Construct),
    (b"deallocate", Symbol::Construct),
    (b"print", Symbol::Construct),
    (b"write", Symbol::Construct),
    (b"read", Symbol::Construct),
    (b"select", Symbol::Construct),
    (b"where", Symbol::Construct),
    (b"forall", Symbol::Construct),
    (b"use", Symbol::Construct),
    (b"module", Symbol::Construct),
    (b"program", Symbol::Construct),
    (b"function", Symbol::Construct),
    (b"real", Symbol::Construct),
    (b"logical", Symbol::Construct),
    (b"character", Symbol::Construct),
    (b"complex", Symbol::Construct),
    (b"double", Symbol::Construct),
    (b"type", Symbol::Construct),
    (b"common", Symbol::Construct),
    (b"continue", Symbol::Construct),
    (b"parameter", Symbol::Construct),
    (b"dimension", Symbol::Construct),
    (b"save", Symbol::Construct),
    (b"block", Symbol::Construct),
];

/// The symbol beside this text, in letters of either case.
fn look_up(table: &[(&[u8], Symbol)], text: &[u8], otherwise: Symbol) -> Symbol
    ensures { result ≡ look_up (entries table.now) (str_to_ascii_lowercase text.now) otherwise }
{
    for (spelling, symbol) in table {
        if text.eq_ignore_ascii_case(spelling) {
            return *symbol;
        }
    }
    otherwise
}

impl Symbol {
    /// The symbol of a token of this kind and text, in letters of either case.
    #[tactic(auto, unfolding(crate::specs::Symbol::symbol_by))]
    pub fn of(kind: TokenKind, text: &[u8]) -> Symbol
        ensures { result ≡ symbol_by kind (str_to_ascii_lowercase text.now) }
    {
        match kind {
            TokenKind::Word => look_up(&WORDS, text, Symbol::Name),
            TokenKind::Number { .. } => look_up(&KINDS, text, Symbol::Number),
            TokenKind::Mark => look_up(&MARKS, text, Symbol::Other),
            TokenKind::Dots => look_up(&DOTS, text, Symbol::Other),
            TokenKind::Sentinel => Symbol::Sentinel,
            TokenKind::LineEnd => Symbol::LineEnd,
        }
    }

    fn code(self) -> u8
        ensures { result ≡ terminal.code self }
    {
        self as u8
    }

    pub fn is(self, other: Symbol) -> bool
        ensures { result ≡ terminal.same self other }
    {
        self.code() == other.code()
    }

    /// Whether a word of this symbol may name a variable.
    pub fn names(self) -> bool
        ensures { result ≡ terminal.names self }
    {
        matches!(
            self,
            Symbol::Name
                | Symbol::NoneWord
                | Symbol::Kind
                | Symbol::Intent
                | Symbol::In
                | Symbol::Out
                | Symbol::InOut
                | Symbol::Then
                | Symbol::Parallel
                | Symbol::Atomic
                | Symbol::Update
                | Symbol::Private
                | Symbol::FirstPrivate
                | Symbol::Shared
                | Symbol::Reduction
                | Symbol::Default
                | Symbol::Schedule
                | Symbol::Static
                | Symbol::Dynamic
                | Symbol::Guided
                | Symbol::Auto
                | Symbol::Runtime
                | Symbol::Collapse
                | Symbol::FormadPush
                | Symbol::FormadPop
                | Symbol::FormadOpen
                | Symbol::FormadClose
        )
    }

    /// Whether a word has this symbol.
    pub fn words(self) -> bool
        ensures { result ≡ terminal.words self }
    {
        match self {
            Symbol::Number
            | Symbol::Four
            | Symbol::Eight
            | Symbol::Open
            | Symbol::Close
            | Symbol::Comma
            | Symbol::Equals
            | Symbol::Plus
            | Symbol::Minus
            | Symbol::Star
            | Symbol::Slash
            | Symbol::Power
            | Symbol::Colon
            | Symbol::Colons
            | Symbol::Equal
            | Symbol::Unequal
            | Symbol::Less
            | Symbol::AtMost
            | Symbol::Greater
            | Symbol::AtLeast
            | Symbol::And
            | Symbol::Or
            | Symbol::Not
            | Symbol::Sentinel
            | Symbol::LineEnd
            | Symbol::Other => false,
            _ => true,
        }
    }

    /// Whether a number has this symbol.
    pub fn numbers(self) -> bool
        ensures { result ≡ terminal.numbers self }
    {
        matches!(self, Symbol::Number | Symbol::Four | Symbol::Eight)
    }
}

/// How symbols are spelled; it does nothing.
pub fn spellings()
    ensures each { (a : Symbol) → symbol_of (example a) ≡ a }
    ensures constructs { map (symbol_by kind.Word) construct_words ≡ map (λ _. symbols.Construct) construct_words }
{}
