ghost use Rattle.std.specs.Prelude.{◌≡◌};

use crate::arguments::is_ring_argument;
use crate::sharing::Sharing;
use crate::surface::{bytes_of_data, class_within_all, kind_declared};
use fl_ast::{Kind, Name, Program};
use std::fmt;
use std::marker::Model;
use thiserror::Error;

/// Why a program isn't typed: the first fault in the order of its names and numbers. The line is that of the innermost
/// tree around it that has one; each test of an `if` has that of its `if`.
#[derive(Drop, Error)]
pub enum TypeError {
    /// A name or an argument has no declaration.
    #[error("a name isn't declared")]
    Undeclared { line: u32, name: Name },
    /// A name is declared, or listed as an argument, twice.
    #[error("a name is declared twice")]
    Doubled { line: u32, name: Name },
    /// The unit's name or a declared one ends in `_b`, begins with `formad_`, or has more than 61 characters: such
    /// names are kept for an adjoint.
    #[error("a name is reserved")]
    ReservedSuffix { line: u32, name: Name },
    /// An array isn't an argument.
    #[error("an array is no argument")]
    LocalArray { line: u32, name: Name },
    /// A place has another number of subscripts than its name has dimensions, an array has more than 7 (Fortran
    /// allows 15), or a bound holds a name that isn't an index scalar argument.
    #[error("a number of subscripts or dimensions doesn't fit")]
    Rank { line: u32, name: Name },
    /// A literal of the index kind, outside declarations, is above 2^31-1.
    #[error("literal out of range")]
    LiteralRange { line: u32 },
    /// `max` or `min` has arguments of two kinds.
    #[error("kinds differ")]
    KindClash { line: u32 },
    /// `/` or `mod` has an operand of the ring kind.
    #[error("division of data")]
    DataDivision { line: u32 },
    /// A ring value is assigned to an index, or is a subscript, a bound or a step.
    #[error("data as index")]
    DataToIndex { line: u32 },
    /// An argument of intent in is assigned.
    #[error("an argument of intent in is assigned")]
    IntentIn { line: u32, name: Name },
    /// A subscript of a target holds the target's name.
    #[error("a target's subscript holds its name")]
    SelfSubscript { line: u32, name: Name },
    /// A loop's variable isn't a local index scalar, is assigned, is used outside its loops, or is the variable of a
    /// loop around its loop.
    #[error("a loop's variable is misused")]
    LoopVarUse { line: u32, name: Name },
    /// A private name isn't a local scalar or is used outside loops in which it is private, or a firstprivate name is
    /// assigned in the loop.
    #[error("a private name is misused")]
    PrivateUse { line: u32, name: Name },
    /// A reduction's name isn't a ring scalar, or stands in the loop outside its own increments.
    #[error("a reduction's name is misused")]
    ReductionUse { line: u32, name: Name },
    /// An atomic statement is outside parallel loops, is no increment, or has several terms of which one has a minus
    /// sign (OpenMP 5.2, 15.8.4).
    #[error("atomic form")]
    AtomicForm { line: u32 },
    /// An array is private or firstprivate, or a loop's variable is in another clause than `private`.
    #[error("a name can't be in its clause")]
    NotShareable { line: u32, name: Name },
    /// `default(none)` stands, and a name that is used in the loop is in no clause.
    #[error("a name is in no clause")]
    Unlisted { line: u32, name: Name },
    /// Data is declared with another number of bytes than the first data is.
    #[error("data has two kinds")]
    MixedKinds { line: u32, name: Name },
    /// Two loops are to be collapsed, and the inner one isn't alone in the outer one, or its bounds or step go by what
    /// that changes.
    #[error("collapse form")]
    CollapseForm { line: u32 },
    #[error("no memory")]
    Memory,
}

impl fmt::Debug for TypeError {
    fn fmt<W: fmt::Write>(&self, f: &mut fmt::Formatter<W>) -> fmt::Result {
        write!(f, "{self}")
    }
}

/// A program that is typed. Contracts see it as the program.
#[derive(Drop)]
pub struct Typed {
    program: Program,
}

impl Model for Typed {
    ghost use Rattle.std.specs.Coded.{codes};
    ghost use Rattle.fl_ast.specs.declared.stmt.Program.{Program};
    ghost use Rattle.fl_ast.specs.contracts.stmt.Stmt as stmt;

    ghost Value = { Program };

    ghost coded = { Prim.hlevel (codes, stmt.the_row.coded) };

    ghost use Rattle.fl_types.specs.WellTyped.{IsTyped};

    ghost view = { λ t. t.program };

    ghost invariant = { λ t. IsTyped t.program };
}

impl Typed {
    ghost use Rattle.fl_types.specs.Declarations.{is_ring_argument as is_ring_argument_lem};
    ghost use Rattle.fl_ast.specs.Tree.{stmt_trees};
    ghost use Rattle.fl_types.specs.Sharing.{sharing_of as sharing_of_lem};
    ghost use Rattle.fl_types.specs.Surface.{HasLoop, kind_of as kind_of_lem};
    ghost use Rattle.fl_types.specs.WellTyped.{IsTyped, bytes_of_data as bytes_of_data_lem};

    /// A program that is known to be typed.
    pub fn of(program: Program) -> Typed
        requires { IsTyped program }
        ensures { result ≡ program }
    {
        Typed { program }
    }

    pub fn program(&self) -> &Program
        ensures program { result.now ≡ self.now }
        ensures typed { IsTyped self.now }
    {
        &self.program
    }

    /// Whether the name is an argument of the ring kind.
    pub fn is_ring_argument(&self, name: &Name) -> bool
        ensures { result ≡ is_ring_argument_lem self.now name.now }
    {
        is_ring_argument(&self.program, name)
    }

    /// The kind of a declared name.
    pub fn kind_of(&self, name: &Name) -> Option<Kind>
        ensures { result ≡ kind_of_lem self.now name.now }
    {
        kind_declared(self.program.decls.as_slice(), name)
    }

    /// How many bytes data has.
    pub fn bytes_of_data(&self) -> u32
        ensures { result ≡ bytes_of_data_lem self.now.decls }
    {
        bytes_of_data(self.program.decls.as_slice())
    }

    /// The class of a name in the parallel loop with a number.
    pub fn sharing_of(&self, loop_number: u32, name: &Name) -> Sharing
        requires { HasLoop self.now loop_number }
        ensures { result ≡ sharing_of_lem (stmt_trees self.now.body) loop_number name.now }
    {
        match class_within_all(self.program.body.as_slice(), loop_number, name) {
            Some(class) => class,
            None => Sharing::Shared,
        }
    }
}
