//! The first fault of a program.

ghost use Rattle.std.specs.Prelude.{◌≡◌, []};
ghost use Rattle.fl_ast.specs.Tree.{stmt_trees};
ghost use Rattle.typing.specs.Firsts as firsts;
ghost use Rattle.typing.specs.Views.{optional_told};

use crate::around::{Around, Fault, Vars};
use crate::rules::{argument_rule, bounding_rule, declared_rule, unit_rule};
use crate::walk::{in_statements, told};
use fl_ast::{Bound, Decl, Dim, Factor, Name, Sign, Term};
use known_names::Indexed;

fn in_factor<'t>(factor: &'t Factor, line: u32, program: &Indexed<'_>) -> Option<Fault<'t>>
    ensures { optional_told result ≡ firsts.first_in_factor program.now line factor.now }
{
    match factor {
        Factor::Lit(_) | Factor::Minus(_) => None,
        Factor::Scalar(name) => told(line, name.bytes(), bounding_rule(program, name)),
    }
}

fn in_second<'t>(second: &'t Option<Factor>, line: u32, program: &Indexed<'_>) -> Option<Fault<'t>>
    ensures { optional_told result ≡ firsts.first_in_second program.now line second.now }
{
    match second {
        None => None,
        Some(factor) => in_factor(factor, line, program),
    }
}

fn in_term<'t>(term: &'t Term, line: u32, program: &Indexed<'_>) -> Option<Fault<'t>>
    ensures { optional_told result ≡ firsts.first_in_term program.now line term.now }
{
    let found = in_factor(&term.first, line, program);
    if found.is_some() {
        return found;
    }
    in_second(&term.second, line, program)
}

fn in_rest<'t>(
    rest: &'t Option<(Sign, Term)>,
    line: u32,
    program: &Indexed<'_>,
) -> Option<Fault<'t>>
    ensures { optional_told result ≡ firsts.first_in_rest program.now line rest.now }
{
    match rest {
        None => None,
        Some((_, term)) => in_term(term, line, program),
    }
}

fn in_extent<'t>(bound: &'t Bound, line: u32, program: &Indexed<'_>) -> Option<Fault<'t>>
    ensures { optional_told result ≡ firsts.first_in_extent program.now line bound.now }
{
    let found = in_term(&bound.first, line, program);
    if found.is_some() {
        return found;
    }
    in_rest(&bound.rest, line, program)
}

fn in_lower<'t>(lower: &'t Option<Bound>, line: u32, program: &Indexed<'_>) -> Option<Fault<'t>>
    ensures { optional_told result ≡ firsts.first_in_lower program.now line lower.now }
{
    match lower {
        None => None,
        Some(bound) => in_extent(bound, line, program),
    }
}

fn in_dims<'t>(dims: &'t [Dim], line: u32, program: &Indexed<'_>) -> Option<Fault<'t>>
    ensures { optional_told result ≡ firsts.first_in_dims program.now line dims.now }
{
    for dim in dims {
        let found = in_lower(&dim.lower, line, program);
        if found.is_some() {
            return found;
        }
        let found = in_extent(&dim.upper, line, program);
        if found.is_some() {
            return found;
        }
    }
    None
}

fn in_decl<'t>(decl: &'t Decl, earlier: &[Decl], program: &Indexed<'_>) -> Option<Fault<'t>>
    ensures { optional_told result ≡ firsts.first_in_decl program.now earlier.now decl.now }
{
    let rule = declared_rule(program, earlier, decl);
    let found = told(decl.line, decl.name.bytes(), rule);
    if found.is_some() {
        return found;
    }
    in_dims(decl.dims.as_slice(), decl.line, program)
}

fn in_decls<'t>(decls: &'t [Decl], program: &Indexed<'_>) -> Option<Fault<'t>>
    ensures { optional_told result ≡ firsts.first_in_decls program.now [] decls.now }
{
    for (i, decl) in decls.iter().enumerate() {
        let found = in_decl(decl, &decls[..i], program);
        if found.is_some() {
            return found;
        }
    }
    None
}

fn in_args<'t>(args: &'t [Name], line: u32, program: &Indexed<'_>) -> Option<Fault<'t>>
    ensures { optional_told result ≡ firsts.first_in_args program.now line [] args.now }
{
    for (i, arg) in args.iter().enumerate() {
        let found = told(line, arg.bytes(), argument_rule(program, &args[..i], arg));
        if found.is_some() {
            return found;
        }
    }
    None
}

fn in_body<'t>(program: &Indexed<'t>) -> Option<Fault<'t>>
    ensures { optional_told result ≡ firsts.first_in_statements program.now (firsts.at_unit program.now.line) (stmt_trees program.now.body) }
{
    let tree = program.program();
    let around = Around {
        line: tree.line,
        vars: &Vars::Outside,
        parallel: None,
        in_nest: false,
        own: None,
        subscript_of: None,
    };
    in_statements(tree.body.as_slice(), program, &around)
}

/// The first fault of the program.
pub(crate) fn first_fault<'t>(program: &Indexed<'t>) -> Option<Fault<'t>>
    ensures { optional_told result ≡ firsts.first_in_program program.now }
{
    let tree = program.program();
    let found = told(tree.line, tree.name.bytes(), unit_rule(&tree.name));
    if found.is_some() {
        return found;
    }
    let found = in_args(tree.args.as_slice(), tree.line, program);
    if found.is_some() {
        return found;
    }
    let found = in_decls(tree.decls.as_slice(), program);
    if found.is_some() {
        return found;
    }
    in_body(program)
}
