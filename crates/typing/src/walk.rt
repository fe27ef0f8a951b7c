//! The first fault of each part of a program, found from left to right.

ghost use Rattle.std.specs.Prelude.{◌≡◌, []};
ghost use Rattle.fl_ast.specs.Tree.{get as get_lem, expr_tree, expr_trees, place_tree, cond_tree, step_tree, stmt_tree, stmt_trees, arm_trees};
ghost use Rattle.fl_types.specs.Kinds.{expression_count};
ghost use Rattle.typing.specs.Firsts as firsts;
ghost use Rattle.typing.specs.Views.{around_of, region_of, optional_region, optional_told};

use crate::around::{Around, Ends, Fault, Region, Vars};
use crate::ends::{NOTHING, as_index, at_last, ends_of_assignment, with_call, with_operation};
use crate::inside::{at_body, at_bounds, made_parallel};
use crate::rule::Rule;
use crate::rules::{
    directive_rule, exponent_rule, listed_rule, number_rule, target_rule, use_rule, variable_rule,
};
use crate::updates::own_of;
use fl_ast::{Arm, Cond, Expr, Name, Place, Stmt};
use known_names::Indexed;

pub(crate) fn told<'a>(line: u32, name: &'a [u8], rule: Option<Rule>) -> Option<Fault<'a>>
    ensures { optional_told result ≡ firsts.told line name.now rule }
{
    match rule {
        None => None,
        Some(rule) => Some(Fault { rule, line, name }),
    }
}

fn at_number<'a>(line: u32, rule: Option<Rule>) -> Option<Fault<'a>>
    ensures { optional_told result ≡ firsts.told line [] rule }
{
    told(line, b"", rule)
}

#[tactic(auto, using(crate::proofs::Trees::count_length))]
/// The fault at a name with subscripts, without those in them.
fn at_use<'t>(
    place: &'t Place,
    program: &Indexed<'_>,
    around: &Around<'_, 't>,
    ends: Ends,
) -> Option<Fault<'t>>
    ensures { optional_told result ≡ firsts.told around.now.line place.now.name
        (firsts.use_rule program.now (around_of around.now) (firsts.at_last (expr_trees place.now.subscripts) ends) place.now.name
        (expression_count (expr_trees place.now.subscripts))) }
{
    let subscripts = place.subscripts.as_slice();
    let ends = at_last(subscripts, ends);
    let rule = use_rule(program, around, ends, &place.name, subscripts.len());
    told(around.line, place.name.bytes(), rule)
}

#[cycle(walk)]
fn in_expression<'t>(
    expr: &'t Expr,
    program: &Indexed<'_>,
    around: &Around<'_, 't>,
    ends: Ends,
) -> Option<Fault<'t>>
    ensures { optional_told result ≡ firsts.first_in program.now (around_of around.now) ends (expr_tree expr.now) }
{
    match expr {
        Expr::Lit { value, kind } => at_number(around.line, number_rule(ends, *value, *kind)),
        Expr::Get(place) => in_place(place, program, around, ends),
        Expr::Neg(inner) => in_expression(inner.get(), program, around, ends),
        Expr::Bin { op, left, right } => {
            let found = in_expression(left.get(), program, around, NOTHING);
            if found.is_some() {
                return found;
            }
            let ends = with_operation(program, *op, left.get(), right.get(), ends);
            in_expression(right.get(), program, around, ends)
        }
        Expr::Pow { base, .. } => {
            let found = in_expression(base.get(), program, around, NOTHING);
            if found.is_some() {
                return found;
            }
            at_number(around.line, exponent_rule(ends))
        }
        Expr::Call { fun, args } => {
            let args = args.as_slice();
            in_arguments(args, program, around, with_call(program, *fun, args, ends))
        }
    }
}

#[cycle(walk)]
fn in_place<'t>(
    place: &'t Place,
    program: &Indexed<'_>,
    around: &Around<'_, 't>,
    ends: Ends,
) -> Option<Fault<'t>>
    ensures { optional_told result ≡ firsts.first_in program.now (around_of around.now) ends (get_lem place.now.name (expr_trees place.now.subscripts)) }
{
    let found = at_use(place, program, around, ends);
    if found.is_some() {
        return found;
    }
    in_subscripts(place.subscripts.as_slice(), program, around, ends)
}

#[cycle(walk)]
fn in_subscripts<'t>(
    exprs: &'t [Expr],
    program: &Indexed<'_>,
    around: &Around<'_, 't>,
    ends: Ends,
) -> Option<Fault<'t>>
    ensures { optional_told result ≡ firsts.first_in_subscripts program.now (around_of around.now) ends (expr_trees exprs.now) }
{
    for (i, expr) in exprs.iter().enumerate() {
        let ends = at_last(&exprs[i + 1..], ends);
        let found = in_expression(expr, program, around, as_index(program, expr, ends));
        if found.is_some() {
            return found;
        }
    }
    None
}

#[cycle(walk)]
fn in_arguments<'t>(
    exprs: &'t [Expr],
    program: &Indexed<'_>,
    around: &Around<'_, 't>,
    ends: Ends,
) -> Option<Fault<'t>>
    ensures { optional_told result ≡ firsts.first_in_arguments program.now (around_of around.now) ends (expr_trees exprs.now) }
{
    for (i, expr) in exprs.iter().enumerate() {
        let ends = at_last(&exprs[i + 1..], ends);
        let found = in_expression(expr, program, around, ends);
        if found.is_some() {
            return found;
        }
    }
    None
}

fn in_condition<'t>(
    cond: &'t Cond,
    program: &Indexed<'_>,
    around: &Around<'_, 't>,
) -> Option<Fault<'t>>
    ensures { optional_told result ≡ firsts.first_in_condition program.now (around_of around.now) (cond_tree cond.now) }
{
    match cond {
        Cond::Rel { left, right, .. } => {
            let found = in_expression(left, program, around, NOTHING);
            if found.is_some() {
                return found;
            }
            in_expression(right, program, around, NOTHING)
        }
        Cond::Not(inner) => in_condition(inner.get(), program, around),
        Cond::And(left, right) => {
            let found = in_condition(left.get(), program, around);
            if found.is_some() {
                return found;
            }
            in_condition(right.get(), program, around)
        }
        Cond::Or(left, right) => {
            let found = in_condition(left.get(), program, around);
            if found.is_some() {
                return found;
            }
            in_condition(right.get(), program, around)
        }
    }
}

#[tactic(auto, using(crate::proofs::Trees::count_length))]
fn in_target<'t>(
    target: &'t Place,
    program: &Indexed<'_>,
    around: &Around<'_, 't>,
) -> Option<Fault<'t>>
    ensures { optional_told result ≡ firsts.first_in_target program.now (around_of around.now) target.now.name (expr_trees target.now.subscripts) }
{
    let subscripts = target.subscripts.as_slice();
    let rule = target_rule(program, around, &target.name, subscripts.len());
    let found = told(around.line, target.name.bytes(), rule);
    if found.is_some() {
        return found;
    }
    let inner = Around {
        subscript_of: Some(&target.name),
        ..*around
    };
    in_subscripts(subscripts, program, &inner, NOTHING)
}

#[tactic(auto, using(crate::proofs::Trees::places))]
fn in_assignment<'t>(
    target: &'t Place,
    value: &'t Expr,
    line: u32,
    atomic: bool,
    program: &Indexed<'_>,
    around: &Around<'_, 't>,
) -> Option<Fault<'t>>
    ensures { optional_told result ≡ firsts.first_in_assignment program.now (around_of around.now) line atomic (place_tree target.now) (expr_tree value.now) }
{
    let ends = ends_of_assignment(program, around, atomic, target, value);
    let inner = Around {
        line,
        own: own_of(program, target, value),
        subscript_of: None,
        ..*around
    };
    let found = in_target(target, program, &inner);
    if found.is_some() {
        return found;
    }
    in_expression(value, program, &inner, ends)
}

fn in_bound<'t>(expr: &'t Expr, program: &Indexed<'_>, around: &Around<'_, 't>) -> Option<Fault<'t>>
    ensures { optional_told result ≡ firsts.first_in_bound program.now (around_of around.now) (expr_tree expr.now) }
{
    in_expression(expr, program, around, as_index(program, expr, NOTHING))
}

fn in_step<'t>(
    step: &'t Option<Expr>,
    program: &Indexed<'_>,
    around: &Around<'_, 't>,
) -> Option<Fault<'t>>
    ensures { optional_told result ≡ firsts.first_in_step program.now (around_of around.now) (step_tree step.now) }
{
    match step {
        None => None,
        Some(expr) => in_bound(expr, program, around),
    }
}

fn in_head<'t>(
    var: &'t Name,
    first: &'t Expr,
    last: &'t Expr,
    step: &'t Option<Expr>,
    program: &Indexed<'_>,
    around: &Around<'_, 't>,
) -> Option<Fault<'t>>
    ensures { optional_told result ≡ firsts.first_in_head program.now (around_of around.now) var.now (expr_tree first.now) (expr_tree last.now) (step_tree step.now) }
{
    let found = told(
        around.line,
        var.bytes(),
        variable_rule(program, around, var),
    );
    if found.is_some() {
        return found;
    }
    let found = in_bound(first, program, around);
    if found.is_some() {
        return found;
    }
    let found = in_bound(last, program, around);
    if found.is_some() {
        return found;
    }
    in_step(step, program, around)
}

fn in_list<'t>(names: &'t [Name], program: &Indexed<'_>, region: &Region<'_>) -> Option<Fault<'t>>
    ensures { optional_told result ≡ firsts.first_in_list program.now (region_of region.now) names.now }
{
    for name in names {
        let found = told(
            region.directive.line,
            name.bytes(),
            listed_rule(program, region, name),
        );
        if found.is_some() {
            return found;
        }
    }
    None
}

fn in_clauses<'t>(region: &Region<'t>, program: &Indexed<'_>) -> Option<Fault<'t>>
    ensures { optional_told result ≡ firsts.first_in_clauses program.now (region_of region.now) }
{
    let directive = region.directive;
    let found = in_list(directive.privates.as_slice(), program, region);
    if found.is_some() {
        return found;
    }
    let found = in_list(directive.firsts.as_slice(), program, region);
    if found.is_some() {
        return found;
    }
    let found = in_list(directive.shareds.as_slice(), program, region);
    if found.is_some() {
        return found;
    }
    let found = in_list(directive.pluses.as_slice(), program, region);
    if found.is_some() {
        return found;
    }
    at_number(directive.line, directive_rule(region))
}

fn in_directive<'t>(parallel: &Option<Region<'t>>, program: &Indexed<'_>) -> Option<Fault<'t>>
    ensures { optional_told result ≡ firsts.first_in_directive program.now (optional_region parallel.now) }
{
    match parallel {
        None => None,
        Some(region) => in_clauses(region, program),
    }
}

#[cycle(statements)]
fn in_statement<'t>(
    stmt: &'t Stmt,
    program: &Indexed<'_>,
    around: &Around<'_, 't>,
) -> Option<Fault<'t>>
    ensures { optional_told result ≡ firsts.first_in_statement program.now (around_of around.now) (stmt_tree stmt.now) }
{
    match stmt {
        Stmt::Assign {
            line,
            atomic,
            target,
            value,
        } => in_assignment(target, value, *line, *atomic, program, around),
        Stmt::If { line, arms, other } => {
            let found = in_arms(arms.as_slice(), *line, program, around);
            if found.is_some() {
                return found;
            }
            in_statements(other.as_slice(), program, around)
        }
        Stmt::Do {
            line,
            directive,
            var,
            first,
            last,
            step,
            body,
            ..
        } => {
            let body = body.as_slice();
            let parallel = made_parallel(directive, var, body);
            let found = in_directive(&parallel, program);
            if found.is_some() {
                return found;
            }
            let bounds = at_bounds(around, *line);
            let found = in_head(var, first, last, step, program, &bounds);
            if found.is_some() {
                return found;
            }
            let vars = Vars::Inside {
                var,
                outer: around.vars,
            };
            in_statements(body, program, &at_body(around, &vars, parallel))
        }
    }
}

#[cycle(statements)]
pub(crate) fn in_statements<'t>(
    stmts: &'t [Stmt],
    program: &Indexed<'_>,
    around: &Around<'_, 't>,
) -> Option<Fault<'t>>
    ensures { optional_told result ≡ firsts.first_in_statements program.now (around_of around.now) (stmt_trees stmts.now) }
{
    for stmt in stmts {
        let found = in_statement(stmt, program, around);
        if found.is_some() {
            return found;
        }
    }
    None
}

fn in_test<'t>(
    test: &'t Cond,
    line: u32,
    program: &Indexed<'_>,
    around: &Around<'_, 't>,
) -> Option<Fault<'t>>
    ensures { optional_told result ≡ firsts.first_in_condition program.now (firsts.at_line (around_of around.now) line) (cond_tree test.now) }
{
    let inner = Around { line, ..*around };
    in_condition(test, program, &inner)
}

#[cycle(statements)]
fn in_arms<'t>(
    arms: &'t [Arm],
    line: u32,
    program: &Indexed<'_>,
    around: &Around<'_, 't>,
) -> Option<Fault<'t>>
    ensures { optional_told result ≡ firsts.first_in_arms program.now (around_of around.now) line (arm_trees arms.now) }
{
    for arm in arms {
        let found = in_test(&arm.test, line, program, around);
        if found.is_some() {
            return found;
        }
        let found = in_statements(arm.body.as_slice(), program, around);
        if found.is_some() {
            return found;
        }
    }
    None
}
