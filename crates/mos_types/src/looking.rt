//! The walk over an expression from left to right: its typed tree, and which rule that it breaks counts.
ghost use Rattle.std.specs.Prelude.{◌≡◌, map, IfOk, OnOk, option_copied};
ghost use Rattle.mos_rules.specs.Results.{with_tree};
ghost use Rattle.mos_rules.specs.Rows.{expects, taken_at};
ghost use Rattle.mos_rules.specs.Indexes as indexes;
ghost use Rattle.mos_rules.specs.Forms.{chosen};
ghost use Rattle.mos_types.specs.Looks as spec;

use mos_rules::calls::library;
use mos_rules::fields::with_field;
use mos_rules::forms::{binary, chosen, list_of, set_of, unary};
use mos_rules::indexes::{aggregate, index_sort, note_condition, note_set};
use mos_rules::naming::{applied, bare, expected_by, note_name};
use mos_rules::rows::{converted, note_at};
use mos_rules::{Expected, Side};
use mos_sorts::bound::{bind, copied_bound, copied_names};
use mos_sorts::meaning::meaning_of;
use mos_sorts::names::note_declared_twice;
use mos_sorts::trees::sort_of;
use mos_sorts::vocabulary::conversion;
use mos_sorts::worst::note;
use mos_sorts::{Bound, Scope, Sort, Typed};
use mos_text::{Kind, NoMemory, SourceText};
use mos_tree::{AggregateOperator, BinaryOperator, Conversion, Expr, Group, Index};
use sqlite_items::{Boxed, Items};
use std::alloc::Global;

/// `returned`
pub fn returned(worst: &mut Option<Kind>, result_sort: Option<Sort>) -> Typed
    ensures tree { result ≡ (spec.returned result_sort worst.old).tree }
    ensures worst { worst.new ≡ (spec.returned result_sort worst.old).worst }
{
    match result_sort {
        Some(sort) => Typed::Returned(sort),
        None => {
            note(worst, Kind::Return);
            Typed::Wrong
        }
    }
}

/// A name without brackets, and perhaps a field behind it.
pub fn named(
    alloc: Global,
    worst: &mut Option<Kind>,
    scope: &Scope,
    bound: &[Bound],
    side: Side,
    name: &SourceText,
    field: Option<&SourceText>,
) -> Result<Typed, NoMemory>
    ensures tree { IfOk result
        (λ x. x
        ≡ (spec.named side name.now
        (option_copied field.entry) scope.now bound.now worst.old).tree) }
    ensures worst { OnOk result (worst.new
        ≡ (spec.named side name.now
        (option_copied field.entry) scope.now bound.now worst.old).worst) }
{
    let meaning = meaning_of(scope, bound, name);
    note_name(alloc, worst, side, false, name, scope.jobs, meaning)?;
    let tree = bare(alloc, worst, side, scope.jobs, meaning, name)?;
    with_field(alloc, worst, scope.records.as_slice(), field, tree)
}

/// The value at a place of a row.
fn take_at(
    alloc: Global,
    worst: &mut Option<Kind>,
    expected: Expected<'_>,
    place: usize,
    tree: Typed,
) -> Result<Typed, NoMemory>
    ensures tree { IfOk result
        (λ x. x ≡ (taken_at (expects expected.entry) place (with_tree tree worst.old)).tree) }
    ensures worst { OnOk result
        (worst.new ≡ (taken_at (expects expected.entry) place (with_tree tree worst.old)).worst) }
{
    note_at(alloc, worst, expected, place, &tree)?;
    converted(alloc, expected, place, tree)
}

/// `integer(a)` or `string(a)`
fn convert(
    alloc: Global,
    worst: &mut Option<Kind>,
    to: Conversion,
    a: Typed,
) -> Result<Typed, NoMemory>
    ensures tree { IfOk result (λ x. x ≡ (spec.converted_to to (with_tree a worst.old)).tree) }
    ensures worst { OnOk result (worst.new ≡ (spec.converted_to to (with_tree a worst.old)).worst) }
{
    let mut all = Items::new(alloc);
    all.push(a)?;
    library(alloc, worst, conversion(to), all)
}

/// The typed tree of an expression in a scope, below these index names; notes the rules that it breaks.
#[cycle(look)]
pub fn look(
    alloc: Global,
    worst: &mut Option<Kind>,
    scope: &Scope,
    bound: &[Bound],
    expr: &Expr,
) -> Result<Typed, NoMemory>
    ensures tree { IfOk result (λ x. x ≡ (spec.look expr.now scope.now bound.now worst.old).tree) }
    ensures worst { OnOk result (worst.new
        ≡ (spec.look expr.now scope.now bound.now worst.old).worst) }
{
    match expr {
        Expr::Integer(n) => Ok(Typed::Integer(*n)),
        Expr::Text(text) => Ok(Typed::Text(text.copy(alloc)?)),
        Expr::Truth(b) => Ok(Typed::Truth(*b)),
        Expr::Name(name) => named(alloc, worst, scope, bound, Side::Value, name, None),
        Expr::Returned => Ok(returned(worst, scope.result)),
        Expr::Call(name, all) => {
            with_brackets(
                alloc,
                worst,
                scope,
                bound,
                Side::Value,
                name,
                all.as_slice(),
                None,
            )
        }
        Expr::Field(name, field) => {
            named(alloc, worst, scope, bound, Side::Value, name, Some(field))
        }
        Expr::CallField(name, all, field) => {
            with_brackets(
                alloc,
                worst,
                scope,
                bound,
                Side::Value,
                name,
                all.as_slice(),
                Some(field),
            )
        }
        Expr::Set(all) => {
            let all = look_all(alloc, worst, scope, bound, Expected::Plain, all.as_slice())?;
            Ok(set_of(worst, all))
        }
        Expr::List(all) => {
            let all = look_all(alloc, worst, scope, bound, Expected::Plain, all.as_slice())?;
            Ok(list_of(worst, all))
        }
        Expr::If(c, a, b) => {
            let c = look(alloc, worst, scope, bound, c.get())?;
            let a = look(alloc, worst, scope, bound, a.get())?;
            choice(alloc, worst, scope, bound, b.get(), c, a)
        }
        Expr::Convert(to, a) => {
            let a = look(alloc, worst, scope, bound, a.get())?;
            convert(alloc, worst, *to, a)
        }
        Expr::Unary(operator, a) => {
            let a = look(alloc, worst, scope, bound, a.get())?;
            unary(alloc, worst, *operator, a)
        }
        Expr::Binary(operator, a, b) => {
            let a = look(alloc, worst, scope, bound, a.get())?;
            pair(alloc, worst, scope, bound, b.get(), *operator, a)
        }
        Expr::Aggregate(operator, index, body) => {
            let mut inner = copied_bound(alloc, bound)?;
            let groups = look_groups(alloc, worst, scope, &mut inner, index.groups.as_slice())?;
            match &index.condition {
                None => {
                    let over = Index {
                        groups,
                        condition: None,
                    };
                    aggregate_over(alloc, worst, scope, inner, body.get(), *operator, over)
                }
                Some(test) => {
                    let test = look_test(alloc, worst, scope, inner.as_slice(), test.get())?;
                    let over = Index {
                        groups,
                        condition: Some(test),
                    };
                    aggregate_over(alloc, worst, scope, inner, body.get(), *operator, over)
                }
            }
        }
        Expr::Count(index) => {
            let mut inner = copied_bound(alloc, bound)?;
            let groups = look_groups(alloc, worst, scope, &mut inner, index.groups.as_slice())?;
            match &index.condition {
                None => Ok(Typed::Count(Index {
                    groups,
                    condition: None,
                })),
                Some(test) => {
                    let test = look_test(alloc, worst, scope, inner.as_slice(), test.get())?;
                    Ok(Typed::Count(Index {
                        groups,
                        condition: Some(test),
                    }))
                }
            }
        }
    }
}

/// Two values with an operator between them, behind the first.
#[cycle(look)]
fn pair(
    alloc: Global,
    worst: &mut Option<Kind>,
    scope: &Scope,
    bound: &[Bound],
    b: &Expr,
    operator: BinaryOperator,
    a: Typed,
) -> Result<Typed, NoMemory>
    ensures tree { IfOk result (λ x. x
        ≡ (spec.pair operator (with_tree a worst.old) (spec.look b.now) scope.now bound.now).tree) }
    ensures worst { OnOk result (worst.new
        ≡ (spec.pair operator (with_tree a worst.old)
        (spec.look b.now) scope.now bound.now).worst) }
{
    let b = look(alloc, worst, scope, bound, b)?;
    binary(alloc, worst, operator, a, b)
}

/// `if(c, a, b)` behind its condition and the first value.
#[cycle(look)]
fn choice(
    alloc: Global,
    worst: &mut Option<Kind>,
    scope: &Scope,
    bound: &[Bound],
    b: &Expr,
    c: Typed,
    a: Typed,
) -> Result<Typed, NoMemory>
    ensures tree { IfOk result
        (λ x. x ≡ (chosen c a (spec.look b.now scope.now bound.now worst.old)).tree) }
    ensures worst { OnOk result
        (worst.new ≡ (chosen c a (spec.look b.now scope.now bound.now worst.old)).worst) }
{
    let b = look(alloc, worst, scope, bound, b)?;
    chosen(alloc, worst, c, a, b)
}

/// A name with brackets, and perhaps a field behind them.
#[cycle(look)]
pub fn with_brackets(
    alloc: Global,
    worst: &mut Option<Kind>,
    scope: &Scope,
    bound: &[Bound],
    side: Side,
    name: &SourceText,
    all: &[Expr],
    field: Option<&SourceText>,
) -> Result<Typed, NoMemory>
    ensures tree { IfOk result (λ x. x
        ≡ (spec.with_brackets side name.now (map spec.look all.now)
        (option_copied field.entry) scope.now bound.now worst.old).tree) }
    ensures worst { OnOk result (worst.new
        ≡ (spec.with_brackets side name.now (map spec.look all.now)
        (option_copied field.entry) scope.now bound.now worst.old).worst) }
{
    let meaning = meaning_of(scope, bound, name);
    note_name(alloc, worst, side, true, name, scope.jobs, meaning)?;
    let expected = expected_by(side, scope, meaning, name, all.len());
    let all = look_all(alloc, worst, scope, bound, expected, all)?;
    let tree = applied(alloc, worst, side, scope, meaning, name, all)?;
    with_field(alloc, worst, scope.records.as_slice(), field, tree)
}

/// The typed trees of values in a row, each taken as it is expected.
#[cycle(look)]
pub fn look_all(
    alloc: Global,
    worst: &mut Option<Kind>,
    scope: &Scope,
    bound: &[Bound],
    expected: Expected<'_>,
    all: &[Expr],
) -> Result<Items<Typed>, NoMemory>
    ensures trees { IfOk result (λ x. x
        ≡ (spec.look_all (expects expected.entry) all.now scope.now bound.now worst.old).trees) }
    ensures worst { OnOk result (worst.new
        ≡ (spec.look_all (expects expected.entry) all.now scope.now bound.now worst.old).worst) }
{
    let mut trees = Items::new(alloc);
    let mut at = 0;
    for expr in all {
        let tree = look(alloc, worst, scope, bound, expr)?;
        trees.push(take_at(alloc, worst, expected, at, tree)?)?;
        at += 1;
    }
    Ok(trees)
}

/// Binds the names of a group behind those before, each to what is taken from its set.
fn bind_group(
    alloc: Global,
    worst: &mut Option<Kind>,
    bound: &mut Items<Bound>,
    names: &[SourceText],
    set: Typed,
) -> Result<Group<Typed>, NoMemory>
    ensures group { IfOk result (λ x. (x.names ≡ names.now) × (x.set ≡ set)) }
    ensures bound { OnOk result (bound.new ≡ indexes.bound_behind names.now set bound.old) }
    ensures worst { OnOk result
        (worst.new ≡ (indexes.walked (with_tree set worst.old)).worst) }
{
    note_set(worst, &set);
    bind(alloc, bound, names, index_sort(sort_of(&set)))?;
    let names = copied_names(alloc, names)?;
    Ok(Group { names, set })
}

/// The groups of an index, whose names are bound behind those before.
#[cycle(look)]
fn look_groups(
    alloc: Global,
    worst: &mut Option<Kind>,
    scope: &Scope,
    bound: &mut Items<Bound>,
    groups: &[Group<Expr>],
) -> Result<Items<Group<Typed>>, NoMemory>
    ensures groups { IfOk result
        (λ x. x ≡ (spec.look_groups groups.now scope.now bound.old worst.old).groups) }
    ensures bound { OnOk result
        (bound.new ≡ (spec.look_groups groups.now scope.now bound.old worst.old).bound) }
    ensures worst { OnOk result
        (worst.new ≡ (spec.look_groups groups.now scope.now bound.old worst.old).worst) }
{
    let mut found = Items::new(alloc);
    for group in groups {
        let names = group.names.as_slice();
        note_declared_twice(alloc, worst, scope, bound.as_slice(), names)?;
        let set = look(alloc, worst, scope, bound.as_slice(), &group.set)?;
        found.push(bind_group(alloc, worst, bound, names, set)?)?;
    }
    Ok(found)
}

/// The condition of an index.
#[cycle(look)]
fn look_test(
    alloc: Global,
    worst: &mut Option<Kind>,
    scope: &Scope,
    bound: &[Bound],
    test: &Expr,
) -> Result<Boxed<Typed>, NoMemory>
    ensures tree { IfOk result (λ x. x
        ≡ (indexes.condition (spec.look test.now scope.now bound.now worst.old)).tree) }
    ensures worst { OnOk result (worst.new
        ≡ (indexes.condition (spec.look test.now scope.now bound.now worst.old)).worst) }
{
    let tree = look(alloc, worst, scope, bound, test)?;
    note_condition(worst, &tree);
    Ok(Boxed::new(alloc, tree)?)
}

/// An aggregate behind its index.
#[cycle(look)]
fn aggregate_over(
    alloc: Global,
    worst: &mut Option<Kind>,
    scope: &Scope,
    bound: Items<Bound>,
    body: &Expr,
    operator: AggregateOperator,
    over: Index<Typed>,
) -> Result<Typed, NoMemory>
    ensures tree { IfOk result (λ x. x
        ≡ (indexes.aggregate operator over
        (spec.look body.now scope.now bound worst.old)).tree) }
    ensures worst { OnOk result (worst.new
        ≡ (indexes.aggregate operator over
        (spec.look body.now scope.now bound worst.old)).worst) }
{
    let body = look(alloc, worst, scope, bound.as_slice(), body)?;
    aggregate(alloc, worst, operator, over, body)
}

/// What a loop goes over. Its names are bound behind those before.
pub fn look_index(
    alloc: Global,
    worst: &mut Option<Kind>,
    scope: &Scope,
    bound: &mut Items<Bound>,
    index: &Index<Expr>,
) -> Result<Index<Typed>, NoMemory>
    ensures index { IfOk result
        (λ x. x ≡ (spec.look_index index.now scope.now bound.old worst.old).index) }
    ensures bound { OnOk result
        (bound.new ≡ (spec.look_index index.now scope.now bound.old worst.old).bound) }
    ensures worst { OnOk result
        (worst.new ≡ (spec.look_index index.now scope.now bound.old worst.old).worst) }
{
    let groups = look_groups(alloc, worst, scope, bound, index.groups.as_slice())?;
    match &index.condition {
        None => Ok(Index {
            groups,
            condition: None,
        }),
        Some(test) => {
            let test = look_test(alloc, worst, scope, bound.as_slice(), test.get())?;
            Ok(Index {
                groups,
                condition: Some(test),
            })
        }
    }
}
