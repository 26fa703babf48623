//! Constants and variables, and the items of a block of declarations.
ghost use Rattle.std.specs.Prelude.{◌≡◌, ◌∷◌, ◌++◌, [], None, Ok, Err, IfOk, OnOk};
ghost use Rattle.mos_declarations.specs.Taken.{taken};
ghost use Rattle.mos_types.specs.Faults.{IfAt};
ghost use Rattle.mos_declarations.specs.Items as spec;
ghost use Rattle.mos_sorts.specs.Scopes.{all_twice as twice_of_all, declare_all as with_all};
ghost use Rattle.mos_sorts.specs.declared.scope.Role.TheVariants as role;

use crate::places::here;
use crate::records::record_item;
use crate::written::{WrittenType, is_dense, written};
use mos_checked::Step;
use mos_constants::constant;
use mos_sorts::bound::copied_names;
use mos_sorts::meaning::{declare, note_name_twice};
use mos_sorts::names::note_declared_twice;
use mos_sorts::trees::sort_of;
use mos_sorts::{Role, Scope, Sort, Typed, Value};
use mos_text::{Kind, NoMemory, SourceText};
use mos_tree::{Expr, Item, TypeForm};
use mos_types::{TypeFault, judge, look};
use sqlite_items::Items;
use std::alloc::Global;

/// Notes a name that is declared already.
pub fn twice_here(alloc: Global, scope: &Scope, name: &SourceText) -> Result<Option<Kind>, NoMemory>
    ensures { IfOk result (λ worst. worst ≡ spec.twice_here name.now scope.now) }
{
    let mut worst = None;
    note_name_twice(alloc, &mut worst, scope, name)?;
    Ok(worst)
}

/// What is found of a constant expression: its type and its value if it has them.
#[derive(Drop)]
pub struct ConstantFound {
    pub sort: Option<Sort>,
    pub value: Option<Value>,
}

/// A constant expression; notes the rules that it breaks.
#[tactic(auto, unfolding(crate::specs::Items::constant_found))]
pub fn constant_found(
    alloc: Global,
    worst: &mut Option<Kind>,
    scope: &Scope,
    expr: &Expr,
) -> Result<ConstantFound, NoMemory>
    ensures sort { IfOk result
        (λ x. x.sort ≡ (spec.constant_found expr.now scope.now worst.old).sort) }
    ensures value { IfOk result
        (λ x. x.value ≡ (spec.constant_found expr.now scope.now worst.old).value) }
    ensures worst { OnOk result
        (worst.new ≡ (spec.constant_found expr.now scope.now worst.old).worst) }
{
    let tree = look(alloc, worst, scope, &[], expr)?;
    let value = constant(alloc, worst, scope, expr, &tree)?;
    let sort = sort_of(&tree);
    Ok(ConstantFound { sort, value })
}

fn declare_constant(
    alloc: Global,
    scope: &mut Scope,
    name: &SourceText,
    sort: Option<Sort>,
    value: Option<Value>,
) -> Result<(), NoMemory>
    ensures { OnOk result (scope.new ≡ spec.with_constant name.now sort value scope.old) }
{
    match (sort, value) {
        (Some(sort), Some(value)) => declare(alloc, scope, name, Role::Constant(sort, value)),
        _ => Ok(()),
    }
}

/// `NAME = E`
fn constant_piece(
    alloc: Global,
    line: u32,
    scope: &mut Scope,
    name: &SourceText,
    expr: &Expr,
) -> Result<(), TypeFault>
    ensures ok { OnOk result
        (taken line (spec.constant_piece name.now expr.now scope.old) ≡ Ok scope.new) }
    ensures fault { IfAt result
        (λ f. taken line (spec.constant_piece name.now expr.now scope.old) ≡ Err f) }
{
    let mut worst = twice_here(alloc, scope, name)?;
    let found = constant_found(alloc, &mut worst, scope, expr)?;
    judge(line, worst)?;
    declare_constant(alloc, scope, name, found.sort, found.value)?;
    Ok(())
}

/// The names of variables, noted where they are declared already.
fn all_twice(alloc: Global, scope: &Scope, names: &[SourceText]) -> Result<Option<Kind>, NoMemory>
    ensures { IfOk result (λ worst. worst ≡ twice_of_all scope.now [] names.now None) }
{
    let mut worst = None;
    note_declared_twice(alloc, &mut worst, scope, &[], names)?;
    Ok(worst)
}

fn declare_all(
    alloc: Global,
    scope: &mut Scope,
    names: &[SourceText],
    sort: Sort,
) -> Result<(), NoMemory>
    ensures { OnOk result (scope.new ≡ with_all names.now (role.Variable sort) scope.old) }
{
    for name in names {
        declare(alloc, scope, name, Role::Variable(sort))?;
    }
    Ok(())
}

fn declare_variables(
    alloc: Global,
    scope: &mut Scope,
    names: &[SourceText],
    sort: Option<Sort>,
) -> Result<(), NoMemory>
    ensures { OnOk result (scope.new ≡ spec.with_variables names.now sort scope.old) }
{
    match sort {
        Some(sort) => declare_all(alloc, scope, names, sort),
        None => Ok(()),
    }
}

/// One step, alone.
fn one_step(alloc: Global, step: Step) -> Result<Items<Step>, NoMemory>
    ensures { IfOk result (λ steps. steps ≡ step ∷ []) }
{
    let mut steps = Items::new(alloc);
    steps.push(step)?;
    Ok(steps)
}

/// What executing the declaration of these variables does.
fn made(
    alloc: Global,
    scope: &Scope,
    line: u32,
    names: &[SourceText],
    dense: bool,
    typ: WrittenType,
) -> Result<Items<Step>, NoMemory>
    ensures { IfOk result
        (λ steps. steps ≡ spec.made dense line names.now typ.sort typ.sets scope.now) }
{
    match typ.sort {
        Some(sort) if dense => {
            let names = copied_names(alloc, names)?;
            one_step(
                alloc,
                Step::Arrays {
                    line,
                    place: here(scope),
                    names,
                    sort,
                    sets: typ.sets,
                },
            )
        }
        _ => Ok(Items::new(alloc)),
    }
}

/// `a, b: type`
fn variables_piece(
    alloc: Global,
    line: u32,
    scope: &mut Scope,
    names: &[SourceText],
    typ: &TypeForm,
) -> Result<Items<Step>, TypeFault>
    ensures ok { IfOk result
        (λ steps. taken line (spec.variables_piece line names.now typ.now scope.old)
        ≡ Ok (steps, scope.new)) }
    ensures fault { IfAt result
        (λ f. taken line (spec.variables_piece line names.now typ.now scope.old) ≡ Err f) }
{
    let mut worst = all_twice(alloc, scope, names)?;
    let found = written(alloc, &mut worst, scope, typ)?;
    judge(line, worst)?;
    let sort = found.sort;
    let steps = made(alloc, scope, line, names, is_dense(typ), found)?;
    declare_variables(alloc, scope, names, sort)?;
    Ok(steps)
}

/// An item of a block of declarations, and what executing it does.
fn item(alloc: Global, scope: &mut Scope, item: &Item) -> Result<Items<Step>, TypeFault>
    ensures ok { IfOk result (λ steps. spec.item_found item.now scope.old ≡ Ok (steps, scope.new)) }
    ensures fault { IfAt result (λ f. spec.item_found item.now scope.old ≡ Err f) }
{
    match item {
        Item::Constant { line, name, value } => {
            constant_piece(alloc, *line, scope, name, value)?;
            Ok(Items::new(alloc))
        }
        Item::Variables { line, names, typ } => {
            variables_piece(alloc, *line, scope, names.as_slice(), typ)
        }
        Item::Record { line, name, fields } => {
            record_item(alloc, *line, scope, name, fields.as_slice())?;
            Ok(Items::new(alloc))
        }
    }
}

/// The items of a block of declarations, and what executing them does.
pub fn items(alloc: Global, scope: &mut Scope, items: &[Item]) -> Result<Items<Step>, TypeFault>
    ensures ok { IfOk result
        (λ steps. spec.items_found items.now scope.old ≡ Ok (steps, scope.new)) }
    ensures fault { IfAt result (λ f. spec.items_found items.now scope.old ≡ Err f) }
{
    let mut all = Items::new(alloc);
    for one in items {
        let steps = item(alloc, scope, one)?;
        all.append(steps)?;
    }
    Ok(all)
}
