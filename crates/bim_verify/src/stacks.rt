//! The rules on the operand stack.
ghost use Rattle.std.specs.Prelude.{◌≡◌, ◌<◌, ◌^◌, List, IfOk};
ghost use Rattle.std.specs.Option.{option_copied};
ghost use Rattle.bim_code.specs.Code.{code_size};
ghost use Rattle.bim_rules.specs.Breaches.{first_of};
ghost use Rattle.bim_verify.specs.declared.kinds.Kind.{Kind};
ghost use Rattle.bim_verify.specs.Shapes.{shape_of};
ghost use Rattle.bim_verify.specs.Kinds as kinds;
ghost use Rattle.bim_verify.specs.Stacks as spec;
ghost use Rattle.bim_verify.specs.Stacks.{Nothing, known_of, arriving, before, leaves, known_breaches, line_breaches, shape_breaches, shape_leaves, stack_breaches};

use crate::kinds::Kinds;
use crate::points::PointTable;
use crate::rows::{Outcome, Told, shape};
use bim_code::{Image, Instruction, Point};
use bim_rules::{Breach, CodeMap, Rule, Table, named_address, note};
use mos_text::NoMemory;
use std::alloc::Global;

/// What is found up to an instruction, and what is told of the stack behind it.
#[derive(Clone, Copy, PartialEq, Debug, Drop)]
pub struct Line {
    pub found: Option<Breach>,
    pub left: Told,
}

fn arriving(map: &CodeMap<'_>, at: u32, left: Told, stack: &mut Kinds) -> Told
    ensures { known_of result stack.new ≡ arriving map.now at (known_of left stack.old) }
{
    if map.is_start(at) {
        stack.clear();
        Told::Stack
    } else {
        left
    }
}

fn is_stack_of(image: &Image, point: &Point, stack: &Kinds) -> bool
    ensures { result ≡ kinds.same_stack image.now (spec.stack_of image.now point.now) stack.now }
{
    stack.is(image, point.stack.as_slice())
}

fn is_known(image: &Image, point: Option<&Point>, told: Told, stack: &Kinds) -> bool
    ensures { result ≡ spec.is_known image.now (option_copied point.entry) (known_of told stack.now) }
{
    match (point, told) {
        (None, Told::Nothing) => false,
        (Some(point), Told::Stack) => is_stack_of(image, point, stack),
        _ => true,
    }
}

fn with_point(
    image: &Image,
    point: Option<&Point>,
    told: Told,
    stack: &mut Kinds,
) -> Result<Told, NoMemory>
    ensures { IfOk result (λ after. known_of after stack.new
        ≡ spec.with_point image.now (option_copied point.entry) (known_of told stack.old)) }
{
    match point {
        Some(point) => {
            stack.load(image, point.stack.as_slice())?;
            Ok(Told::Stack)
        }
        None => Ok(told),
    }
}

fn is_told_by(image: &Image, point: Option<&Point>, stack: &Kinds) -> bool
    ensures { result ≡ spec.is_told_by image.now (option_copied point.entry) stack.now }
{
    match point {
        Some(point) => is_stack_of(image, point, stack),
        None => false,
    }
}

fn is_told(image: &Image, points: &PointTable<'_>, named: Option<u32>, stack: &Kinds) -> bool
    requires { points.now ≡ image.now }
    ensures { result ≡ spec.is_told image.now named stack.now }
{
    match named {
        Some(address) => is_told_by(image, points.point_at(address), stack),
        None => true,
    }
}

fn left_by(outcome: Outcome) -> Told
    ensures { (stack : List Kind) → known_of result stack ≡ shape_leaves (shape_of outcome stack) }
{
    match outcome {
        Outcome::Breaks(_) => Told::Unsaid,
        Outcome::Flows | Outcome::Splits => Told::Stack,
        Outcome::Goes | Outcome::Closes => Told::Nothing,
    }
}

/// Where an instruction stands, and what it names.
#[derive(Clone, Copy, PartialEq, Debug, Drop)]
pub struct Site {
    pub at: u32,
    pub named: Option<u32>,
}

fn first_by_shape(
    found: Option<Breach>,
    image: &Image,
    points: &PointTable<'_>,
    site: Site,
    outcome: Outcome,
    stack: &Kinds,
) -> Option<Breach>
    requires { points.now ≡ image.now }
    ensures { result ≡ first_of found (shape_breaches image.now site.at site.named (shape_of outcome stack.now)) }
{
    match outcome {
        Outcome::Breaks(rule) => note(found, rule, Table::Code, site.at, false),
        Outcome::Goes | Outcome::Splits => {
            let is_kept = is_told(image, points, site.named, stack);
            note(found, Rule::Targets, Table::Code, site.at, is_kept)
        }
        Outcome::Flows | Outcome::Closes => found,
    }
}

#[tactic(auto, using(crate::proofs::First::first_append), unfolding(crate::specs::Stacks::leaves))]
fn first_by_stack(
    found: Option<Breach>,
    image: &Image,
    points: &PointTable<'_>,
    at: u32,
    i: Instruction,
    stack: &mut Kinds,
) -> Result<Line, NoMemory>
    requires { points.now ≡ image.now }
    ensures found { IfOk result (λ line. line.found
        ≡ first_of found (known_breaches image.now at i (spec.Stack stack.old))) }
    ensures left { IfOk result (λ line. known_of line.left stack.new
        ≡ leaves image.now i (spec.Stack stack.old)) }
{
    let found = note(found, Rule::Heights, Table::Code, at, stack.len() <= 40000);
    let outcome = shape(image, i, stack)?;
    let site = Site {
        at,
        named: named_address(i),
    };
    Ok(Line {
        found: first_by_shape(found, image, points, site, outcome, stack),
        left: left_by(outcome),
    })
}

#[tactic(auto, using(crate::proofs::First::first_append), unfolding(crate::specs::Stacks::leaves))]
fn first_by_known(
    found: Option<Breach>,
    image: &Image,
    points: &PointTable<'_>,
    at: u32,
    i: Instruction,
    told: Told,
    stack: &mut Kinds,
) -> Result<Line, NoMemory>
    requires { points.now ≡ image.now }
    ensures found { IfOk result (λ line. line.found
        ≡ first_of found (known_breaches image.now at i (known_of told stack.old))) }
    ensures left { IfOk result (λ line. known_of line.left stack.new
        ≡ leaves image.now i (known_of told stack.old)) }
{
    match told {
        Told::Stack => first_by_stack(found, image, points, at, i, stack),
        Told::Nothing | Told::Unsaid => Ok(Line {
            found,
            left: Told::Unsaid,
        }),
    }
}

#[tactic(auto, using(crate::proofs::First::first_append), unfolding(crate::specs::Stacks::line_breaches, crate::specs::Stacks::before))]
fn first_by_line(
    found: Option<Breach>,
    map: &CodeMap<'_>,
    image: &Image,
    points: &PointTable<'_>,
    at: u32,
    i: Instruction,
    left: Told,
    stack: &mut Kinds,
) -> Result<Line, NoMemory>
    requires mapped { map.now ≡ image.now }
    requires pointed { points.now ≡ image.now }
    ensures found { IfOk result (λ line. line.found
        ≡ first_of found (line_breaches image.now at i (known_of left stack.old))) }
    ensures left { IfOk result (λ line. known_of line.left stack.new
        ≡ leaves image.now i (before image.now at (known_of left stack.old))) }
{
    let told = arriving(map, at, left, stack);
    let point = points.point_at(at);
    let is_kept = is_known(image, point, told, stack);
    let found = note(found, Rule::Stacks, Table::Code, at, is_kept);
    let told = with_point(image, point, told, stack)?;
    first_by_known(found, image, points, at, i, told, stack)
}

/// The first breach of the rules on stacks.
#[tactic(auto, using(crate::proofs::First::first_append))]
pub(crate) fn first_in_stacks(
    alloc: Global,
    found: Option<Breach>,
    map: &CodeMap<'_>,
    image: &Image,
    points: &PointTable<'_>,
) -> Result<Option<Breach>, NoMemory>
    requires within { code_size image.now.code < 2 ^ 32 }
    requires mapped { map.now ≡ image.now }
    requires pointed { points.now ≡ image.now }
    ensures { IfOk result (λ first. first
        ≡ first_of found (stack_breaches image.now 0 Nothing image.now.code)) }
{
    let mut found = found;
    let mut at: u32 = 0;
    let mut left = Told::Nothing;
    let mut stack = Kinds::new(alloc);
    for i in image.code.as_slice() {
        let line = first_by_line(found, map, image, points, at, *i, left, &mut stack)?;
        found = line.found;
        left = line.left;
        at += i.width();
    }
    Ok(found)
}
