//! Whether an image keeps the limits of the format, which the verifier asks for.
ghost use Rattle.std.specs.Prelude.{◌≢◌, ◌≤◌, ◌<◌, ◌^◌, Some, All, length};
ghost use Rattle.std.specs.Bool.{OnTrue, OnFalse};
ghost use Rattle.bim_code.specs.Limits.{TypeWithin, RoutineWithin, WithinLimits};

use bim_code::{Image, ImageType, Point, Routine};
use mos_text::Text;

fn texts_within(texts: &[Text]) -> bool
    ensures { OnTrue result (All (λ text. length text ≤ 1048576) texts.now) }
{
    for text in texts {
        if text.as_bytes().len() > 1048576 {
            return false;
        }
    }
    true
}

fn type_within(typ: &ImageType) -> bool
    ensures { OnTrue result (TypeWithin typ.now) }
{
    match typ {
        ImageType::Array { indexes, .. } => 1 <= indexes.len() && indexes.len() <= 8,
        ImageType::Record(fields) => fields.len() < 65536,
        _ => true,
    }
}

fn types_within(types: &[ImageType]) -> bool
    ensures { OnTrue result (All TypeWithin types.now) }
{
    for typ in types {
        if !type_within(typ) {
            return false;
        }
    }
    true
}

fn routine_within(routine: &Routine) -> bool
    ensures { OnTrue result (RoutineWithin routine.now) }
{
    routine.slots.len() < 65536 && !is_last(routine.result)
}

fn is_last(typ: Option<u16>) -> bool
    ensures { OnFalse result (typ ≢ Some 65535) }
{
    match typ {
        Some(typ) => typ == 65535,
        None => false,
    }
}

fn routines_within(routines: &[Routine]) -> bool
    ensures { OnTrue result (All RoutineWithin routines.now) }
{
    for routine in routines {
        if !routine_within(routine) {
            return false;
        }
    }
    true
}

fn points_within(points: &[Point]) -> bool
    ensures { OnTrue result (All (λ point. length point.stack < 2 ^ 16) points.now) }
{
    for point in points {
        if point.stack.len() >= 65536 {
            return false;
        }
    }
    true
}

fn variables_within(image: &Image) -> bool
    ensures constants { OnTrue result (length image.now.constants ≤ 65536) }
    ensures texts { OnTrue result (All (λ text. length text ≤ 1048576) image.now.constants) }
    ensures types { OnTrue result (length image.now.types < 2 ^ 16) }
    ensures parts { OnTrue result (All TypeWithin image.now.types) }
    ensures params { OnTrue result (length image.now.params < 2 ^ 16) }
    ensures globals { OnTrue result (length image.now.globals ≤ 65536) }
{
    image.constants.len() <= 65536
        && image.types.len() < 65536
        && image.params.len() < 65536
        && image.globals.len() <= 65536
        && texts_within(image.constants.as_slice())
        && types_within(image.types.as_slice())
}

fn code_within(image: &Image) -> bool
    ensures routines { OnTrue result (length image.now.routines < 2 ^ 16) }
    ensures slots { OnTrue result (All RoutineWithin image.now.routines) }
    ensures points { OnTrue result (length image.now.points < 2 ^ 32) }
    ensures stacks { OnTrue result (All (λ point. length point.stack < 2 ^ 16) image.now.points) }
    ensures code { OnTrue result (length image.now.code ≤ 262144) }
{
    image.routines.len() < 65536
        && image.points.len() < 65536
        && image.code.len() <= 262144
        && routines_within(image.routines.as_slice())
        && points_within(image.points.as_slice())
}

/// Whether an image keeps them; one of 65,536 points or more is not told from one that does not.
pub fn is_within(image: &Image) -> bool
    ensures { OnTrue result (WithinLimits image.now) }
{
    variables_within(image) && code_within(image)
}
