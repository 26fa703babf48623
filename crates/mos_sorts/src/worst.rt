//! What counts of several rules that one piece breaks.
ghost use Rattle.std.specs.Prelude.{◌≡◌, OnOk};
ghost use Rattle.mos_text.specs.declared.kind.Kind.TheVariants.{Unknown, Out};
ghost use Rattle.mos_sorts.specs.Kinds as spec;

use mos_text::{Kind, NoMemory, SourceText};
use std::alloc::Global;

/// The place of a kind in the table of rules.
fn rank(kind: &Kind) -> u8
    ensures { result ≡ spec.rank kind.now }
{
    match kind {
        Kind::Out(_) => 1,
        Kind::Jobs => 2,
        Kind::Unknown(_) => 3,
        Kind::Twice(_) => 4,
        Kind::Forward => 5,
        Kind::Loop => 6,
        Kind::Return => 7,
        Kind::Const => 8,
        Kind::Flat => 9,
        Kind::Prefix(_) => 10,
        Kind::Args => 11,
        Kind::NoType => 12,
        _ => 13,
    }
}

/// Whether a rule that is broken now counts more than one that was broken before.
fn counts(worst: &Option<Kind>, kind: &Kind) -> bool
    ensures { result ≡ spec.counts worst.now kind.now }
{
    match worst {
        None => true,
        Some(before) => rank(kind) < rank(before),
    }
}

/// Notes a rule that is broken.
pub fn note(worst: &mut Option<Kind>, kind: Kind)
    ensures { worst.new ≡ spec.sooner worst.old kind }
{
    if counts(worst, &kind) {
        *worst = Some(kind);
    }
}

/// Notes a rule if it is broken.
pub fn note_if(worst: &mut Option<Kind>, broken: bool, kind: Kind)
    ensures { worst.new ≡ spec.least worst.old (spec.breaks broken kind) }
{
    if broken {
        note(worst, kind);
    }
}

/// Notes what counts of a later part.
pub fn note_later(worst: &mut Option<Kind>, later: Option<Kind>)
    ensures { worst.new ≡ spec.and_later worst.old later }
{
    if let Some(kind) = later {
        note(worst, kind);
    }
}

/// Notes that a name is not declared.
pub fn note_unknown(
    alloc: Global,
    worst: &mut Option<Kind>,
    name: &SourceText,
) -> Result<(), NoMemory>
    ensures { OnOk result (worst.new ≡ spec.sooner worst.old (Unknown name.now)) }
{
    let name = name.text().copy(alloc)?;
    note(worst, Kind::Unknown(name));
    Ok(())
}

/// Notes that a routine is left out.
pub fn note_left_out(
    alloc: Global,
    worst: &mut Option<Kind>,
    name: &SourceText,
) -> Result<(), NoMemory>
    ensures { OnOk result (worst.new ≡ spec.sooner worst.old (Out name.now)) }
{
    let name = name.text().copy(alloc)?;
    note(worst, Kind::Out(name));
    Ok(())
}
