//! All the rules on tables, addresses, parts and ticks.
ghost use Rattle.std.specs.Prelude.{◌≡◌, None, IfOk};
ghost use Rattle.bim_code.specs.Limits.{CountsInRange};
ghost use Rattle.bim_rules.specs.Breaches.{first_of};
ghost use Rattle.bim_rules.specs.Images.{plain_breaches, variable_breaches, part_breaches};

use crate::breach::{Breach, Rule, Table, note};
use crate::code::{first_in_code, has_main};
use crate::code_map::CodeMap;
use crate::tables::{first_in_globals, first_in_parameters, first_in_points, first_in_routines};
use crate::types::first_in_types;
use bim_code::Image;
use mos_text::NoMemory;
use std::alloc::Global;

#[tactic(auto, using(crate::proofs::Breaches::first_append))]
fn first_in_variables(alloc: Global, image: &Image) -> Result<Option<Breach>, NoMemory>
    requires { CountsInRange image.now }
    ensures { IfOk result (λ first. first ≡ first_of None (variable_breaches image.now)) }
{
    let found = first_in_types(None, image);
    let found = first_in_parameters(alloc, found, image)?;
    Ok(first_in_globals(found, image))
}

#[tactic(auto, using(crate::proofs::Breaches::first_append))]
fn first_in_parts(found: Option<Breach>, map: &CodeMap<'_>, image: &Image) -> Option<Breach>
    requires counts { CountsInRange image.now }
    requires mapped { map.now ≡ image.now }
    ensures { result ≡ first_of found (part_breaches image.now) }
{
    let found = first_in_routines(found, map, image);
    let found = first_in_points(found, map, image);
    let found = note(found, Rule::Ends, Table::Code, 0, has_main(map));
    first_in_code(found, map, image)
}

/// The first of all that breaks a rule on numbers, types, addresses, parts or ticks: the least rule that
/// is broken, at the first place.
#[tactic(auto, using(crate::proofs::Breaches::first_append))]
pub fn first_plain(
    alloc: Global,
    map: &CodeMap<'_>,
    image: &Image,
) -> Result<Option<Breach>, NoMemory>
    requires counts { CountsInRange image.now }
    requires mapped { map.now ≡ image.now }
    ensures { IfOk result (λ first. first ≡ first_of None (plain_breaches image.now)) }
{
    let found = first_in_variables(alloc, image)?;
    Ok(first_in_parts(found, map, image))
}
