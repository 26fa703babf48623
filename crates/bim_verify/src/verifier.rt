//! All ten rules.
ghost use Rattle.std.specs.Prelude.{◌≡◌, None, IfOk, IfErr};
ghost use Rattle.bim_code.specs.Limits.{CountsInRange, WithinLimits};
ghost use Rattle.bim_rules.specs.Breaches.{first_of};
ghost use Rattle.bim_verify.specs.Verified.{KeepsAllRules, IsFaultOf, breaches};

use crate::points::PointTable;
use crate::stacks::first_in_stacks;
use bim_code::Image;
use bim_code::laws::limits_fit_fields;
use bim_rules::{Breach, CodeMap, first_plain};
use mos_text::NoMemory;
use std::alloc::Global;
use std::marker::Model;

/// An image that keeps all rules. A contract sees the image.
#[derive(Debug, Drop)]
pub struct Verified {
    image: Image,
}

impl Model for Verified {
    ghost use Rattle.bim_code.specs.declared.image.Image.{Image};
    ghost use Rattle.bim_verify.specs.Verified.{KeepsAllRules};

    ghost Value = { Image };

    ghost view = { λ v. v.image };

    ghost invariant = { λ v. KeepsAllRules v.image };
}

impl Verified {
    /// Lends the image; it takes no memory.
    pub fn image(&self) -> &Image
        ensures same { result.now ≡ self.now }
        ensures keeps { KeepsAllRules self.now }
    {
        &self.image
    }

    /// Gives the image back; it takes no memory.
    pub fn into_image(self) -> Image
        ensures same { result ≡ self }
        ensures keeps { KeepsAllRules self }
    {
        self.image
    }
}

/// Why an image is not verified.
#[derive(Clone, Copy, PartialEq, Debug, Drop)]
pub enum VerifyFault {
    /// The least rule that is broken, 1 to 10, and the first place: the number of a table's entry, from
    /// 0, or an address of the code.
    Rejected { at: u32, rule: u32 },
    NoMemory,
}

impl From<NoMemory> for VerifyFault {
    fn from(_refused: NoMemory) -> VerifyFault
        ensures { result ≡ VerifyFault.NoMemory }
    {
        VerifyFault::NoMemory
    }
}

#[tactic(auto, using(crate::proofs::First::first_append))]
fn first_breach(alloc: Global, image: &Image) -> Result<Option<Breach>, NoMemory>
    requires { CountsInRange image.now }
    ensures { IfOk result (λ first. first ≡ first_of None (breaches image.now)) }
{
    let map = CodeMap::of(alloc, image)?;
    let points = PointTable::of(alloc, image)?;
    let found = first_plain(alloc, &map, image)?;
    first_in_stacks(alloc, found, &map, image, &points)
}

/// Verifies an image that keeps the limits of the format. It is accepted exactly where it keeps all ten
/// rules, and else refused at the first place that breaks the least of those that it breaks.
#[tactic(auto, using(crate::proofs::First::none_found, crate::proofs::First::first_found))]
pub fn verify(alloc: Global, image: Image) -> Result<Verified, VerifyFault>
    requires { WithinLimits image }
    ensures same { IfOk result (λ verified. verified ≡ image) }
    ensures keeps { IfOk result (λ verified. KeepsAllRules verified) }
    ensures fault { IfErr result (IsFaultOf image) }
{
    limits_fit_fields(&image);
    match first_breach(alloc, &image) {
        Ok(None) => Ok(Verified { image }),
        Ok(Some(breach)) => Err(VerifyFault::Rejected {
            at: breach.at,
            rule: breach.rule.number(),
        }),
        Err(_refused) => Err(VerifyFault::NoMemory),
    }
}
