//! Laws of the definitions of this crate: functions that do nothing, whose contract is the law.
ghost use Rattle.bim_code.specs.Examples.{EndsAtOnceBytes, EveryPartBytes, Addresses};
ghost use Rattle.bim_code.specs.AddressLaws.{BeginsAtSum, NoneElsewhere};
ghost use Rattle.bim_code.specs.Limits.{CountsInRange, WithinLimits};

use crate::image::Image;

/// An image that ends at once with code 0 has these 34 bytes.
pub fn ends_at_once_bytes()
    ensures { EndsAtOnceBytes }
{}

/// An image with an entry of each kind in each part has these bytes.
pub fn every_part_bytes()
    ensures { EveryPartBytes }
{}

/// An address inside an instruction, or behind the code, has none.
pub fn addresses()
    ensures { Addresses }
{}

/// An image that keeps the limits of the format has bytes.
pub fn limits_fit_fields(image: &Image)
    requires { WithinLimits image.now }
    ensures { CountsInRange image.now }
{}

/// An instruction begins at the sum of the widths before it, and nowhere else does one begin.
pub fn addresses_are_sums()
    ensures there { BeginsAtSum }
    ensures nowhere_else { NoneElsewhere }
{}
