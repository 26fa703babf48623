//! Laws of the definitions of this crate: functions that do nothing, whose contract is the law.
ghost use Rattle.bim_list.specs.Examples.{EndsAtOnceListing, EveryPartListing};

/// Two images have the listings that were written down by hand.
pub fn listings()
    ensures ends_at_once { EndsAtOnceListing }
    ensures every_part { EveryPartListing }
{}
