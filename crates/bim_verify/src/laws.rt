//! Laws of the definitions: functions that do nothing, whose contract is the law.
ghost use Rattle.bim_verify.specs.Laws.{UnbrokenIsKept, KeptIsUnbroken};

/// An image that breaks none of the rules on numbers, types, addresses, parts and ticks keeps them all as
/// `bim_code` has them, and the other way round.
pub fn rules_are_one()
    ensures kept { UnbrokenIsKept }
    ensures unbroken { KeptIsUnbroken }
{}
