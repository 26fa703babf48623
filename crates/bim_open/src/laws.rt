//! Laws of the definitions of this crate: functions that do nothing, whose contract is the law.
ghost use Rattle.bim_open.specs.Laws.{VerifiedHasNoFault, OneImage, OneFault};

/// Of the same bytes there is one answer: one verified image, or one fault.
pub fn one_answer()
    ensures never_both { VerifiedHasNoFault }
    ensures one_image { OneImage }
    ensures one_fault { OneFault }
{}
