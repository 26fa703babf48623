//! A law of checked sources: a function that does nothing, whose contract it is.
ghost use Rattle.mos_check.specs.Laws.{CheckedModelsWork};

/// A run can carry out the model of each source in which no fault is found.
pub fn checked_models()
    ensures { CheckedModelsWork }
{}
