//! Laws of the meaning: a function that does nothing, whose contract they are.
ghost use Rattle.mos_meaning.specs.Working.{WorkingNeverStuck, WorkingNeverLost, WorkingCallsNothing};

/// No run of a model whose statements work is stuck or lost, or makes a call.
pub fn working_models()
    ensures never_stuck { WorkingNeverStuck }
    ensures never_lost { WorkingNeverLost }
    ensures calls_nothing { WorkingCallsNothing }
{}
