//! Laws of the machine: a function that does nothing, whose contract they are.
ghost use Rattle.bim_machine.specs.Laws.{MoreChangesNothing, OverInTime, FewSteps, FewStepsOfCourse, TicksWithin, StepByStep, StaysOver, LastStep, AllGrows, CallsWithin, AsksLast};

/// What holds of the machine of every image, and of those whose loops take ticks.
pub fn machine_laws()
    ensures more_changes_nothing { MoreChangesNothing }
    ensures over_in_time { OverInTime }
    ensures few_steps { FewSteps }
    ensures few_steps_of_course { FewStepsOfCourse }
    ensures ticks_within { TicksWithin }
    ensures step_by_step { StepByStep }
    ensures stays_over { StaysOver }
    ensures last_step { LastStep }
    ensures all_grows { AllGrows }
    ensures calls_within { CallsWithin }
    ensures asks_last { AsksLast }
{}
