//! Worked examples of the definitions: functions that do nothing, whose contracts are the examples.
ghost use Rattle.bim_compile.specs.Examples.{HelloCompiled, DownCode, LastWayCode, UntilTwoCode, LastWayCourse, DownCourse, DownSpent, EndlessSpent, UntilTwoCourse};

/// What small models are compiled to.
pub(crate) fn compiled_models()
    ensures hello { HelloCompiled }
    ensures down { DownCode }
    ensures last_way { LastWayCode }
    ensures until_two { UntilTwoCode }
{}

/// What the machine does with the image of an `if`.
pub(crate) fn course_of_a_choice()
    ensures { LastWayCourse }
{}

/// What the machine does with the images of loops.
pub(crate) fn courses_of_loops()
    ensures down { DownCourse }
    ensures spent { DownSpent }
    ensures endless { EndlessSpent }
    ensures until_two { UntilTwoCourse }
{}
