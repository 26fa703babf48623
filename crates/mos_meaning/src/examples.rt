//! Worked examples of the definitions: functions that do nothing, whose contracts are the examples.
ghost use Rattle.mos_meaning.specs.Examples.{HelloMeans, HelloSpent, HelloRefused, FiveMeans, TooMuchMeans, LastWayMeans, ParameterMeans, DownMeans, DownSpent, DownEnough, EndlessSpent, UntilTwoMeans, HelloCourse, HelloCourseSpent, ParameterCourses, MeaninglessOperands, HelloFollows, TooFewLines, NoModel, AnotherSource};
ghost use Rattle.mos_meaning.specs.FormsToCome.{ExampleMeans, ExampleAgrees, TooDeepMeans, TooDeepAgrees, EarlyIsStuck, OtherKindsAreLost, OtherArgumentsAreLost};
ghost use Rattle.mos_meaning.specs.FreshSets.{CopyMeans, CopyAgrees, CopySpends, SomeMeans};

/// What a few models mean.
pub fn meanings()
    ensures hello { HelloMeans }
    ensures spent { HelloSpent }
    ensures refused { HelloRefused }
    ensures sum { FiveMeans }
    ensures overflow { TooMuchMeans }
    ensures last_way { LastWayMeans }
    ensures parameter { ParameterMeans }
{}

/// What models with loops mean.
pub fn meanings_of_loops()
    ensures down { DownMeans }
    ensures spent { DownSpent }
    ensures enough { DownEnough }
    ensures endless { EndlessSpent }
    ensures until_two { UntilTwoMeans }
{}

/// What a few images do.
pub fn courses()
    ensures hello { HelloCourse }
    ensures spent { HelloCourseSpent }
    ensures parameter { ParameterCourses }
    ensures meaningless { MeaninglessOperands }
{}

/// A model with an aggregate, a routine by reference and a call of the hub: what it means, and that the
/// machine does the same; calls that are too deep; a function that leaves without its value; and routines
/// and arguments of a kind that is not wanted.
pub fn forms_to_come()
    ensures means { ExampleMeans }
    ensures agrees { ExampleAgrees }
    ensures too_deep { TooDeepMeans }
    ensures too_deep_agrees { TooDeepAgrees }
    ensures early_is_stuck { EarlyIsStuck }
    ensures other_kinds_are_lost { OtherKindsAreLost }
    ensures other_arguments_are_lost { OtherArgumentsAreLost }
{}

/// A model that passes a set as a fresh value to a routine that changes it, and sends a message: what
/// it means, that the machine does the same, which globals are told, and what it means where the set
/// itself is passed.
pub fn fresh_sets()
    ensures means { CopyMeans }
    ensures agrees { CopyAgrees }
    ensures spends { CopySpends }
    ensures shared { SomeMeans }
{}

/// A run line that follows its source.
pub fn hello_follows()
    ensures { HelloFollows }
{}

/// Run lines that do not follow their sources.
pub fn refused_lines()
    ensures too_few { TooFewLines }
    ensures no_model { NoModel }
    ensures another_source { AnotherSource }
{}
