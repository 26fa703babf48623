//! Worked examples of the definitions: functions that do nothing, whose contracts are the examples.
ghost use Rattle.mosel_run.specs.Examples.{HelloSchedule, HelloPuts, HelloBytes, HelloStatements, HelloIsWhole, PutsInOrder};

use job_laws::journals::hello_journal;

/// The job of a model that writes hello on one lane: its journal, and what it puts.
pub fn hello_job()
    ensures schedule { HelloSchedule }
    ensures whole { HelloIsWhole }
    ensures puts { HelloPuts }
{
    hello_journal();
}

/// The model that writes hello: its statements, and the bytes of its image.
pub fn hello_model()
    ensures statements { HelloStatements }
    ensures bytes { HelloBytes }
{}

/// What a job with several files puts.
pub fn several_puts()
    ensures { PutsInOrder }
{}
