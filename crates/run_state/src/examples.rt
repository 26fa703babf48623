//! Worked examples of the definitions: functions that do nothing, whose contracts they are.
ghost use Rattle.run_state.specs.Examples.{GivenValues, RefusedTexts, RefusedNames, Replies, HubResults, Drains, Ticks};

/// What parameter texts give, and which are refused.
pub fn parameter_texts()
    ensures given { GivenValues }
    ensures refused { RefusedTexts }
    ensures names { RefusedNames }
{}

/// What a call and a tick are answered.
pub fn calls_and_ticks()
    ensures replies { Replies }
    ensures results { HubResults }
    ensures drains { Drains }
    ensures ticks { Ticks }
{}
