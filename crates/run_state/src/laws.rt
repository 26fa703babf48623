//! A law of parameter texts: a function that does nothing, whose contract it is.
ghost use Rattle.run_state.specs.Parameters.{RefusedForAName};

/// A text has a name for which it is refused exactly where it gives no values.
pub fn refused_texts()
    ensures { RefusedForAName }
{}
