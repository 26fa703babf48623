//! A model, as a journal tells of it.

/// A model.
#[derive(Clone, Copy, Drop)]
pub(crate) struct Model {
    /// The place, in the list of files, of the source that it was last loaded from.
    pub(crate) source: Option<u32>,
    /// It was loaded, and not unloaded since.
    pub(crate) loaded: bool,
    /// The last run of it.
    pub(crate) current: Option<u32>,
}

impl Model {
    /// A model that was never loaded.
    pub(crate) const UNKNOWN: Model = Model {
        source: None,
        loaded: false,
        current: None,
    };
}
