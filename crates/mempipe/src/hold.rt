//! A run at one end of a pipe.
/// A run that opened an end of a pipe, and the place of the entry that opened it.
#[derive(Clone, Copy, Drop)]
pub(crate) struct Hold {
    pub(crate) run: u32,
    pub(crate) since: u32,
}
