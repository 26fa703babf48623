//! The two ends of a pipe, and its sessions.
ghost use Rattle.std.specs.Prelude.{◌≡◌};
ghost use Rattle.job_calls.specs.declared.call.Way.TheVariants.{Reads, Writes};
ghost use Rattle.job_calls.specs.Pipes as pipes;
ghost use Rattle.mempipe.specs.States as states;

use crate::hold::Hold;
use crate::words::{is_closed_by, opened_session, opens};
use job_calls::{Entry, Way};
use mos_text::Text;

/// Who opened the ends of a pipe, and for which sessions.
#[derive(Clone, Copy, Drop)]
pub(crate) struct Ends {
    /// Who opened it to read, and did not close it. The run may have finished since.
    pub(crate) reader: Option<Hold>,
    /// Who opened it to write, likewise.
    pub(crate) writer: Option<Hold>,
    /// The place at which it was last opened to read.
    pub(crate) session: Option<u32>,
    /// The session that it was last opened to write for.
    pub(crate) joined: Option<u32>,
    /// The last session had its writer already.
    pub(crate) had_writer: bool,
}

impl Ends {
    /// The ends of a pipe that nobody has opened.
    pub(crate) const NONE: Ends = Ends {
        reader: None,
        writer: None,
        session: None,
        joined: None,
        had_writer: false,
    };

    /// Who opened this end, and did not close it.
    pub(crate) fn hold(self, way: Way) -> Option<Hold>
        ensures { result ≡ states.hold_of way self }
    {
        match way {
            Way::Reads => self.reader,
            Way::Writes => self.writer,
        }
    }

    /// The ends of the pipe of this name after one more entry, which stands at this place.
    pub(crate) fn after(self, name: &Text, entry: &Entry, place: u32) -> Ends
        ensures { result ≡ states.ends_after name.now place self entry.now }
    {
        let begins = opens(Way::Reads, name, entry);
        Ends {
            reader: hold_after(Way::Reads, name, self.reader, entry, place),
            writer: hold_after(Way::Writes, name, self.writer, entry, place),
            session: if begins { Some(place) } else { self.session },
            joined: opened_session(Way::Writes, name, entry).or(self.joined),
            had_writer: !begins && (self.had_writer || joins(self.session, name, entry)),
        }
    }
}

/// Who opened this end and did not close it, after one more entry.
fn hold_after(way: Way, name: &Text, hold: Option<Hold>, entry: &Entry, place: u32) -> Option<Hold>
    ensures { result ≡ states.hold_after way name.now place hold entry.now }
{
    if opens(way, name, entry) {
        return holds_from(entry.run, place);
    }
    if is_closed_by(name, hold, entry) {
        None
    } else {
        hold
    }
}

/// The run holds an end from this place on.
fn holds_from(run: Option<u32>, place: u32) -> Option<Hold>
    ensures { result ≡ states.holds_from run place }
{
    match run {
        Some(run) => Some(Hold { run, since: place }),
        None => None,
    }
}

/// The entry opens the pipe to write, for this session.
fn joins(session: Option<u32>, name: &Text, entry: &Entry) -> bool
    ensures { result ≡ states.joins session name.now entry.now }
{
    is_session(session, opened_session(Way::Writes, name, entry))
}

/// Both are there, and are one session.
pub(crate) fn is_session(place: Option<u32>, other: Option<u32>) -> bool
    ensures { result ≡ pipes.is_session place other }
{
    match (place, other) {
        (Some(place), Some(other)) => place == other,
        _ => false,
    }
}
