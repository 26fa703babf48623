//! The hub as the story of a lock: lanes call it one after the other, each for itself or for the run
//! that it holds.
use crate::held::{Acted, Held};
use crate::hub::Hub;
use hub_lock::Story;
use job_calls::{Call, Entry};

/// A call of a lane, for itself or for the run.
#[derive(Debug, Drop)]
pub struct HubCall {
    pub run: Option<u32>,
    pub call: Call,
}

/// A call that was handed back, with the run that it was made for.
#[derive(Debug, Drop)]
pub struct HubHeld {
    pub run: Option<u32>,
    pub held: Held,
}

impl Story for Hub {
    ghost use Rattle.job_calls.specs.Legal.{IsLegal};
    ghost use Rattle.hub_core.specs.Hubs.{journal_of};
    ghost use Rattle.hub_core.specs.Stories.{AnswersCall, RefusesCall, AllowsCall, not_ready};

    type Call = HubCall;

    type Acted = Acted;

    type Held = HubHeld;

    type Entry = Entry;

    ghost list = { λ hub. journal_of hub };

    ghost lane_of = { λ e. e.lane };

    ghost sound = { IsLegal };

    ghost answers = { AnswersCall };

    ghost refuses = { RefusesCall };

    ghost allowed = { AllowsCall };

    ghost waits = { not_ready };

    fn step(&mut self, lane: u32, call: HubCall) -> Result<Acted, HubHeld> {
        let HubCall { run, call } = call;
        match self.act(lane, run, call) {
            Ok(acted) => Ok(acted),
            Err(held) => Err(HubHeld { run, held }),
        }
    }

    fn entries(&self) -> u32 {
        self.count()
    }

    fn again(held: HubHeld) -> Result<HubCall, HubHeld> {
        let HubHeld { run, held } = held;
        match held {
            Held::NotYet(call) => Ok(HubCall { run, call }),
            Held::Shut(call) => Err(HubHeld {
                run,
                held: Held::Shut(call),
            }),
            Held::NoMemory(call) => Err(HubHeld {
                run,
                held: Held::NoMemory(call),
            }),
        }
    }
}
