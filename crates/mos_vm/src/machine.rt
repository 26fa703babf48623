//! The machine that carries out an image: what is at hand, values of global slots, output, ticks.
ghost use Rattle.std.specs.Prelude.{◌≡◌, ℕ, [], ◌∷◌, IfOk};
ghost use Rattle.bim_machine.specs.Instructions.{global};
ghost use Rattle.bim_machine.specs.Machine.{Puts, stop_of as halted};
ghost use Rattle.mos_vm.specs.Courses.{stop_of};
ghost use Rattle.mos_vm.specs.Rows.{act_of, own_stop_of};
ghost use Rattle.mos_vm.specs.declared.asked.Asked.TheVariants as asked;
ghost use Rattle.mos_vm.specs.Stepping.{machine_with, Settles, IsStep, IsResultOf};

use crate::asked::{Asked, OwnStop, Place};
use crate::rows::carry_out;
use crate::runner::RunResult;
use crate::stop::{Control, Stop};
use crate::value::Value;
use crate::work::Work;
use bim_code::{Image, Instruction};
use mos_text::{Blob, FaultKind, NoMemory, OUTPUT_LIMIT};
use sqlite_items::Items;
use std::alloc::Global;
use std::marker::Model;

/// A machine between two instructions.
#[derive(Drop)]
pub(crate) struct Machine {
    work: Work,
    /// The values in the global slots.
    globals: Items<Value>,
    output: Vec<u8>,
    /// The ticks taken.
    ticks: u32,
}

impl Model for Machine {
    ghost use Rattle.std.specs.Prelude.{[], ◌∷◌};
    ghost use Rattle.bim_machine.specs.Courses.{main};
    ghost use Rattle.mos_vm.specs.Stepping.{MachineState};

    ghost Value = { MachineState };

    ghost view = { λ m. record {
      work = m.work;
      here = main;
      state = record {
        memory = record { store = m.globals ∷ []; output = m.output.items };
        counts = record { calls = []; ticks = m.ticks };
      };
    } };
}

impl Machine {
    /// A machine that begins with these values in its global slots.
    pub(crate) fn begin(alloc: Global, globals: Items<Value>) -> Machine
        ensures { result ≡ machine_with globals }
    {
        Machine {
            work: Work::idle(alloc),
            globals,
            output: Vec::new(alloc),
            ticks: 0,
        }
    }

    /// What is told of the run, which stops so after so many steps.
    pub(crate) fn ended(self, stop: Stop, steps: u64) -> RunResult
        ensures { IsResultOf self stop steps result }
    {
        let Machine { output, ticks, .. } = self;
        RunResult {
            stop,
            output: Blob::from_vec(output),
            ticks,
            steps,
        }
    }

    /// Carries out one instruction, and says where it leads.
    pub(crate) fn step(
        &mut self,
        alloc: Global,
        image: &Image,
        budget: u32,
        instruction: Instruction,
    ) -> Result<Control, NoMemory>
        ensures { IfOk result
            (λ control. IsStep image.now budget instruction self.old control self.new) }
    {
        let asked = carry_out(
            alloc,
            &mut self.work,
            image,
            self.globals.as_slice(),
            instruction,
        )?;
        self.settle(budget, asked)
    }

    /// Does what is asked for.
    fn settle(&mut self, budget: u32, asked: Asked) -> Result<Control, NoMemory>
        ensures { IfOk result
            (λ control. Settles budget (act_of asked self.old.work) self.old control self.new) }
    {
        match asked {
            Asked::On => Ok(Control::Goes),
            Asked::Jumps => Ok(Control::Jumps),
            Asked::Stops(halt) => Ok(Control::Halts(stop_by(halt))),
            Asked::Puts(place, value) => Ok(self.put(place, value)),
            Asked::Prints => self.print(),
            Asked::Ticks => Ok(self.tick(budget)),
        }
    }

    /// Puts a value at a place.
    fn put(&mut self, place: Place, value: Value) -> Control
        ensures { (budget : ℕ)
            → Settles budget (act_of (asked.Puts place value) self.old.work)
            self.old result self.new }
    {
        if self.globals.len() <= place.slot as usize || place.frame != 0 {
            return Control::Halts(Stop::Stuck);
        }
        self.globals.set(place.slot as usize, value);
        Control::Goes
    }

    /// Writes all that is held, or nothing where that would be too much.
    fn print(&mut self) -> Result<Control, NoMemory>
        ensures { IfOk result (λ control. (budget : ℕ)
            → Settles budget (act_of asked.Prints self.old.work) self.old control self.new) }
    {
        if self.output.len() + self.work.held().len() > OUTPUT_LIMIT {
            return Ok(Control::Halts(Stop::Failed(FaultKind::OutFull)));
        }
        self.output.extend_from_slice(self.work.held())?;
        self.work.let_held_go();
        Ok(Control::Goes)
    }

    /// Takes a tick, where one is left.
    fn tick(&mut self, budget: u32) -> Control
        ensures { Settles budget (act_of asked.Ticks self.old.work) self.old result self.new }
    {
        if self.ticks >= budget {
            return Control::Halts(Stop::Spent);
        }
        self.ticks += 1;
        Control::Goes
    }
}

/// The stop that an instruction makes by itself.
fn stop_by(halt: OwnStop) -> Stop
    ensures { stop_of result ≡ halted (own_stop_of halt) }
{
    match halt {
        OwnStop::Exits(code) => Stop::Exited(code),
        OwnStop::Fails(kind) => Stop::Failed(kind),
        OwnStop::Sticks => Stop::Stuck,
    }
}
