//! Carries out a whole image, and says what can be told of the run.
ghost use Rattle.std.specs.Prelude.{◌<◌, ◌≤◌, ◌+◌, ◌*◌, ◌^◌, [], IfOk, length};
ghost use Rattle.bim_code.specs.Code.{code_size};
ghost use Rattle.bim_code.specs.Rules.{KeepsTicks};
ghost use Rattle.mos_vm.specs.Courses.{IsCourse};
ghost use Rattle.mos_vm.specs.Running.{IsOverInTime, IsRunOf, HasNoStep};
ghost use Rattle.mos_vm.specs.Stepping.{world};

use crate::code::{by_address, found_at, target};
use crate::machine::Machine;
use crate::start::{Start, beginning};
use crate::stop::{Control, Stop};
use bim_code::Image;
use bim_machine::machine_laws;
use mos_text::{Blob, FaultKind, NoMemory, Text};
use std::alloc::Global;

/// What a run did.
#[derive(Debug, Drop)]
pub struct RunResult {
    pub stop: Stop,
    /// All that the model wrote.
    pub output: Blob,
    /// The ticks taken.
    pub ticks: u32,
    /// The instructions begun.
    pub steps: u64,
}

/// Carries out an image with a parameter text, for so many ticks. It makes no call: no instruction
/// asks for one yet.
pub fn run(alloc: Global, image: &Image, params: &Text, budget: u32) -> Result<RunResult, NoMemory>
    requires keeps { KeepsTicks image.now }
    requires small { code_size image.now.code < 2 ^ 30 }
    ensures course { IfOk result (λ ran. IsCourse image.now params.now budget ran) }
    ensures ticks { IfOk result (λ ran. ran.ticks ≤ budget) }
    ensures steps { IfOk result (λ ran. ran.steps ≤ length image.now.code * (2 * ran.ticks + 2)) }
{
    machine_laws();
    match beginning(alloc, image, params)? {
        Start::Begins(values) => go(alloc, image, budget, Machine::begin(alloc, values)),
        Start::Refused => Ok(no_step(alloc, Stop::Failed(FaultKind::BadParam))),
        Start::Broken => Ok(no_step(alloc, Stop::Stuck)),
    }
}

/// The run of an image that stops before its first instruction.
fn no_step(alloc: Global, stop: Stop) -> RunResult
    ensures { HasNoStep stop result }
{
    RunResult {
        stop,
        output: Blob::from_vec(Vec::new(alloc)),
        ticks: 0,
        steps: 0,
    }
}

/// Carries out an image from its first instruction on.
fn go(alloc: Global, image: &Image, budget: u32, machine: Machine) -> Result<RunResult, NoMemory>
    requires over { IsOverInTime image.now (world [] budget) machine }
    requires small { code_size image.now.code < 2 ^ 30 }
    ensures { IfOk result (λ ran. IsRunOf image.now (world [] budget) machine ran) }
{
    machine_laws();
    let code = by_address(alloc, image.code.as_slice())?;
    let mut machine = machine;
    let mut address: u32 = 0;
    let mut steps: u64 = 0;
    loop {
        let begun = steps + 1;
        let Some(instruction) = found_at(&code, address) else {
            return Ok(machine.ended(Stop::Stuck, begun));
        };
        let next = address + instruction.width();
        match machine.step(alloc, image, budget, instruction)? {
            Control::Goes => address = next,
            Control::Jumps => address = target(instruction, next),
            Control::Halts(stop) => return Ok(machine.ended(stop, begun)),
        }
        steps = begun;
    }
}
