//! The points of an image by their addresses.
ghost use Rattle.std.specs.Prelude.{◌≡◌, ◌<◌, ◌^◌, None, IfOk, OnOk, length, replicate};
ghost use Rattle.std.specs.Option.{option_copied};
ghost use Rattle.bim_code.specs.Code.{code_size};
ghost use Rattle.bim_verify.specs.Tables.{Tells, number_in, with_number};

use bim_code::{Image, Instruction, Point};
use mos_text::NoMemory;
use sqlite_items::at;
use std::alloc::Global;
use std::marker::Model;

/// The first point at each address of the code, found at once. A contract sees the image.
#[derive(Drop)]
pub(crate) struct PointTable<'a> {
    image: &'a Image,
    numbers: Vec<Option<u32>>,
}

impl<'a> Model for PointTable<'a> {
    ghost use Rattle.bim_code.specs.declared.image.Image.{Image};
    ghost use Rattle.bim_verify.specs.Tables.{IsTableOf};

    ghost Value = { Image };

    ghost view = { λ t. t.image.now };

    ghost invariant = { λ t. IsTableOf t.image.now t.numbers.items };
}

impl<'a> PointTable<'a> {
    ghost use Rattle.bim_verify.specs.Stacks.{point_at};

    /// The table of an image's points.
    pub(crate) fn of(alloc: Global, image: &'a Image) -> Result<PointTable<'a>, NoMemory>
        requires size { code_size image.now.code < 2 ^ 32 }
        requires few { length image.now.points < 2 ^ 32 }
        ensures { IfOk result (λ table. table ≡ image.now) }
    {
        let mut numbers = blank(alloc, size_of(image.code.as_slice()))?;
        note_points(&mut numbers, image.points.as_slice());
        Ok(PointTable { image, numbers })
    }

    /// The point at an address of the code, if there is one.
    #[tactic(auto, using(crate::proofs::Numbers::number_leads, crate::proofs::Numbers::none_leads))]
    pub(crate) fn point_at(&self, address: u32) -> Option<&Point>
        ensures { option_copied result ≡ point_at self.now address }
    {
        match number_in(self.numbers.as_slice(), address) {
            Some(number) => self.image.points.get(number as usize),
            None => None,
        }
    }
}

#[tactic(auto, using(crate::proofs::Numbers::number_missing))]
fn number_in(numbers: &[Option<u32>], address: u32) -> Option<u32>
    ensures { result ≡ number_in numbers.now address }
{
    match at(numbers, address as usize) {
        Some(number) => *number,
        None => None,
    }
}

fn size_of(code: &[Instruction]) -> u32
    requires { code_size code.now < 2 ^ 32 }
    ensures { result ≡ code_size code.now }
{
    let mut size: u32 = 0;
    for i in code {
        size += i.width();
    }
    size
}

fn blank(alloc: Global, many: u32) -> Result<Vec<Option<u32>>, NoMemory>
    ensures { IfOk result (λ numbers. numbers.items ≡ replicate many None) }
{
    let mut numbers = Vec::new(alloc);
    for _byte in 0..many {
        numbers.push(None)?;
    }
    Ok(numbers)
}

/// Notes a point in the table, if none is noted at its address.
fn note_point(numbers: &mut [Option<u32>], number: u32, address: u32)
    ensures { numbers.new ≡ with_number numbers.old number address }
{
    let place = address as usize;
    if place < numbers.len() && numbers[place].is_none() {
        numbers[place] = Some(number);
    }
}

#[tactic(auto, using(crate::proofs::Numbers::noted, crate::proofs::Numbers::long))]
fn note_points(numbers: &mut [Option<u32>], points: &[Point])
    requires blank { numbers.old ≡ replicate (length numbers.old) None }
    requires few { length points.now < 2 ^ 32 }
    ensures long { length numbers.new ≡ length numbers.old }
    ensures tells { Tells numbers.new points.now }
{
    let mut number: u32 = 0;
    for point in points {
        note_point(numbers, number, point.address);
        number += 1;
    }
}
