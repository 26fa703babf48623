//! What is read from a file entry by entry, and tables of it.
ghost use Rattle.std.specs.Prelude.{List, ℕ};
ghost use Rattle.bim_read.specs.Reading.{Found, Finds, many, table};
ghost use Rattle.bim_read.specs.Fields.{count_at, half_at, word_at};

use crate::cursor::Cursor;
use crate::fault::ReadFault;
use sqlite_items::Items;
use std::alloc::Global;

/// An entry of a table of the image.
pub trait Decode: Sized + Drop {
    ghost reading: { List ℕ → Found Self };

    /// Reads an entry.
    fn read(alloc: Global, from: &mut Cursor<'_>) -> Result<Self, ReadFault>
        ensures { Finds result from.new (reading from.old) };
}

/// As many entries.
#[tactic(auto, using(crate::proofs::Fronts::front_none, crate::proofs::Fronts::many_more, crate::proofs::Fronts::many_wrong, crate::proofs::Fronts::many_whole))]
pub fn read_many<T: Decode>(
    alloc: Global,
    count: u32,
    from: &mut Cursor<'_>,
) -> Result<Items<T>, ReadFault>
    ensures { Finds result from.new (many T.reading count from.old) }
{
    let mut items = Items::new(alloc);
    for _ in 0..count {
        let item = T::read(alloc, from)?;
        items.push(item)?;
    }
    Ok(items)
}

/// A count of 16 bits, and as many entries.
pub fn read_short_table<T: Decode>(
    alloc: Global,
    from: &mut Cursor<'_>,
) -> Result<Items<T>, ReadFault>
    ensures { Finds result from.new (table half_at T.reading from.old) }
{
    let count = from.half()?;
    read_many(alloc, u32::from(count), from)
}

/// A count of 32 bits, and as many entries.
pub fn read_word_table<T: Decode>(
    alloc: Global,
    from: &mut Cursor<'_>,
) -> Result<Items<T>, ReadFault>
    ensures { Finds result from.new (table word_at T.reading from.old) }
{
    let count = from.word()?;
    read_many(alloc, count, from)
}

/// A count of 32 bits that is at most this, and as many entries.
pub fn read_long_table<T: Decode>(
    alloc: Global,
    most: u32,
    from: &mut Cursor<'_>,
) -> Result<Items<T>, ReadFault>
    ensures { Finds result from.new (table (count_at most) T.reading from.old) }
{
    let count = from.count(most)?;
    read_many(alloc, count, from)
}
