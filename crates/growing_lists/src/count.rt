//! How many entries a journal has.
ghost use Rattle.std.specs.Prelude.{◌≡◌, ◌<◌, ◌^◌, ◌++◌, ◌∷◌, [], List, length};
ghost use Rattle.job_calls.specs.declared.entry.Entry.{Entry};

/// The count of a journal with one entry more. The greatest number stays.
pub fn one_more(count: u32) -> u32
    ensures { (journal : List Entry) (e : Entry) → count ≡ length journal
        → length (journal ++ e ∷ []) < 2 ^ 32 → result ≡ length (journal ++ e ∷ []) }
{
    count.saturating_add(1)
}
