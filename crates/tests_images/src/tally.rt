//! How often each answer came.
use crate::judged::Answer;
use mos_text::NoMemory;
use std::alloc::Global;

/// Of one answer: how often it came, and the sum of its places.
#[derive(Clone, Copy)]
struct Count {
    times: u64,
    places: u64,
}

/// Of each answer, by its number.
#[derive(Drop)]
pub struct Tally {
    counts: Vec<Count>,
}

/// 0, or the kind of the fault, or 100 more than the rule.
fn number_of(answer: Answer) -> usize {
    match answer {
        Answer::Verified => 0,
        Answer::Bad { kind, .. } => kind as usize,
        Answer::Rejected { rule, .. } => (rule as usize).saturating_add(100),
    }
}

fn place_of(answer: Answer) -> u64 {
    match answer {
        Answer::Verified => 0,
        Answer::Bad { at, .. } | Answer::Rejected { at, .. } => at as u64,
    }
}

fn put_count(
    alloc: Global,
    text: &mut String,
    number: usize,
    count: Count,
) -> Result<(), NoMemory> {
    if count.times > 0 {
        let (times, places) = (count.times, count.places);
        let word = format!(in alloc; " {number}:{times}:{places}")?;
        text.push_str(word.as_str())?;
    }
    Ok(())
}

impl Tally {
    pub fn new(alloc: Global) -> Result<Tally, NoMemory> {
        let mut counts = Vec::new(alloc);
        for _number in 0..111 {
            counts.push(Count {
                times: 0,
                places: 0,
            })?;
        }
        Ok(Tally { counts })
    }

    pub fn add(&mut self, answer: Answer) {
        if let Some(count) = self.counts.get_mut(number_of(answer)) {
            count.times = count.times.saturating_add(1);
            count.places = count.places.saturating_add(place_of(answer));
        }
    }

    /// A word for each answer that came: its number, how often, and the sum of the places.
    pub fn text(&self, alloc: Global) -> Result<String, NoMemory> {
        let mut text = String::from_str(alloc, "answers")?;
        for (number, count) in self.counts.iter().enumerate() {
            put_count(alloc, &mut text, number, *count)?;
        }
        Ok(text)
    }
}
