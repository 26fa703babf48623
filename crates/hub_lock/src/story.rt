//! What a lock keeps: a value that stands for a list of entries, each of one lane.
ghost use Rattle.std.specs.Prelude.{◌≡◌, ℕ, ◌^◌, ◌<◌, List, [], ◌∷◌, ◌++◌, length, slice_get, Option, Some, None, IfOk, IfErr, MatchResult};
ghost use Rattle.hub_lock.specs.LaneEntries.{entries_of};

/// A value that stands for a list of entries, to which each accepted call adds one.
///
/// A list that a value can stand for is `sound`. `answers` says what an accepted call means, of the list
/// before, the lane, the call, the new entry and the answer; `refuses` says what a refusal means. `allowed`
/// is the condition of a call, of the first entry, the lane's own entries, the lane and the call. `waits`
/// has the refused call where a refusal means "not ready", so that the call may be tried again.
pub trait Story: Drop {
    type Call;

    type Acted;

    type Held: Drop;
    /// Entries are for clauses alone: no value of this type is made here.
    type Entry;

    ghost list: { Self → List Self.Entry };

    ghost lane_of: { Self.Entry → ℕ };

    ghost sound: { List Self.Entry → Type 0 };

    ghost answers: { List Self.Entry → ℕ → Self.Call → Self.Entry → Self.Acted → Type 0 };

    ghost refuses: { List Self.Entry → ℕ → Self.Call → Self.Held → Type 0 };

    ghost allowed: { Option Self.Entry → List Self.Entry → ℕ → Self.Call → Type 0 };

    ghost waits: { Self.Held → Option Self.Call };

    /// Answers the call and adds one entry of the lane, or refuses it and adds none.
    fn step(&mut self, lane: u32, call: Self::Call) -> Result<Self::Acted, Self::Held>
        requires { allowed (slice_get (list self.old) 0) (entries_of lane_of lane (list self.old)) lane call }
        ensures answered { IfOk result (λ acted. (entry : Self.Entry)
            × (list self.new ≡ list self.old ++ entry ∷ [])
            × (lane_of entry ≡ lane)
            × answers (list self.old) lane call entry acted) }
        ensures sound { IfOk result
            (λ _. sound (list self.new) × (length (list self.new) < 2 ^ 32)) }
        ensures refused { IfErr result
            (λ held. (list self.new ≡ list self.old) × refuses (list self.old) lane call held) }
        ensures not_ready { IfErr result
            (λ held. (same : Self.Call) → waits held ≡ Some same → same ≡ call) };

    /// The number of entries.
    fn entries(&self) -> u32
        ensures count { result ≡ length (list self.now) }
        ensures sound { sound (list self.now) };

    /// The refused call, where the refusal means "not ready"; else the refusal.
    fn again(held: Self::Held) -> Result<Self::Call, Self::Held>
        ensures { MatchResult result (λ call. waits held ≡ Some call)
            (λ same. (same ≡ held) × (waits held ≡ None)) };
}
