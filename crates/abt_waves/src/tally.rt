//! How many streams of a wave are still to start, how many have work or look for some, and how many wait, as one number that changes in
//! one step.

ghost use Rattle.std.specs.Prelude.{◌≡◌, ◌≢◌, ◌<◌, ◌≤◌, ◌+◌, ◌-◌, IfSome, true};
ghost use Rattle.abt_waves.specs.Tallies.{HasSomeone, IsLast};

/// Of the streams of a wave.
#[derive(Clone, Copy)]
pub(crate) struct Tally {
    /// How many are still to start, and are waited for.
    pub(crate) awaited: u8,
    /// How many have work, or look for some. One that was called counts from then on, before it wakes.
    pub(crate) active: u8,
    /// How many have found none, and wait or are about to wake.
    pub(crate) waiting: u8,
    /// Whether there was a moment at which none was active and none awaited. Nobody waits then.
    pub(crate) over: bool,
}

/// What a stream of a wave does, or what is done to it: it starts, it is called while it waits, it wakes, it leaves, it waits, and all that have
/// not started are waited for no longer.
#[derive(Clone, Copy)]
pub(crate) enum Change {
    Started,
    Called,
    Woken,
    Left,
    Rested,
    Abandoned,
}

impl Tally {
    /// So many are to start.
    pub(crate) fn new(awaited: u8) -> Tally
        ensures awaited { result.awaited ≡ awaited }
        ensures nobody { (result.active ≡ 0) × (result.waiting ≡ 0) }
        ensures someone { HasSomeone result }
    {
        Tally {
            awaited,
            active: 0,
            waiting: 0,
            over: false,
        }
    }

    /// The tally that this number holds; `word` packs it.
    pub(crate) fn of(word: u64) -> Tally {
        Tally {
            awaited: (word % (1 << 8)) as u8,
            active: ((word >> 8) % (1 << 8)) as u8,
            waiting: ((word >> 16) % (1 << 8)) as u8,
            over: (word >> 24) % 2 == 1,
        }
    }

    /// The tally as a number.
    pub(crate) fn word(self) -> u64 {
        let over = if self.over { 1 } else { 0 };
        self.awaited as u64 | (self.active as u64) << 8 | (self.waiting as u64) << 16 | over << 24
    }

    /// The tally after a change. None if the wave is over and the stream is not to wait.
    pub(crate) fn after(self, change: Change) -> Option<Tally>
        ensures someone { HasSomeone self → IfSome result HasSomeone }
    {
        match change {
            Change::Started => Some(self.started()),
            Change::Called => Some(self.called()),
            Change::Woken => Some(self.woken()),
            Change::Left => Some(self.left()),
            Change::Abandoned => Some(self.abandoned()),
            Change::Rested => {
                if self.over {
                    return None;
                }
                Some(self.rested())
            }
        }
    }

    // One more is active, and is not awaited any longer.
    fn started(self) -> Tally
        ensures active { self.active < 255 → result.active ≡ self.active + 1 }
        ensures awaited { result.awaited ≡ self.awaited - 1 }
        ensures waiting { result.waiting ≡ self.waiting }
        ensures over { result.over ≡ self.over }
        ensures someone { HasSomeone result }
    {
        Tally {
            awaited: self.awaited.saturating_sub(1),
            active: self.active.saturating_add(1),
            ..self
        }
    }

    // One that waits is called, and is active from now on.
    fn called(self) -> Tally
        ensures active { self.active < 255 → result.active ≡ self.active + 1 }
        ensures awaited { result.awaited ≡ self.awaited }
        ensures waiting { result.waiting ≡ self.waiting }
        ensures over { result.over ≡ self.over }
        ensures someone { HasSomeone result }
    {
        Tally {
            active: self.active.saturating_add(1),
            ..self
        }
    }

    // One that was called no longer waits.
    fn woken(self) -> Tally
        ensures waiting { result.waiting ≡ self.waiting - 1 }
        ensures active { result.active ≡ self.active }
        ensures awaited { result.awaited ≡ self.awaited }
        ensures over { result.over ≡ self.over }
        ensures someone { HasSomeone self → HasSomeone result }
    {
        Tally {
            waiting: self.waiting.saturating_sub(1),
            ..self
        }
    }

    // One that was active leaves. The last one ends the wave, if none is awaited.
    fn left(self) -> Tally
        ensures last { IsLast self → result.over ≡ true }
        ensures active { result.active ≡ self.active - 1 }
        ensures awaited { result.awaited ≡ self.awaited }
        ensures waiting { (IsLast self → ⊥) → result.waiting ≡ self.waiting }
        ensures over { (IsLast self → ⊥) → result.over ≡ self.over }
        ensures someone { HasSomeone result }
    {
        Tally {
            active: self.active.saturating_sub(1),
            ..self
        }
        .ended_if_none()
    }

    // One that was active waits; or none is active any longer, which ends the wave.
    fn rested(self) -> Tally
        ensures last { IsLast self → result.over ≡ true }
        ensures active { result.active ≡ self.active - 1 }
        ensures awaited { result.awaited ≡ self.awaited }
        ensures waiting { (IsLast self → ⊥) → self.over ≢ true → self.waiting < 255 → result.waiting ≡ self.waiting + 1 }
        ensures someone { HasSomeone result }
    {
        let left = self.left();
        if left.over {
            return left;
        }
        Tally {
            waiting: left.waiting.saturating_add(1),
            ..left
        }
    }

    // Those that have not started are waited for no longer. If none is active, that ends the wave.
    fn abandoned(self) -> Tally
        ensures awaited { result.awaited ≡ 0 }
        ensures last { self.active ≡ 0 → result.over ≡ true }
        ensures active { result.active ≡ self.active }
        ensures someone { HasSomeone result }
    {
        Tally { awaited: 0, ..self }.ended_if_none()
    }

    // Over, if none is active and none awaited. Nobody waits then.
    fn ended_if_none(self) -> Tally
        ensures over { (self.active ≡ 0) × (self.awaited ≡ 0) → (result.over ≡ true) × (result.waiting ≡ 0) }
        ensures goes_on { ((self.active ≡ 0) × (self.awaited ≡ 0) → ⊥) → result ≡ self }
        ensures same { (result.active ≡ self.active) × (result.awaited ≡ self.awaited) }
        ensures someone { HasSomeone result }
    {
        if self.active == 0 && self.awaited == 0 {
            return Tally {
                waiting: 0,
                over: true,
                ..self
            };
        }
        self
    }
}
