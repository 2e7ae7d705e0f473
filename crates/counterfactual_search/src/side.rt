// Which value a search looks for, and what that decides: which end is tried first, which is far, and the half that is kept.
ghost use Rattle.std.specs.Prelude.{◌≡◌, ◌+◌, ◌^◌, ◌<◌, ◌≤◌};
ghost use Rattle.rules.specs.Halving.{first_tried, far_end, middle, kept_low, kept_high};
ghost use Rattle.counterfactual_search.specs.Search.{told_side};

#[derive(Clone, Copy)]
pub enum Side {
    Lowest,
    Highest,
}

impl Side {
    // The end that is tried first: the favourable one.
    pub(crate) fn first_tried(self, low: u64, high: u64) -> u64
        ensures { result ≡ first_tried (told_side self) low high }
    {
        match self {
            Side::Lowest => high,
            Side::Highest => low,
        }
    }

    // The least favourable end.
    pub(crate) fn far_end(self, low: u64, high: u64) -> u64
        ensures { result ≡ far_end (told_side self) low high }
    {
        match self {
            Side::Lowest => low,
            Side::Highest => high,
        }
    }

    // The middle of a range: rounded down for the lowest, and up for the highest, with no sum that could pass 64 bits.
    pub(crate) fn middle(self, low: u64, high: u64) -> u64
        requires { low ≤ high }
        ensures { result ≡ middle (told_side self) low high }
    {
        let half = (high - low) / 2;
        match self {
            Side::Lowest => low + half,
            Side::Highest => high - half,
        }
    }

    // The ends of the half that is kept, by whether the middle won.
    pub(crate) fn kept(self, won: bool, low: u64, mid: u64, high: u64) -> (u64, u64)
        requires { mid + 1 < 2 ^ 64 }
        ensures { result ≡ (kept_low (told_side self) won low mid, kept_high (told_side self) won mid high) }
    {
        match (self, won) {
            (Side::Lowest, true) => (low, mid),
            (Side::Lowest, false) => (mid + 1, high),
            (Side::Highest, true) => (mid, high),
            (Side::Highest, false) => (low, mid.saturating_sub(1)),
        }
    }
}
