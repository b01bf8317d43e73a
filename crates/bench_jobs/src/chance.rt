//! Numbers that look random, by the method SplitMix64.

ghost use Rattle.std.specs.Prelude.{◌<◌};

/// A row of numbers. Each seed gives another one.
#[derive(Drop)]
pub(crate) struct Chance {
    state: u64,
}

impl Chance {
    /// The row of a seed.
    pub(crate) fn new(seed: u64) -> Chance {
        Chance { state: seed }
    }

    /// The next number.
    pub(crate) fn next(&mut self) -> u64 {
        self.state = self.state.wrapping_add(0x9e37_79b9_7f4a_7c15);
        let first = (self.state ^ (self.state >> 30)).wrapping_mul(0xbf58_476d_1ce4_e5b9);
        let second = (first ^ (first >> 27)).wrapping_mul(0x94d0_49bb_1331_11eb);
        second ^ (second >> 31)
    }

    /// A number below `bound`; 0 if that is 0.
    #[inline(always)]
    pub(crate) fn below(&mut self, bound: usize) -> usize
        ensures { 0 < bound → result < bound }
    {
        let number = self.next() as usize;
        if bound == 0 { 0 } else { number % bound }
    }

    /// True once in `count` times.
    pub(crate) fn once_in(&mut self, count: usize) -> bool {
        self.below(count) == 0
    }
}
