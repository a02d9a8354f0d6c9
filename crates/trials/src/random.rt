// Pseudo-random numbers: the same seed and case give the same numbers.
ghost use Rattle.std.specs.Prelude.{◌<◌};

#[derive(Clone, Copy)]
pub struct Random {
    state: u64,
}

impl Random {
    pub fn new(seed: u64, case: u64) -> Random {
        Random {
            state: seed.rotate_left(32) ^ case,
        }
    }

    // Any number: a counter with a large odd stride, its bits mixed.
    fn draw(&mut self) -> u64 {
        self.state = self.state.wrapping_add(0x9e37_79b9_7f4a_7c15);
        let n = self.state;
        let n = (n ^ (n >> 30)).wrapping_mul(0xbf58_476d_1ce4_e5b9);
        let n = (n ^ (n >> 27)).wrapping_mul(0x94d0_49bb_1331_11eb);
        n ^ (n >> 31)
    }

    // Other numbers, from here on.
    pub fn fork(&mut self) -> Random {
        Random { state: self.draw() }
    }

    // A number below `end`, or 0 where there is none.
    pub fn below(&mut self, end: u64) -> u64
        ensures { 0 < end → result < end }
    {
        if end == 0 {
            return 0;
        }
        self.draw() % end
    }

    // True so many times in a hundred.
    pub fn chance(&mut self, percent: u64) -> bool {
        self.below(100) < percent
    }

    // One of the numbers, or 0 where there is none.
    pub fn one_of(&mut self, numbers: &[u64]) -> u64 {
        let at = self.below(numbers.len() as u64);
        numbers.get(at as usize).copied().unwrap_or(0)
    }
}
