/// A fixed row of numbers (splitmix64, Steele, Lea and Flood 2014).
#[derive(Drop)]
pub struct Generator {
    state: u64,
}

impl Generator {
    /// The row that a seed gives.
    pub fn new(seed: u64) -> Generator {
        Generator { state: seed }
    }

    fn number(&mut self) -> u64 {
        self.state = self.state.wrapping_add(0x9E37_79B9_7F4A_7C15);
        let a = self.state;
        let b = (a ^ (a >> 30)).wrapping_mul(0xBF58_476D_1CE4_E5B9);
        let c = (b ^ (b >> 27)).wrapping_mul(0x94D0_49BB_1331_11EB);
        c ^ (c >> 31)
    }

    /// A coordinate.
    pub fn coordinate(&mut self) -> u32 {
        (self.number() >> 32) as u32
    }

    /// Two corners of a box of four dimensions.
    pub fn corners(&mut self) -> ([u32; 4], [u32; 4]) {
        let mut low = [0u32; 4];
        let mut high = [0u32; 4];
        for i in 0..4usize {
            let a = self.coordinate();
            let b = self.coordinate();
            low[i] = a.min(b);
            high[i] = a.max(b);
        }
        (low, high)
    }

    /// An address of four dimensions.
    pub fn address(&mut self) -> u128 {
        (u128::from(self.number()) << 64) | u128::from(self.number())
    }
}
