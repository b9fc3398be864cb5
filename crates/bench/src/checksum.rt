// A checksum of numbers in their order.

#[derive(Drop)]
pub struct Checksum(u64);

impl Checksum {
    pub fn new() -> Checksum {
        Checksum(0xcbf2_9ce4_8422_2325)
    }

    pub fn add(&mut self, number: u64) {
        self.0 = (self.0 ^ number).wrapping_mul(0x0000_0100_0000_01b3);
    }

    // The checksum so far.
    pub fn value(&self) -> u64 {
        self.0
    }
}
