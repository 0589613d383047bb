// Counts of comparisons.

// How many comparisons were made, and how many of them differ.
#[derive(Default, Drop)]
pub struct Count {
    pub compared: u64,
    pub differ: u64,
}

impl Count {
    // One comparison more.
    pub fn tally(&mut self, same: bool) {
        self.compared = self.compared.wrapping_add(1);
        self.differ = self.differ.wrapping_add(u64::from(!same));
    }
}
