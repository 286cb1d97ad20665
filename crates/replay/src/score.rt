// How many answers were compared and how many differed.
#[derive(Clone, Copy)]
pub struct Score {
    pub compared: u64,
    pub differ: u64,
}

impl Score {
    // With one answer more. No file has so many that the count stops.
    pub fn with(self, same: bool) -> Score {
        Score {
            compared: self.compared.saturating_add(1),
            differ: self.differ.saturating_add(u64::from(!same)),
        }
    }
}
