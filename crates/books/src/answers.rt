// What books answer: prices, and values for a slot.

// Prices in thousandths of a penny per kWh.
#[derive(Clone, Copy, PartialEq, Eq, Debug)]
pub struct Prices {
    pub energy: u32,
    pub delivery: u32,
}

// What stands in for missing readings of one slot, in Wh; for a hauled journey in thousandths of a Wh per tonne of weight ÷ locomotives.
#[derive(Clone, Copy, Default, PartialEq, Eq, Debug)]
pub struct SlotValues {
    pub consumption: u32,
    pub regeneration: u32,
}
