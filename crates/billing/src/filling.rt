// Missing readings: which slot needs a value, and what the slots come to once they are filled.
ghost use Rattle.std.specs.Prelude.{◌≡◌, ◌*◌, ◌≤◌, sum};
ghost use Rattle.std.specs.Option.{option_map};
ghost use Rattle.books.specs.Answers.{ValuesInRange};
ghost use Rattle.records.specs.Blocks.{described_block};
ghost use Rattle.records.specs.Laws.{BlockRanged, LegRanged, LoadRanged};
ghost use Rattle.records.specs.Limits.{max_slots};
ghost use Rattle.lines.specs.Limits.{max_infill};
ghost use Rattle.billing.specs.Limits.{max_slot_value, max_net};
ghost use Rattle.billing.specs.Filling.{kind_of, hauled_value, fill_consumption, fill_regeneration, Whole, filled, asks_regeneration};

use amounts::{Divisor, rounded};
use books::SlotValues;
use lines::MeteredKind;
use records::{MeteredLeg, ReadingBlock};

// What stands in for missing readings of one slot, in Wh.
#[derive(Clone, Copy)]
pub(crate) struct Fill {
    pub(crate) consumption: u64,
    pub(crate) regeneration: u64,
}

// The kind by which an infill book is asked. No From: both types are of crates below.
pub(crate) fn kind_of(leg: MeteredLeg) -> MeteredKind
    ensures { result ≡ kind_of leg }
{
    match leg {
        MeteredLeg::MultipleUnit => MeteredKind::MultipleUnitJourney,
        MeteredLeg::Hauled { .. } => MeteredKind::HauledJourney,
        MeteredLeg::NonJourney => MeteredKind::NonJourney,
    }
}

// The value for a slot of a hauled journey.
fn hauled_value(value: u32, weight: u16, locomotives: u8) -> u64
    requires value { value ≤ max_infill }
    requires load { LoadRanged weight locomotives }
    ensures value { result ≡ hauled_value value weight locomotives }
    ensures bound { result ≤ max_slot_value }
{
    // One locomotive at least, so the divisor is there.
    let Some(divisor) = Divisor::new(Divisor::THOUSANDTHS.get() * u64::from(locomotives)) else {
        unreachable!()
    };
    let product = i64::from(value) * i64::from(weight);
    rounded(product, divisor).unsigned_abs()
}

// What stands in for missing readings of a leg.
pub(crate) fn fill_of(leg: MeteredLeg, values: SlotValues) -> Fill
    requires leg { LegRanged leg }
    requires values { ValuesInRange values }
    ensures consumption { result.consumption ≡ fill_consumption leg values }
    ensures regeneration { result.regeneration ≡ fill_regeneration leg values }
    ensures bound { (result.consumption ≤ max_slot_value) × (result.regeneration ≤ max_slot_value) }
{
    match leg {
        MeteredLeg::MultipleUnit => Fill {
            consumption: u64::from(values.consumption),
            regeneration: u64::from(values.regeneration),
        },
        MeteredLeg::Hauled {
            weight,
            locomotives,
        } => Fill {
            consumption: hauled_value(values.consumption, weight, locomotives),
            regeneration: hauled_value(values.regeneration, weight, locomotives),
        },
        MeteredLeg::NonJourney => Fill {
            consumption: u64::from(values.consumption),
            regeneration: 0,
        },
    }
}

// What a block's readings of the slots come to, each missing one filled.
pub(crate) fn total_filled(block: Option<ReadingBlock>, slots: u8, fill: u64) -> u64
    requires slots { slots ≤ max_slots }
    requires ranged { BlockRanged slots (option_map described_block block) }
    requires whole { Whole (option_map described_block block) }
    requires fill { fill ≤ max_slot_value }
    ensures value { result ≡ sum (filled (option_map described_block block.entry) slots fill) }
    ensures bound { result ≤ max_net }
{
    // A match: for a closure of `map_or` the check asks for the sum's range as a fact on memory, which found no short proof.
    match block {
        None => u64::from(slots) * fill,
        Some(block) => {
            let missing = u64::from(slots) - u64::from(block.count());
            block.total() + missing * fill
        }
    }
}

// Whether a book is asked for missing regeneration.
pub(crate) fn asks_regeneration(leg: MeteredLeg) -> bool
    ensures { result ≡ asks_regeneration leg }
{
    !matches!(leg, MeteredLeg::NonJourney)
}
