// A metered record that was read: its figures are in range, and each slot whose bit is set has a reading.
ghost use Rattle.std.specs.Prelude.{◌≡◌, ◌≤◌, unsigned_abs};
ghost use Rattle.books.specs.Answers.{ValuesInRange};
ghost use Rattle.records.specs.Laws.{MeteredRanged};
ghost use Rattle.records.specs.Records.{described_metered};
ghost use Rattle.billing.specs.Filling.{needs_value, first_needing, net, WholeRecord};
ghost use Rattle.billing.specs.Limits.{max_net};

use crate::filling::{asks_regeneration, fill_of, total_filled};
use books::SlotValues;
use records::{Billing, Metered, MeteredLeg};
use std::marker::Model;

#[derive(Drop)]
pub(crate) struct CheckedMetered<'a> {
    metered: Metered<'a>,
}

// A clause sees what the record says, whatever the address of its bytes.
impl<'a> Model for CheckedMetered<'a> {
    ghost use Rattle.records.specs.Laws.{MeteredRanged};
    ghost use Rattle.records.specs.Records.{MeteredRecord, described_metered};
    ghost use Rattle.billing.specs.Filling.{WholeRecord};

    ghost Value = { MeteredRecord };

    ghost view = { λ c. described_metered c.metered };

    ghost invariant = { λ c. MeteredRanged (described_metered c.metered) × WholeRecord (described_metered c.metered) };
}

impl<'a> CheckedMetered<'a> {
    pub(crate) fn new(metered: Metered<'a>) -> Self
        requires ranged { MeteredRanged (described_metered metered) }
        requires whole { WholeRecord (described_metered metered) }
        ensures { result ≡ described_metered metered.entry }
    {
        CheckedMetered { metered }
    }

    pub(crate) fn billing(&self) -> Billing
        ensures { result ≡ self.now.billing }
    {
        self.metered.billing
    }

    pub(crate) fn leg(&self) -> MeteredLeg
        ensures { result ≡ self.now.leg }
    {
        self.metered.leg
    }

    // Whether a missing reading of the slot needs a value.
    fn needs_value(&self, slot: u8) -> bool
        ensures { result ≡ needs_value self.now slot }
    {
        let Metered {
            leg,
            consumption,
            regeneration,
            ..
        } = self.metered;
        !consumption.is_some_and(|block| block.has_reading(slot))
            || asks_regeneration(leg) && !regeneration.is_some_and(|block| block.has_reading(slot))
    }

    // The lowest slot that needs a value.
    pub(crate) fn first_needing(&self) -> Option<u8>
        ensures { result ≡ first_needing self.now }
    {
        (0..self.metered.slots).find(|slot| self.needs_value(*slot))
    }

    // All consumption less all regeneration, missing readings filled.
    pub(crate) fn net(&self, values: SlotValues) -> i64
        requires { ValuesInRange values }
        ensures net { result ≡ net self.now values }
        ensures bound { unsigned_abs result ≤ max_net }
    {
        let metered = self.metered;
        let fill = fill_of(metered.leg, values);
        let consumption = total_filled(metered.consumption, metered.slots, fill.consumption);
        let regeneration = total_filled(metered.regeneration, metered.slots, fill.regeneration);
        // `as` loses nothing: both are at most what 64 slots hold.
        consumption as i64 - regeneration as i64
    }
}
