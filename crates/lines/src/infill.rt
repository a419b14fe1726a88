// An infill line: the values that stand in for a missing reading of a kind of record and a category, in an area and a band.
ghost use Rattle.std.specs.Prelude.{◌≡◌, ◌<◌, ◌≤◌, true, is_ok, MatchResult};
ghost use Rattle.lines.specs.Kinds.{DistinctKinds};
ghost use Rattle.lines.specs.Limits.{infill_in_range, values_in_range, categories, max_infill};
ghost use Rattle.lines.specs.Keys.{infill_key, infill_widths, KeysFollowFields};
ghost use Rattle.lines.specs.declared.fault.ListFault.TheVariants.{OutOfRange};

use crate::fault::ListFault;
use crate::kinds::MeteredKind;
use crate::line::{BYTE_VALUES, CATEGORY_VALUES, Line};
use amounts::{FIRST_BAND, area_exists, band_exists};

// The highest value for a slot.
const MAX_INFILL: u32 = 2_000_000;

#[derive(Clone, Copy, PartialEq, Eq, Debug)]
pub struct InfillLine {
    kind: MeteredKind,
    category: u16,
    area: u8,
    band: u8,
    // Values per slot, in Wh; for a hauled journey in thousandths of a Wh per tonne of weight ÷ locomotives.
    consumption: u32,
    regeneration: u32,
    ghost category_fits: { category < categories },
    ghost in_range: { infill_in_range kind area band consumption regeneration ≡ true },
}

// Whether the values are in range. A non-journey regenerates nothing.
fn values_in_range(kind: MeteredKind, consumption: u32, regeneration: u32) -> bool
    ensures { result ≡ values_in_range kind consumption regeneration }
{
    let most = match kind {
        MeteredKind::MultipleUnitJourney | MeteredKind::HauledJourney => MAX_INFILL,
        MeteredKind::NonJourney => 0,
    };
    consumption <= MAX_INFILL && regeneration <= most
}

fn fields_in_range(
    kind: MeteredKind,
    area: u8,
    band: u8,
    consumption: u32,
    regeneration: u32,
) -> bool
    ensures { result ≡ infill_in_range kind area band consumption regeneration }
{
    area_exists(area) && band_exists(band) && values_in_range(kind, consumption, regeneration)
}

impl InfillLine {
    pub fn new(
        kind: MeteredKind,
        category: u16,
        area: u8,
        band: u8,
        consumption: u32,
        regeneration: u32,
    ) -> Result<Self, ListFault>
        ensures accepted { is_ok result ≡ infill_in_range kind area band consumption regeneration }
        ensures fields { MatchResult result (λ l. (l.kind ≡ kind) × (l.category ≡ category) × (l.area ≡ area) × (l.band ≡ band) × (l.consumption ≡ consumption) × (l.regeneration ≡ regeneration)) (λ e. e ≡ OutOfRange) }
    {
        if !fields_in_range(kind, area, band, consumption, regeneration) {
            return Err(ListFault::OutOfRange);
        }
        Ok(InfillLine {
            kind,
            category,
            area,
            band,
            consumption,
            regeneration,
        })
    }

    // The key of the line of a kind of record, a category, an area and a band.
    pub fn key_at(kind: MeteredKind, category: u16, area: u8, band: u8) -> u64
        ensures key { result ≡ infill_key kind category area band }
        ensures law { KeysFollowFields infill_widths }
        ensures distinct { DistinctKinds }
    {
        let train = u64::from(kind.number()) * CATEGORY_VALUES + u64::from(category);
        (train * BYTE_VALUES + u64::from(area)) * BYTE_VALUES + u64::from(band)
    }

    pub fn consumption(&self) -> u32
        ensures value { result ≡ self.now.consumption }
        ensures range { result ≤ max_infill }
    {
        self.consumption
    }

    pub fn regeneration(&self) -> u32
        ensures value { result ≡ self.now.regeneration }
        ensures range { result ≤ max_infill }
    {
        self.regeneration
    }
}

// A blank line, to fill memory with before it is lent: of non-journeys, without values.
// By hand: a struct with a ghost field derives no Default.
impl Default for InfillLine {
    ghost use Rattle.amounts.specs.Ranges.{first_band};
    ghost use Rattle.lines.specs.declared.kinds.MeteredKind.TheVariants.{NonJourney};

    ghost is_default = { λ l. (l.kind ≡ NonJourney) × (l.category ≡ 0) × (l.area ≡ 0) × (l.band ≡ first_band) × (l.consumption ≡ 0) × (l.regeneration ≡ 0) };

    fn default() -> Self {
        InfillLine {
            kind: MeteredKind::NonJourney,
            category: 0,
            area: 0,
            band: FIRST_BAND,
            consumption: 0,
            regeneration: 0,
        }
    }
}

impl Line for InfillLine {
    ghost key = { λ l. infill_key l.kind l.category l.area l.band };

    fn key(&self) -> u64 {
        Self::key_at(self.kind, self.category, self.area, self.band)
    }
}
