// A category line: what a category of train is, and its rate of consumption.
ghost use Rattle.std.specs.Prelude.{◌≡◌, ◌<◌, ◌≤◌, true, is_ok, MatchResult};
ghost use Rattle.lines.specs.Limits.{category_in_range, categories, min_power_factor, max_power_factor, max_rate, max_discount};
ghost use Rattle.lines.specs.Keys.{category_key, category_widths, KeysFollowFields};
ghost use Rattle.lines.specs.declared.fault.ListFault.TheVariants.{OutOfRange};

use crate::fault::ListFault;
use crate::kinds::{Electricity, UnitKind};
use crate::line::Line;

// The lowest and the highest power factor, in ten-thousandths.
const MIN_POWER_FACTOR: u16 = 1;

const MAX_POWER_FACTOR: u16 = 15_000;

// The highest rate, in Wh.
const MAX_RATE: u32 = 100_000;

// The highest discount, in ten-thousandths.
const MAX_DISCOUNT: u16 = 10_000;

#[derive(Clone, Copy, PartialEq, Eq, Debug)]
pub struct CategoryLine {
    category: u16,
    electricity: Electricity,
    unit: UnitKind,
    // In ten-thousandths.
    power_factor: u16,
    // In Wh per train mile for a multiple unit, and per 1,000 gross tonne miles for hauled trains.
    rate: u32,
    // The allowance for regenerative braking, in ten-thousandths.
    discount: u16,
    ghost category_fits: { category < categories },
    ghost in_range: { category_in_range power_factor rate discount ≡ true },
}

fn fields_in_range(power_factor: u16, rate: u32, discount: u16) -> bool
    ensures { result ≡ category_in_range power_factor rate discount }
{
    (MIN_POWER_FACTOR..=MAX_POWER_FACTOR).contains(&power_factor)
        && rate <= MAX_RATE
        && discount <= MAX_DISCOUNT
}

impl CategoryLine {
    pub fn new(
        category: u16,
        electricity: Electricity,
        unit: UnitKind,
        power_factor: u16,
        rate: u32,
        discount: u16,
    ) -> Result<Self, ListFault>
        ensures accepted { is_ok result ≡ category_in_range power_factor rate discount }
        ensures fields { MatchResult result (λ l. (l.category ≡ category) × (l.electricity ≡ electricity) × (l.unit ≡ unit) × (l.power_factor ≡ power_factor) × (l.rate ≡ rate) × (l.discount ≡ discount)) (λ e. e ≡ OutOfRange) }
    {
        if !fields_in_range(power_factor, rate, discount) {
            return Err(ListFault::OutOfRange);
        }
        Ok(CategoryLine {
            category,
            electricity,
            unit,
            power_factor,
            rate,
            discount,
        })
    }

    // The key of the line of a category.
    pub fn key_at(category: u16) -> u64
        ensures key { result ≡ category_key category }
        ensures law { KeysFollowFields category_widths }
    {
        u64::from(category)
    }

    pub fn electricity(&self) -> Electricity
        ensures { result ≡ self.now.electricity }
    {
        self.electricity
    }

    pub fn unit(&self) -> UnitKind
        ensures { result ≡ self.now.unit }
    {
        self.unit
    }

    pub fn power_factor(&self) -> u16
        ensures value { result ≡ self.now.power_factor }
        ensures range { (min_power_factor ≤ result) × (result ≤ max_power_factor) }
    {
        self.power_factor
    }

    pub fn rate(&self) -> u32
        ensures value { result ≡ self.now.rate }
        ensures range { result ≤ max_rate }
    {
        self.rate
    }

    pub fn discount(&self) -> u16
        ensures value { result ≡ self.now.discount }
        ensures range { result ≤ max_discount }
    {
        self.discount
    }
}

// A blank line, to fill memory with before it is lent: of category 0, with every other field at its lowest.
// By hand: a struct with a ghost field derives no Default.
impl Default for CategoryLine {
    ghost use Rattle.lines.specs.declared.kinds.Electricity.TheVariants.{Ac};
    ghost use Rattle.lines.specs.declared.kinds.UnitKind.TheVariants.{MultipleUnit};

    ghost is_default = { λ l. (l.category ≡ 0) × (l.electricity ≡ Ac) × (l.unit ≡ MultipleUnit) × (l.power_factor ≡ min_power_factor) × (l.rate ≡ 0) × (l.discount ≡ 0) };

    fn default() -> Self {
        CategoryLine {
            category: 0,
            electricity: Electricity::Ac,
            unit: UnitKind::MultipleUnit,
            power_factor: MIN_POWER_FACTOR,
            rate: 0,
            discount: 0,
        }
    }
}

impl Line for CategoryLine {
    ghost key = { λ l. category_key l.category };

    fn key(&self) -> u64 {
        Self::key_at(self.category)
    }
}
