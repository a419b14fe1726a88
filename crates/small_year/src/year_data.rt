// A small year in literals: six records, of which two are refused, and the sheets of its reconciliations.
use lines::{CategoryLine, Electricity, ListFault, LossLine, OrderedList, TariffLine, UnitKind};
use reconciling::AreaRow;

// Accounts 1, 2 and 3 in area 0 and band 1: a journey of account 1 that took 1,000 Wh, and 10,000, 5,000 and 5,000 train
// miles. A record of an unknown kind and one of an account without prices are among them.
#[rattlefmt::skip]
pub(crate) const BATCH: [u8; 102] = [
    13, 0, 4, 0, 1, 0, 1, 7, 0, 64, 66, 15, 0,
    13, 0, 9, 0, 1, 0, 1, 7, 0, 0, 0, 0, 0,
    13, 0, 4, 0, 2, 0, 1, 7, 0, 32, 161, 7, 0,
    37, 0, 1, 3, 1, 0, 1, 7, 0, 1, 0, 0, 0,
    1, 0, 0, 0, 0, 0, 0, 0, 232, 3, 0, 0,
    1, 0, 0, 0, 0, 0, 0, 0, 0, 0, 0, 0,
    13, 0, 4, 0, 4, 0, 1, 7, 0, 1, 0, 0, 0,
    13, 0, 4, 0, 3, 0, 1, 7, 0, 32, 161, 7, 0,
];

pub(crate) const ENERGY_COST: u64 = 3_400_000;

pub(crate) fn fill_categories(list: &mut OrderedList<CategoryLine>) -> Result<(), ListFault> {
    let unit = CategoryLine::new(
        7,
        Electricity::Ac,
        UnitKind::MultipleUnit,
        9_500,
        20_000,
        1_500,
    )?;
    list.add(unit)
}

pub(crate) fn fill_losses(list: &mut OrderedList<LossLine>) -> Result<(), ListFault> {
    list.add(LossLine::new(0, Electricity::Ac, 400)?)
}

pub(crate) fn fill_prices(list: &mut OrderedList<TariffLine>) -> Result<(), ListFault> {
    list.add(TariffLine::new(1, 0, 1, 9_734, 1_208)?)?;
    list.add(TariffLine::new(2, 0, 1, 9_734, 1_208)?)?;
    list.add(TariffLine::new(3, 0, 1, 9_734, 1_208)?)
}

// Area 0 was supplied 350,003 kWh, of which 340,001 are billed: the infrastructure manager has a tenth of the rest.
pub(crate) fn area_sheet() -> [AreaRow; 20] {
    let mut sheet = [AreaRow::default(); 20];
    sheet[0] = AreaRow {
        supplied: 350_003,
        share: 1_000,
        energy: 9_000,
        delivery: 1_000,
    };
    sheet
}

pub(crate) fn delivery_costs() -> [u64; 20] {
    let mut costs = [0; 20];
    costs[0] = 421_000;
    costs
}
