// The table books: a list of lines, asked for what the line of the question's key fields has.
ghost use Rattle.std.specs.Prelude.{◌≡◌};
ghost use Rattle.lines.specs.Contents.{contents};
ghost use Rattle.books.specs.InfillBooks.{infill_of, InfillTable};
ghost use Rattle.books.specs.TariffBooks.{tariff_of, TariffTable};

use crate::answers::{Prices, SlotValues};
use crate::book::{InfillBook, TariffBook};
use lines::{InfillLine, MeteredKind, OrderedList, TariffLine, find_infill, find_tariff};

#[derive(Clone, Copy)]
pub struct TableBook<'t, 'm, L> {
    table: &'t OrderedList<'m, L>,
}

// Prices by account, area and band.
pub type TableTariff<'t, 'm> = TableBook<'t, 'm, TariffLine>;

// Values for a slot by kind of record, category, area and band.
pub type TableInfill<'t, 'm> = TableBook<'t, 'm, InfillLine>;

// Each `new` promises the law of its own lines. What a line gives is spelled out in each answer: at one use a From would be no shorter.
impl<'t, 'm> TableTariff<'t, 'm> {
    pub fn new(table: &'t OrderedList<'m, TariffLine>) -> Self
        ensures table { result.table.now ≡ table.now }
        ensures law { TariffTable (contents table.now) }
    {
        TableTariff { table }
    }
}

impl<'t, 'm> TableInfill<'t, 'm> {
    pub fn new(table: &'t OrderedList<'m, InfillLine>) -> Self
        ensures table { result.table.now ≡ table.now }
        ensures law { InfillTable (contents table.now) }
    {
        TableInfill { table }
    }
}

impl<'t, 'm> TariffBook for TableTariff<'t, 'm> {
    ghost prices = { λ b account area band. tariff_of (contents b.table.now) account area band };

    fn prices(&self, account: u8, area: u8, band: u8) -> Option<Prices> {
        let line = find_tariff(self.table, account, area, band)?;
        Some(Prices {
            energy: line.energy(),
            delivery: line.delivery(),
        })
    }
}

impl<'t, 'm> InfillBook for TableInfill<'t, 'm> {
    ghost values = { λ b kind category area band. infill_of (contents b.table.now) kind category area band };

    fn values(&self, kind: MeteredKind, category: u16, area: u8, band: u8) -> Option<SlotValues> {
        let line = find_infill(self.table, kind, category, area, band)?;
        Some(SlotValues {
            consumption: line.consumption(),
            regeneration: line.regeneration(),
        })
    }
}
