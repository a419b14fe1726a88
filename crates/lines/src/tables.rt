// Tables: the line that a list has for given key fields.
// Each kind of line has key fields of its own, so each has its own call of `find`. One generic call over a trait would take them
// as an associated type, with ghost members for the fields and their widths, and these four would still stand before it.
ghost use Rattle.std.specs.Prelude.{◌≡◌};
ghost use Rattle.lines.specs.Contents.{contents};
ghost use Rattle.lines.specs.Keys.{category_widths, loss_widths, infill_widths, tariff_widths, category_fields, loss_fields, infill_fields, tariff_fields};
ghost use Rattle.lines.specs.Tables.{LineOfFields, fields_of_category, fields_of_loss, fields_of_infill, fields_of_tariff, category_line, loss_line, infill_line, tariff_line};

use crate::category::CategoryLine;
use crate::infill::InfillLine;
use crate::kinds::{Electricity, MeteredKind};
use crate::list::OrderedList;
use crate::loss::LossLine;
use crate::tariff::TariffLine;

pub fn find_category(table: &OrderedList<CategoryLine>, category: u16) -> Option<CategoryLine>
    ensures answer { result ≡ category_line (contents table.now) category }
    ensures law { LineOfFields fields_of_category category_widths (category_fields category) (contents table.now) result }
{
    table.find(CategoryLine::key_at(category))
}

pub fn find_loss(
    table: &OrderedList<LossLine>,
    area: u8,
    electricity: Electricity,
) -> Option<LossLine>
    ensures answer { result ≡ loss_line (contents table.now) area electricity }
    ensures law { LineOfFields fields_of_loss loss_widths (loss_fields area electricity) (contents table.now) result }
{
    table.find(LossLine::key_at(area, electricity))
}

pub fn find_infill(
    table: &OrderedList<InfillLine>,
    kind: MeteredKind,
    category: u16,
    area: u8,
    band: u8,
) -> Option<InfillLine>
    ensures answer { result ≡ infill_line (contents table.now) kind category area band }
    ensures law { LineOfFields fields_of_infill infill_widths (infill_fields kind category area band) (contents table.now) result }
{
    table.find(InfillLine::key_at(kind, category, area, band))
}

pub fn find_tariff(
    table: &OrderedList<TariffLine>,
    account: u8,
    area: u8,
    band: u8,
) -> Option<TariffLine>
    ensures answer { result ≡ tariff_line (contents table.now) account area band }
    ensures law { LineOfFields fields_of_tariff tariff_widths (tariff_fields account area band) (contents table.now) result }
{
    table.find(TariffLine::key_at(account, area, band))
}
