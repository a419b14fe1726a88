// The tables and books that records are billed by.
ghost use Rattle.std.specs.Prelude.{◌≡◌};

use lines::{CategoryLine, LossLine, OrderedList};

// `T` is the kind of tariff book, and `I` that of infill book.
#[derive_where(Clone, Copy)]
pub struct Tables<'t, 'm, T, I> {
    pub categories: &'t OrderedList<'m, CategoryLine>,
    pub losses: &'t OrderedList<'m, LossLine>,
    pub tariff: &'t T,
    pub infill: &'t I,
}

impl<'t, 'm, T, I> Tables<'t, 'm, T, I> {
    // A book that is a local variable and itself borrows can be lent here, where a literal gets no proof yet.
    pub fn new(
        categories: &'t OrderedList<'m, CategoryLine>,
        losses: &'t OrderedList<'m, LossLine>,
        tariff: &'t T,
        infill: &'t I,
    ) -> Self
        ensures categories { result.categories.now ≡ categories.now }
        ensures losses { result.losses.now ≡ losses.now }
        ensures tariff { result.tariff.now ≡ tariff.now }
        ensures infill { result.infill.now ≡ infill.now }
    {
        Tables {
            categories,
            losses,
            tariff,
            infill,
        }
    }
}
