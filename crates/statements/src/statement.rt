// The amounts of a yearly statement, and where they lie in its bytes.
ghost use Rattle.std.specs.Prelude.{◌≡◌};
ghost use Rattle.statements.specs.Fits.{AreaFits};
ghost use Rattle.statements.specs.Layout.{amounts_of};
ghost use Rattle.statements.specs.Outcomes.{has_room};

use amounts::AREAS;

// How many areas a statement has, and how many amounts an area has. The cast stays: a constant calls no function.
pub const AREA_COUNT: usize = AREAS as usize;

pub(crate) const AREA_AMOUNTS: usize = 8;

// How many bytes an amount has, an area, and the areas together.
pub(crate) const AMOUNT_SIZE: usize = 8;

pub(crate) const AREA_SIZE: usize = AREA_AMOUNTS * AMOUNT_SIZE;

pub(crate) const AREAS_SIZE: usize = AREA_COUNT * AREA_SIZE;

// Where the areas begin in a statement, behind the account, and where the energy cost adjustment does.
pub(crate) const AREAS_OFFSET: usize = 1;

pub(crate) const COST_OFFSET: usize = AREAS_OFFSET + AREAS_SIZE;

// How many bytes a statement has.
pub const STATEMENT_SIZE: usize = COST_OFFSET + AMOUNT_SIZE;

// One account's amounts in one area.
#[derive(Clone, Copy, Default, PartialEq, Eq, Debug)]
pub struct AreaAmounts {
    // Metered and modelled kWh.
    pub metered: i64,
    pub modelled: i64,
    // Energy and delivery pence.
    pub energy: i64,
    pub delivery: i64,
    // The volume adjustment in kWh, in energy pence and in delivery pence.
    pub volume: i64,
    pub volume_energy: i64,
    pub volume_delivery: i64,
    // The delivery cost adjustment in pence.
    pub cost: i64,
}

// The amounts of an area in the order of a statement. Each fits 64 bits by its type, which reading back rests on.
impl From<AreaAmounts> for [i64; AREA_AMOUNTS] {
    ghost from_gives = { λ area amounts. (amounts ≡ amounts_of area) × AreaFits area };

    #[tactic(auto, unfolding(crate::specs::Fits::AreaFits))]
    fn from(area: AreaAmounts) -> [i64; AREA_AMOUNTS] {
        [
            area.metered,
            area.modelled,
            area.energy,
            area.delivery,
            area.volume,
            area.volume_energy,
            area.volume_delivery,
            area.cost,
        ]
    }
}

// The area with these amounts, in the order of a statement.
impl From<[i64; AREA_AMOUNTS]> for AreaAmounts {
    ghost from_gives = { λ amounts area. amounts_of area ≡ amounts };

    fn from(amounts: [i64; AREA_AMOUNTS]) -> AreaAmounts {
        let [
            metered,
            modelled,
            energy,
            delivery,
            volume,
            volume_energy,
            volume_delivery,
            cost,
        ] = amounts;
        AreaAmounts {
            metered,
            modelled,
            energy,
            delivery,
            volume,
            volume_energy,
            volume_delivery,
            cost,
        }
    }
}

// The statement of one account.
#[derive(Clone, Copy, PartialEq, Eq, Debug)]
pub struct Statement {
    pub account: u8,
    pub areas: [AreaAmounts; AREA_COUNT],
    // The energy cost adjustment in pence.
    pub cost: i64,
}

// Whether a statement fits between the place and the end of so many bytes.
pub(crate) fn has_room(length: usize, place: usize) -> bool
    ensures { result ≡ has_room length place }
{
    length
        .checked_sub(STATEMENT_SIZE)
        .is_some_and(|last| place <= last)
}
