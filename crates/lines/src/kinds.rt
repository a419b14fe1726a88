// The kinds of electricity, of unit and of metered record. In a key each has the number that tables and records have for it.
ghost use Rattle.std.specs.Prelude.{◌≡◌};
ghost use Rattle.lines.specs.Kinds.{electricity_number, kind_number};

#[derive(Clone, Copy, PartialEq, Eq, Debug)]
pub enum Electricity {
    Ac,
    Dc,
}

// What a train of a category is made of: a multiple unit, or coaches or wagons that locomotives haul.
#[derive(Clone, Copy, PartialEq, Eq, Debug)]
pub enum UnitKind {
    MultipleUnit,
    Hauled,
}

#[derive(Clone, Copy, PartialEq, Eq, Debug)]
pub enum MeteredKind {
    MultipleUnitJourney,
    HauledJourney,
    NonJourney,
}

// A match gives the numbers, here and below, and no discriminants do: no two cases can have one discriminant, so the slip that two
// kinds have one number could not be planted; and a cast of a kind, which counts the cases from 0, keeps its value.
impl Electricity {
    pub fn number(self) -> u8
        ensures { result ≡ electricity_number self }
    {
        match self {
            Electricity::Ac => 1,
            Electricity::Dc => 2,
        }
    }
}

impl MeteredKind {
    pub fn number(self) -> u8
        ensures { result ≡ kind_number self }
    {
        match self {
            MeteredKind::MultipleUnitJourney => 1,
            MeteredKind::HauledJourney => 2,
            MeteredKind::NonJourney => 3,
        }
    }
}
