// A loss line: what is lost between supply and trains in an area, by kind of electricity.
ghost use Rattle.std.specs.Prelude.{◌≡◌, ◌≤◌, true, is_ok, MatchResult};
ghost use Rattle.lines.specs.Kinds.{DistinctElectricity};
ghost use Rattle.lines.specs.Limits.{loss_in_range, max_loss};
ghost use Rattle.lines.specs.Keys.{loss_key, loss_widths, KeysFollowFields};
ghost use Rattle.lines.specs.declared.fault.ListFault.TheVariants.{OutOfRange};

use crate::fault::ListFault;
use crate::kinds::Electricity;
use crate::line::{BYTE_VALUES, Line};
use amounts::area_exists;

// The highest loss, in ten-thousandths.
const MAX_LOSS: u16 = 5_000;

#[derive(Clone, Copy, PartialEq, Eq, Debug)]
pub struct LossLine {
    area: u8,
    electricity: Electricity,
    // In ten-thousandths.
    loss: u16,
    ghost in_range: { loss_in_range area loss ≡ true },
}

fn fields_in_range(area: u8, loss: u16) -> bool
    ensures { result ≡ loss_in_range area loss }
{
    area_exists(area) && loss <= MAX_LOSS
}

impl LossLine {
    pub fn new(area: u8, electricity: Electricity, loss: u16) -> Result<Self, ListFault>
        ensures accepted { is_ok result ≡ loss_in_range area loss }
        ensures fields { MatchResult result (λ l. (l.area ≡ area) × (l.electricity ≡ electricity) × (l.loss ≡ loss)) (λ e. e ≡ OutOfRange) }
    {
        if !fields_in_range(area, loss) {
            return Err(ListFault::OutOfRange);
        }
        Ok(LossLine {
            area,
            electricity,
            loss,
        })
    }

    // The key of the line of an area and a kind of electricity.
    pub fn key_at(area: u8, electricity: Electricity) -> u64
        ensures key { result ≡ loss_key area electricity }
        ensures law { KeysFollowFields loss_widths }
        ensures distinct { DistinctElectricity }
    {
        u64::from(area) * BYTE_VALUES + u64::from(electricity.number())
    }

    pub fn loss(&self) -> u16
        ensures value { result ≡ self.now.loss }
        ensures range { result ≤ max_loss }
    {
        self.loss
    }
}

// A blank line, to fill memory with before it is lent: of area 0, without loss.
// By hand: a struct with a ghost field derives no Default.
impl Default for LossLine {
    ghost use Rattle.lines.specs.declared.kinds.Electricity.TheVariants.{Ac};

    ghost is_default = { λ l. (l.area ≡ 0) × (l.electricity ≡ Ac) × (l.loss ≡ 0) };

    fn default() -> Self {
        LossLine {
            area: 0,
            electricity: Electricity::Ac,
            loss: 0,
        }
    }
}

impl Line for LossLine {
    ghost key = { λ l. loss_key l.area l.electricity };

    fn key(&self) -> u64 {
        Self::key_at(self.area, self.electricity)
    }
}
