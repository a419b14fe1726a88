// What every fault answers: the refusal that the fault table has for it.
ghost use Rattle.std.specs.Prelude.{◌≡◌};
ghost use Rattle.amounts.specs.declared.refusal.Refusal.{Refusal};

use crate::refusal::Refusal;

pub trait Fault {
    ghost described: { Self → Refusal };

    fn refusal(&self) -> Refusal
        ensures { result ≡ described self.now };
}
