// What a line to share among tells: its weight, and its account.
ghost use Rattle.std.specs.Prelude.{◌≡◌, ℕ, ℤ};

// What takes part by its weight. One of zero or below takes no part.
pub trait Weighted {
    ghost weight: { Self → ℤ };

    fn weight(&self) -> i64
        ensures { result ≡ weight self.now };
}

// A line of an account: among equal remainders the smaller account comes first.
pub trait AccountLine: Weighted {
    ghost account: { Self → ℕ };

    fn account(&self) -> u8
        ensures { result ≡ account self.now };
}

// What an account has of a quantity, and takes part by.
#[derive(Clone, Copy, PartialEq, Eq, Debug)]
pub struct AccountQuantity<Q> {
    pub account: u8,
    pub quantity: Q,
}

impl<Q: Weighted> Weighted for AccountQuantity<Q> {
    ghost weight = { λ l. Q.weight l.quantity };

    fn weight(&self) -> i64 {
        self.quantity.weight()
    }
}

impl<Q: Weighted> AccountLine for AccountQuantity<Q> {
    ghost account = { λ l. l.account };

    fn account(&self) -> u8 {
        self.account
    }
}
