// A line for the examples: what an account has of a quantity.
ghost use Rattle.std.specs.Prelude.{◌≡◌};

use sharing::AccountQuantity;

pub(crate) fn line<Q>(quantity: Q, account: u8) -> AccountQuantity<Q>
    ensures { result ≡ record { account = account; quantity = quantity } }
{
    AccountQuantity { account, quantity }
}
