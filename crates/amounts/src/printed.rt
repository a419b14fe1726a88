// A refusal in words: its fault, its layer, and the slot where it concerns one.
ghost use Rattle.std.specs.Prelude.{Some};
ghost use Rattle.amounts.specs.Printed.{layer_text, refusal_text};

use crate::refusal::{Layer, Refusal};
use std::fmt;

// Spelled out, since a derived Debug states no text.
impl fmt::Display for Layer {
    ghost output = { λ layer. Some (layer_text layer) };

    fn fmt<W: fmt::Write>(&self, f: &mut fmt::Formatter<W>) -> fmt::Result {
        f.write_str(match self {
            Layer::Record => "Record",
            Layer::Book => "Book",
            Layer::Ledger => "Ledger",
            Layer::List => "List",
            Layer::Statement => "Statement",
        })
    }
}

impl fmt::Display for Refusal {
    ghost output = { λ refusal. Some (refusal_text refusal) };

    fn fmt<W: fmt::Write>(&self, f: &mut fmt::Formatter<W>) -> fmt::Result {
        let Refusal {
            number,
            layer,
            slot,
            ..
        } = *self;
        write!(f, "refused by fault {number} of the layer {layer}")?;
        if let Some(slot) = slot {
            write!(f, ", slot {slot}")?;
        }
        Ok(())
    }
}
