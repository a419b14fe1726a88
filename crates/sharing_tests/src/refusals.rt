// Every refusal of a sharing, in the order of the fault table, and that it changes nothing.
use crate::line::line;
use amounts::{Fault, Layer};
use sharing::{Pence, ShareFault, share};
use std::alloc::AllocError;

#[test]
fn refused_in_order(rt: HostRuntime) {
    let mut parts = [9; 1];
    assert_eq!(rt;
        share(
            7,
            &[line(Pence(3_000_000_001), 64), line(Pence(1), 3)],
            &mut parts
        ),
        Err(ShareFault::BeyondLimits)
    );
    assert_eq!(rt;
        share(-3_000_000_001, &[line(Pence(1), 64)], &mut parts),
        Err(ShareFault::BeyondLimits)
    );
    assert_eq!(rt;
        share(7, &[line(Pence(1), 3), line(Pence(1), 3)], &mut parts),
        Err(ShareFault::Accounts)
    );
    assert_eq!(rt;
        share(7, &[line(Pence(1), 64)], &mut parts),
        Err(ShareFault::Accounts)
    );
    assert_eq!(rt;
        share(7, &[line(Pence(1), 3), line(Pence(1), 4)], &mut parts),
        Err(ShareFault::TooFewPlaces)
    );
    assert_eq!(rt; parts, [9]);
}

#[test]
fn limits_themselves_pass(rt: HostRuntime) {
    let mut parts = [9; 1];
    assert_eq!(rt;
        share(
            -3_000_000_000,
            &[line(Pence(3_000_000_000), 63)],
            &mut parts
        ),
        Ok(0)
    );
    assert_eq!(rt; parts, [-3_000_000_000]);
}

#[test]
fn numbers_and_layers(rt: HostRuntime) {
    let limits = ShareFault::BeyondLimits.refusal();
    assert_eq!(rt; limits.number, 18);
    assert_eq!(rt; limits.layer, Layer::Ledger);
    let accounts = ShareFault::Accounts.refusal();
    assert_eq!(rt; accounts.number, 22);
    assert_eq!(rt; accounts.layer, Layer::Statement);
    let places = ShareFault::TooFewPlaces.refusal();
    assert_eq!(rt; places.number, 23);
    assert_eq!(rt; places.layer, Layer::Statement);
    assert_eq!(rt; places.place, 0);
    assert!(rt; places.slot.is_none());
    assert!(rt; places.next.is_none());
}

#[test]
fn refusals_in_words(rt: HostRuntime) -> Result<(), AllocError> {
    let accounts = ShareFault::Accounts.refusal();
    let text = format!(in rt.alloc(); "{accounts}")?;
    assert_eq!(rt; text.as_str(), "refused by fault 22 of the layer Statement");
    let of_slot = accounts.with_slot(7);
    let text = format!(in rt.alloc(); "{of_slot}")?;
    assert_eq!(rt;
        text.as_str(),
        "refused by fault 22 of the layer Statement, slot 7"
    );
    Ok(())
}
