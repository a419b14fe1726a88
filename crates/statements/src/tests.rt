// Examples of statements in bytes.
use crate::fault::{ReadStatementFault, StatementFault};
use crate::reading::read_statement;
use crate::statement::{AREA_COUNT, AreaAmounts, Statement};
use crate::writing::write_statement;
use amounts::Fault;
use std::test::Fail;

// The statement of an account with amounts in the first and the last area.
fn sample(account: u8) -> Statement {
    let mut areas = [AreaAmounts::default(); AREA_COUNT];
    areas[0].metered = 1_000_000;
    areas[0].modelled = -1;
    areas[19].volume_delivery = -256;
    areas[19].cost = i64::MIN;
    Statement {
        account,
        areas,
        cost: 258,
    }
}

#[test]
fn a_statement_is_written_at_its_place_and_nowhere_else(rt: HostRuntime) -> Result<(), Fail> {
    let mut buffer = [170; 1_300];
    write_statement(&mut buffer, 3, &sample(5))?;
    assert_eq!(rt; &buffer[0..5], [170, 170, 170, 5, 64].as_slice());
    assert_eq!(rt; &buffer[5..12], [66, 15, 0, 0, 0, 0, 0].as_slice());
    assert_eq!(rt; &buffer[12..20], [255; 8].as_slice());
    assert_eq!(rt; &buffer[20..28], [0; 8].as_slice());
    assert_eq!(rt;
        &buffer[1_268..1_276],
        [0, 255, 255, 255, 255, 255, 255, 255].as_slice()
    );
    assert_eq!(rt;
        &buffer[1_276..1_284],
        [0, 0, 0, 0, 0, 0, 0, 128].as_slice()
    );
    assert_eq!(rt; &buffer[1_284..1_292], [2, 1, 0, 0, 0, 0, 0, 0].as_slice());
    assert_eq!(rt; &buffer[1_292..1_300], [170; 8].as_slice());
    Ok(())
}

#[test]
fn a_written_statement_is_read_back(rt: HostRuntime) -> Result<(), Fail> {
    let mut buffer = [0; 1_300];
    write_statement(&mut buffer, 11, &sample(63))?;
    assert_eq!(rt; read_statement(&buffer, 11), Ok(sample(63)));
    assert_eq!(rt;
        read_statement(&buffer, 12),
        Err(ReadStatementFault::Incomplete)
    );
    Ok(())
}

#[test]
fn a_refused_statement_leaves_the_buffer(rt: HostRuntime) {
    let mut buffer = [170; 1_300];
    assert_eq!(rt;
        write_statement(&mut buffer, 12, &sample(64)),
        Err(StatementFault::NoSuchAccount)
    );
    assert_eq!(rt;
        write_statement(&mut buffer, 12, &sample(63)),
        Err(StatementFault::TooFewBytes)
    );
    assert_eq!(rt;
        write_statement(&mut buffer, usize::MAX, &sample(0)),
        Err(StatementFault::TooFewBytes)
    );
    assert_eq!(rt; &buffer[0..1_300], [170; 1_300].as_slice());
    assert_eq!(rt;
        read_statement(&buffer, 0),
        Err(ReadStatementFault::NoSuchAccount)
    );
}

#[test]
fn faults_have_their_numbers(rt: HostRuntime) {
    assert_eq!(rt; StatementFault::Block.refusal().number, 1);
    assert_eq!(rt; StatementFault::NoSuchAccount.refusal().number, 22);
    assert_eq!(rt; StatementFault::TooFewBytes.refusal().number, 23);
    assert_eq!(rt; ReadStatementFault::Incomplete.refusal().number, 24);
    assert_eq!(rt; ReadStatementFault::NoSuchAccount.refusal().number, 24);
}
