// The yearly statement of an account, written into bytes and read back.
#![tactic(auto)]

mod fault;
mod reading;
mod statement;
#[cfg(test)]
mod tests;
mod writing;

pub use fault::{ReadStatementFault, StatementFault};
pub use reading::read_statement;
pub use statement::{AREA_COUNT, AreaAmounts, STATEMENT_SIZE, Statement};
pub use writing::write_statement;
