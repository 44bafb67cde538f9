// The budget of the run, as the program's argument gives it.
use digits::NumberError;
use std::fmt;
use std::rt::Env;

const DEFAULT: u32 = 1000000;

// Why there is no budget.
#[derive(Clone, Copy)]
pub enum BudgetError {
    Number(NumberError),
    TooLong,
    TooMany,
}

impl From<NumberError> for BudgetError {
    fn from(error: NumberError) -> BudgetError {
        BudgetError::Number(error)
    }
}

impl fmt::Display for BudgetError {
    fn fmt<W: fmt::Write>(&self, f: &mut fmt::Formatter<W>) -> fmt::Result {
        match self {
            BudgetError::Number(NumberError::NotANumber) => {
                write!(f, "the budget is not a number in decimal")
            }
            BudgetError::Number(NumberError::TooLarge) => {
                write!(f, "the budget is above 4294967295")
            }
            BudgetError::TooLong => write!(f, "the budget is longer than 4096 characters"),
            BudgetError::TooMany => write!(f, "too many arguments: there is one, the budget"),
        }
    }
}

// The budget that the program was started with.
pub(crate) fn read_budget(rt: &impl Env) -> Result<u32, BudgetError> {
    match streams::count_arguments(rt, 2) {
        0 => Ok(DEFAULT),
        1 => {
            let budget = streams::read_argument(rt, 1, |text| digits::number(text, 10, u32::MAX));
            Ok(budget.ok_or(BudgetError::TooLong)??)
        }
        _ => Err(BudgetError::TooMany),
    }
}
