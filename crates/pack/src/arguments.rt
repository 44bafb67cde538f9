// The window and the language of the code, as the program's arguments give them.
use digits::NumberError;
use std::fmt;
use std::rt::Env;

// Where the window starts and how long it is, in bytes.
#[derive(Clone, Copy)]
pub struct Window {
    pub start: u16,
    pub length: u16,
}

// What the user called, which is told by what the code is written in.
#[derive(Clone, Copy)]
pub enum Program {
    Pack,
    Assemble,
}

// The name by which the user called.
impl fmt::Display for Program {
    fn fmt<W: fmt::Write>(&self, f: &mut fmt::Formatter<W>) -> fmt::Result {
        match self {
            Program::Pack => write!(f, "pack"),
            Program::Assemble => write!(f, "assemble"),
        }
    }
}

// Why an argument is no value.
#[derive(Clone, Copy)]
pub enum ValueError {
    Number(NumberError),
    TooLong,
}

impl From<NumberError> for ValueError {
    fn from(error: NumberError) -> ValueError {
        ValueError::Number(error)
    }
}

impl fmt::Display for ValueError {
    fn fmt<W: fmt::Write>(&self, f: &mut fmt::Formatter<W>) -> fmt::Result {
        match self {
            ValueError::Number(NumberError::NotANumber) => write!(
                f,
                "is not a number, in decimal or in hexadecimal with 0x in front"
            ),
            ValueError::Number(NumberError::TooLarge) => write!(f, "is above 65535"),
            ValueError::TooLong => write!(f, "is longer than 4096 characters"),
        }
    }
}

// Why the arguments say neither what to do nor with which window.
#[derive(Clone, Copy)]
pub enum ArgumentError {
    NoWindow,
    NoLength,
    TooMany,
    NoValue(Program, char, ValueError),
}

impl fmt::Display for ArgumentError {
    fn fmt<W: fmt::Write>(&self, f: &mut fmt::Formatter<W>) -> fmt::Result {
        match self {
            ArgumentError::NoWindow => write!(
                f,
                "pack: w and l are missing: the start and the length of the window in bytes"
            ),
            ArgumentError::NoLength => write!(
                f,
                "pack: l is missing: the length of the window in bytes"
            ),
            ArgumentError::TooMany => write!(
                f,
                "pack: too many arguments: there are w and l, and source if the code is a text"
            ),
            ArgumentError::NoValue(program, name, error) => {
                write!(f, "{program}: {name} {error}")
            }
        }
    }
}

// The number that argument `i` says.
fn read_value(rt: &impl Env, i: usize) -> Result<u16, ValueError> {
    let value = streams::read_argument(rt, i, |text| digits::halfword(text));
    Ok(value.ok_or(ValueError::TooLong)??)
}

// Whether the third argument is the word for an assembler text.
fn says_source(rt: &impl Env) -> bool {
    streams::read_argument(rt, 3, |word| word == b"source".as_slice()) == Some(true)
}

// The program that is called, if there are as many arguments as it has.
fn read_program(rt: &impl Env) -> Result<Program, ArgumentError> {
    match streams::count_arguments(rt, 4) {
        0 => Err(ArgumentError::NoWindow),
        1 => Err(ArgumentError::NoLength),
        2 => Ok(Program::Pack),
        3 if says_source(rt) => Ok(Program::Assemble),
        _ => Err(ArgumentError::TooMany),
    }
}

// The program that is called, and its window.
pub(crate) fn read(rt: &impl Env) -> Result<(Program, Window), ArgumentError> {
    let program = read_program(rt)?;
    let start = read_value(rt, 1).map_err(|e| ArgumentError::NoValue(program, 'w', e))?;
    let length = read_value(rt, 2).map_err(|e| ArgumentError::NoValue(program, 'l', e))?;
    Ok((program, Window { start, length }))
}
