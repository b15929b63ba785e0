// How a line of the list is printed.
use std::{fmt, io};

// What a line compares. A flag is as wide as a register.
#[derive(Clone, Copy, PartialEq)]
pub(crate) enum Value {
    Register(u16),
    Flag(bool),
    Number(i64),
}

impl From<u16> for Value {
    fn from(register: u16) -> Value {
        Value::Register(register)
    }
}

impl From<bool> for Value {
    fn from(flag: bool) -> Value {
        Value::Flag(flag)
    }
}

impl From<i64> for Value {
    fn from(number: i64) -> Value {
        Value::Number(number)
    }
}

impl fmt::Display for Value {
    fn fmt<W: fmt::Write>(&self, f: &mut fmt::Formatter<W>) -> fmt::Result {
        match *self {
            Value::Register(register) => write!(f, "{register:04X}H"),
            Value::Flag(flag) => write!(f, "{:<5}", u8::from(flag)),
            Value::Number(number) => write!(f, "{number}"),
        }
    }
}

pub(crate) fn heading(rt: &impl Print) -> io::Result<()> {
    rt.println("case  what                        expected  found")
}

// One line of the list.
pub(crate) fn line<T: Into<Value>>(
    rt: &impl Print,
    case: u8,
    what: &str,
    expected: T,
    found: T,
) -> io::Result<()> {
    let expected: Value = expected.into();
    let found: Value = found.into();
    let verdict = if expected == found {
        "agrees"
    } else {
        "DIFFERS"
    };
    println!(rt; "{case:>3}   {what:<26}  {expected}     {found}  {verdict}")
}

// The line of a word that is not of the row expected.
pub(crate) fn other_row(rt: &impl Print, case: u8, what: &str) -> io::Result<()> {
    println!(rt; "{case:>3}   {what:<22}  DIFFERS")
}
