// The six types, and the values that they hold.
ghost use Rattle.std.specs.Prelude.{◌≡◌};
ghost use Rattle.std.specs.Option.{ok_or};
ghost use Rattle.common.specs.Types.{type_number, type_of, type_named, unknown_type, holds, fits};

use crate::refusal::Fault;
use std::fmt;
use thiserror::Error;

// A type, by the number that callers give.
#[derive(Clone, Copy, PartialEq, Eq, Debug)]
pub enum DataType {
    Int8 = 1,
    Int16 = 2,
    Int32 = 3,
    Int64 = 4,
    Boolean = 5,
    Utf8 = 6,
}

// A constant's value: none, a whole number, or the number of a text, which the product's rules leave with the caller.
#[derive(Clone, Copy, PartialEq, Eq, Debug)]
pub enum Value {
    Null,
    Whole(i64),
    Text(u32),
}

// What is given as a type and is none.
#[derive(Clone, Copy, PartialEq, Eq, Debug, Error)]
#[error("no such type; give 1 to 6, or Int8, Int16, Int32, Int64, Boolean or Utf8")]
pub struct UnknownType;

// The type's number, 1 to 6.
impl From<DataType> for u8 {
    ghost from_gives = { λ t n. n ≡ type_number t };

    fn from(data_type: DataType) -> u8 {
        data_type as u8
    }
}

// The type of a number, where it is 1 to 6.
impl TryFrom<u8> for DataType {
    type Error = UnknownType;

    ghost try_from_gives = { λ n r. r ≡ ok_or (type_of n) unknown_type };

    fn try_from(number: u8) -> Result<DataType, UnknownType> {
        match number {
            1 => Ok(DataType::Int8),
            2 => Ok(DataType::Int16),
            3 => Ok(DataType::Int32),
            4 => Ok(DataType::Int64),
            5 => Ok(DataType::Boolean),
            6 => Ok(DataType::Utf8),
            _ => Err(UnknownType),
        }
    }
}

// The type that a word names.
impl TryFrom<&[u8]> for DataType {
    type Error = UnknownType;

    ghost try_from_gives = { λ w r. r ≡ ok_or (type_named w.now) unknown_type };

    fn try_from(word: &[u8]) -> Result<DataType, UnknownType> {
        match word {
            b"Int8" => Ok(DataType::Int8),
            b"Int16" => Ok(DataType::Int16),
            b"Int32" => Ok(DataType::Int32),
            b"Int64" => Ok(DataType::Int64),
            b"Boolean" => Ok(DataType::Boolean),
            b"Utf8" => Ok(DataType::Utf8),
            _ => Err(UnknownType),
        }
    }
}

impl DataType {
    // The type of a number, or the fault that is to be given where it is none.
    pub fn known(number: u8, fault: Fault) -> Result<DataType, Fault>
        ensures { result ≡ ok_or (type_of number) fault }
    {
        DataType::try_from(number).map_err(|_| fault)
    }

    // Whether a whole number lies in the type's range.
    pub fn holds(self, n: i64) -> bool
        ensures { result ≡ holds self n }
    {
        match self {
            DataType::Int8 => (-128..=127).contains(&n),
            DataType::Int16 => (-32_768..=32_767).contains(&n),
            DataType::Int32 => (-2_147_483_648..=2_147_483_647).contains(&n),
            DataType::Int64 => true,
            DataType::Boolean => (0..=1).contains(&n),
            DataType::Utf8 => false,
        }
    }
}

impl Value {
    // Whether the value is one of the type.
    pub fn fits(self, data_type: DataType) -> bool
        ensures { result ≡ fits self data_type }
    {
        match self {
            Value::Null => true,
            Value::Whole(n) => data_type.holds(n),
            Value::Text(_) => data_type == DataType::Utf8,
        }
    }
}

impl fmt::Display for DataType {
    fn fmt<W: fmt::Write>(&self, f: &mut fmt::Formatter<W>) -> fmt::Result {
        f.write_str(match self {
            DataType::Int8 => "Int8",
            DataType::Int16 => "Int16",
            DataType::Int32 => "Int32",
            DataType::Int64 => "Int64",
            DataType::Boolean => "Boolean",
            DataType::Utf8 => "Utf8",
        })
    }
}
