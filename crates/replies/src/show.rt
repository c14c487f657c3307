// What a person is shown.
use common::{DataType, Field, Name};
use std::fmt;

// Bytes as a person reads them: printable ASCII as it stands, any other byte as \xNN.
#[derive(Clone, Copy)]
pub struct Plain<'a> {
    pub bytes: &'a [u8],
}

impl fmt::Display for Plain<'_> {
    fn fmt<W: fmt::Write>(&self, f: &mut fmt::Formatter<W>) -> fmt::Result {
        for byte in self.bytes {
            match byte {
                b' '..=b'~' => f.write_char(char::from(*byte))?,
                _ => write!(f, "\\x{byte:02x}")?,
            }
        }
        Ok(())
    }
}

// A name over its text: its bytes, or where it would lie that is no name.
fn show_name<W: fmt::Write>(name: Name, text: &[u8], f: &mut fmt::Formatter<W>) -> fmt::Result {
    match name.bytes(text) {
        Some(bytes) => write!(f, "{}", Plain { bytes }),
        None => write!(f, "@{}:{}", name.start, name.len),
    }
}

// A type by its number: its name, or the number that is none.
fn show_type<W: fmt::Write>(number: u8, f: &mut fmt::Formatter<W>) -> fmt::Result {
    match DataType::try_from(number) {
        Ok(data_type) => write!(f, " {data_type}"),
        Err(_) => write!(f, " type {number}"),
    }
}

// What is shown over a text of names.
pub(crate) trait Shown {
    fn show<W: fmt::Write>(&self, text: &[u8], f: &mut fmt::Formatter<W>) -> fmt::Result;
}

impl Shown for Field {
    // The field's name, its type, and what it may be besides.
    fn show<W: fmt::Write>(&self, text: &[u8], f: &mut fmt::Formatter<W>) -> fmt::Result {
        show_name(self.name, text, f)?;
        show_type(self.data_type, f)?;
        if self.nullable {
            f.write_str(" null")?;
        }
        if self.tag > 0 {
            write!(f, " tag {}", self.tag)?;
        }
        Ok(())
    }
}

impl Shown for Option<Field> {
    // The name of a column that an index picks, where it picks one.
    fn show<W: fmt::Write>(&self, text: &[u8], f: &mut fmt::Formatter<W>) -> fmt::Result {
        match self {
            Some(field) => show_name(field.name, text, f),
            None => f.write_str("(past the schema)"),
        }
    }
}

// Items over their text, one after another.
#[derive(Clone, Copy)]
pub(crate) struct Joined<'a, T> {
    pub(crate) text: &'a [u8],
    pub(crate) items: &'a [T],
}

impl<T: Shown> fmt::Display for Joined<'_, T> {
    fn fmt<W: fmt::Write>(&self, f: &mut fmt::Formatter<W>) -> fmt::Result {
        for (place, item) in self.items.iter().enumerate() {
            if place > 0 {
                f.write_str(", ")?;
            }
            item.show(self.text, f)?;
        }
        Ok(())
    }
}

// An index list, or that it is absent.
#[derive(Clone, Copy)]
pub(crate) struct IndexList<'a> {
    pub(crate) indices: Option<&'a [u32]>,
}

impl fmt::Display for IndexList<'_> {
    fn fmt<W: fmt::Write>(&self, f: &mut fmt::Formatter<W>) -> fmt::Result {
        match self.indices {
            Some(indices) => write!(f, "{indices:?}"),
            None => f.write_str("absent"),
        }
    }
}
