// A name is a part of a text of names: two names are equal by place or by bytes.
ghost use Rattle.std.specs.Prelude.{◌≡◌, ◌+◌, ◌≤◌, length};
ghost use Rattle.std.specs.Option.{option_copied};
ghost use Rattle.common.specs.Names.{Alike, is_name, name_bytes, same_name, bytes_at};

// Only so many bytes of a text hold names.
pub const TEXT_LIMIT: usize = 65_535;

// A start and a length, as a caller gives them. They are a name of a text where they lie inside its first 65,535 bytes.
// They are no slice, since the product's rules let a caller give any pair, and refuse one that is no name. There is no `==`
// either: names are equal over their text alone, which each call is given, since many names lie in one text.
#[derive(Clone, Copy, Debug)]
pub struct Name {
    pub start: u32,
    pub len: u8,
}

impl Name {
    // Whether this is a name of the text.
    pub fn is_in(self, text: &[u8]) -> bool
        ensures { result ≡ is_name text.now self }
    {
        self.end() <= text.len().min(TEXT_LIMIT)
    }

    // The first byte past the name, which fits since a start has 32 bits.
    fn end(self) -> usize
        ensures { result ≡ self.start + self.len }
    {
        self.start as usize + self.len as usize
    }

    // The bytes of a name that lies within the text.
    fn bytes_within(self, text: &[u8]) -> &[u8]
        requires { self.start + self.len ≤ length text.now }
        ensures { result.now ≡ bytes_at text.now self }
    {
        let start = self.start as usize;
        let end = start + self.len as usize;
        &text[start..end]
    }

    // The bytes of the name, where it is one of the text.
    pub fn bytes(self, text: &[u8]) -> Option<&[u8]>
        ensures { option_copied result ≡ name_bytes text.now self }
    {
        if !self.is_in(text) {
            return None;
        }
        Some(self.bytes_within(text))
    }

    // Whether two names of the text are equal. What is no name is equal to itself alone.
    pub fn equals(self, other: Name, text: &[u8]) -> bool
        ensures value { result ≡ same_name text.now self other }
        ensures law { Alike text.now self other result }
    {
        // One pair is one name: compared here, since `Name` is to have no `==`. Then test by test: taking both runs of bytes
        // first, by `bytes`, takes half as long again where the names differ.
        if self.start == other.start && self.len == other.len {
            return true;
        }
        self.is_in(text) && other.is_in(text) && self.bytes_within(text) == other.bytes_within(text)
    }
}
