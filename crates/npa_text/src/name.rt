ghost use Rattle.std.specs.Prelude.{◌≡◌, string_bytes};

use npa_list::List;
use std::marker::Model;

/// A name, as its bytes.
pub type Name = List<u8>;

/// A list of names.
pub type Names = List<Name>;

/// A word of a command line. Contracts see it as its bytes.
#[derive(Debug, Drop)]
pub struct Word {
    text: String,
}

impl Model for Word {
    ghost use Rattle.std.specs.Prelude.{List, ℕ, string_bytes};

    ghost Value = { List ℕ };

    ghost view = { λ w. string_bytes w.text };
}

impl Word {
    /// The word with this text. It takes no memory.
    pub fn new(text: String) -> Word
        ensures { result ≡ string_bytes text }
    {
        Word { text }
    }

    /// The word's text.
    pub fn as_str(&self) -> &str
        ensures { result.now ≡ self.now }
    {
        self.text.as_str()
    }

    /// The word's bytes.
    pub fn as_bytes(&self) -> &[u8]
        ensures { result.now ≡ self.now }
    {
        self.text.as_bytes()
    }
}

/// The words of a command line, in order.
pub type Words = List<Word>;
