//! Names, and where they stand.
ghost use Rattle.std.specs.Prelude.{string_bytes};
ghost use Rattle.plantext.specs.Named.{First};

use crate::faults::{Fault, NameFault};
use crate::words::{Word, is_taken};
use std::convert::AsStr;

/// A name, and the line that it was made in.
#[derive(Drop)]
pub struct Name {
    pub text: String,
    pub line: usize,
}

impl AsStr for Name {
    ghost text = { λ n. string_bytes n.text };

    fn as_str(&self) -> &str {
        self.text.as_str()
    }
}

/// Something that has a name.
#[derive(Drop)]
pub struct Named<T> {
    pub name: Name,
    pub item: T,
}

impl<T> AsStr for Named<T> {
    ghost text = { λ n. string_bytes n.name.text };

    fn as_str(&self) -> &str {
        self.name.as_str()
    }
}

/// The first of the names that is this word.
// Stays a search: there are at most 128 names, and a map would need a second copy of each.
pub fn find<N: AsStr>(names: &[N], word: &str) -> Option<usize>
    ensures value { First N.text names.now word.now result }
{
    names.iter().position(|name| name.as_str() == word)
}

/// Whether it is a letter, a digit, `-` or `_`.
fn is_spelt(b: &u8) -> bool {
    b.is_ascii_alphanumeric() || matches!(*b, b'-' | b'_')
}

/// Whether it is a name: a letter, then letters, digits, `-` and `_`, at most 32, and no word of the language.
pub fn is_name(word: &str) -> bool {
    let bytes = word.as_bytes();
    bytes.len() <= 32
        && bytes.first().is_some_and(|b| b.is_ascii_alphabetic())
        && bytes.iter().all(is_spelt)
        && !is_taken(word)
}

/// The text of a word, if it is a name.
pub fn checked(word: &Word) -> Result<String, Fault> {
    let text = word.copy()?;
    if is_name(word.text) {
        Ok(text)
    } else {
        Err(NameFault::NoName(text).into())
    }
}
