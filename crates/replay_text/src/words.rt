// The words of a line, read one after the other.
use crate::read::{FromWord, hex_digit};
use arrayvec::ArrayVec;

// The most words that a line can have behind its first.
pub const MOST_WORDS: usize = 48;

// How many words a record is: a box, a type set, totals from TOTALS on and extents from EXTENTS on.
pub const RECORD: usize = 18;

pub const TYPES: usize = 8;

pub const TOTALS: usize = 9;

pub const EXTENTS: usize = 16;

// What the words of a line spell, where all spell the same.
pub type List<T> = ArrayVec<T, MOST_WORDS>;

// The words that are not read yet, where there are any. Between two there is one space.
#[derive(Clone, Copy)]
pub struct Words<'a> {
    left: Option<&'a str>,
}

impl<'a> Words<'a> {
    // All words of a line.
    pub fn of(line: &'a str) -> Words<'a> {
        Words { left: Some(line) }
    }

    // The next word.
    pub fn next_word(&mut self) -> Option<&'a str> {
        let left = self.left?;
        match left.split_once(' ') {
            Some((word, behind)) => {
                self.left = Some(behind);
                Some(word)
            }
            None => {
                self.left = None;
                Some(left)
            }
        }
    }

    // What the next word spells.
    pub fn read<T: FromWord>(&mut self) -> Option<T> {
        T::from_word(self.next_word()?)
    }

    // What the next words spell.
    pub fn read_array<T: FromWord + Copy + Default, const COUNT: usize>(
        &mut self,
    ) -> Option<[T; COUNT]> {
        let mut array = [T::default(); COUNT];
        for place in array.iter_mut() {
            *place = self.read()?;
        }
        Some(array)
    }

    // What all words spell, which are no more than the list has room for.
    pub fn read_all<T: FromWord + Default, const ROOM: usize>(self) -> Option<ArrayVec<T, ROOM>> {
        let mut list = ArrayVec::new();
        let Some(left) = self.left else {
            return Some(list);
        };
        for word in left.split(' ') {
            list.try_push(T::from_word(word)?).ok()?;
        }
        Some(list)
    }

    // The bytes that all words spell in hex digits, two a byte, wherever a word ends.
    pub fn read_bytes<const ROOM: usize>(self) -> Option<ArrayVec<u8, ROOM>> {
        let mut bytes = ArrayVec::new();
        let Some(left) = self.left else {
            return Some(bytes);
        };
        let mut high = None;
        for word in left.split(' ') {
            for byte in word.bytes() {
                let digit = hex_digit(byte)?;
                high = match high {
                    None => Some(digit),
                    Some(high) => {
                        bytes.try_push(high << 4 | digit).ok()?;
                        None
                    }
                };
            }
        }
        if high.is_some() { None } else { Some(bytes) }
    }

    // Nothing, where no word is left.
    pub fn end(self) -> Option<()> {
        self.left.is_none().then_some(())
    }
}
