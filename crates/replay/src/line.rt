// The lines of a case file: comments are copied; `values V V ..`, `intervals LO HI ..` and
// `sets S S ..` set the lists that sweeps go over; `nodes W W ..`, `literals D D ..` and so on set
// the tables of filter calls, as does `chain COUNT`; `sweep CALL` and `CALL V V ..` are answered.
use crate::answer::Answer;
use crate::filters::answer_of_tables;
use crate::kept::{Kept, Setting};
use crate::layouts::answer_of_layouts;
use crate::many::answer_of_many;
use crate::names::Call;
use crate::records::answer_of_records;
use crate::tariff::answer_of_tariff;
use crate::wkb::answer_of_wkb;
use arrayvec::ArrayVec;
use replay_geometry::calls::answer_to;
use replay_geometry::names as geometry;
use replay_text::words::Words;
use std::fmt;

// The room for a line. One that fills it is too long, and no case.
pub const SIZE: usize = 1024;

pub type Line = ArrayVec<u8, SIZE>;

// What comes behind a line.
#[derive(Clone, Copy)]
pub enum Reply {
    // Behind a comment, and a line that sets something.
    Nothing,
    Unknown,
    Answer(Answer),
}

impl Reply {
    // The reply to a line. What the line sets is kept.
    pub fn to(line: &Line, kept: &mut Kept) -> Reply {
        if line.is_empty() || line.as_slice().starts_with(b"#") {
            return Reply::Nothing;
        }
        Reply::to_case(line, kept).unwrap_or(Reply::Unknown)
    }

    // The same of a line that is no comment; nothing where it is no case, as one that is too long.
    fn to_case(line: &Line, kept: &mut Kept) -> Option<Reply> {
        if line.is_full() {
            return None;
        }
        let text = str::from_utf8(line.as_slice()).ok()?;
        let mut words = Words::of(text);
        let first = words.next_word()?;
        if let Some(setting) = Setting::named(first) {
            kept.set(setting, words)?;
            return Some(Reply::Nothing);
        }
        if first == "sweep" {
            return Some(Reply::Answer(sweep(words, kept)?));
        }
        Some(Reply::Answer(answer(Call::named(first)?, words, kept)?))
    }
}

impl fmt::Display for Reply {
    fn fmt<W: fmt::Write>(&self, f: &mut fmt::Formatter<W>) -> fmt::Result {
        match *self {
            Reply::Nothing => Ok(()),
            Reply::Unknown => f.write_str(" = ?"),
            Reply::Answer(answer) => write!(f, " = {answer}"),
        }
    }
}

// A `sweep` line: the word behind it names a call whose operands are in the lists.
fn sweep(mut words: Words, kept: &Kept) -> Option<Answer> {
    let call = geometry::Call::named(words.next_word()?)?;
    words.end()?;
    Some(Answer::Swept(kept.lists.sweep(call)))
}

// What a call answers to words, or over the tables.
fn answer(call: Call, words: Words, kept: &Kept) -> Option<Answer> {
    let tables = &kept.tables;
    match call {
        Call::Geometry(call) => Some(Answer::Geometry(answer_to(call, words)?)),
        Call::Records(call) => answer_of_records(call, words),
        Call::Tables(call) => answer_of_tables(call, words, tables),
        Call::Many(call) => answer_of_many(call, words, tables),
        Call::Layouts(call) => answer_of_layouts(call, words),
        Call::Wkb(call) => answer_of_wkb(call, words),
        Call::Tariff(call) => answer_of_tariff(call, words),
    }
}
