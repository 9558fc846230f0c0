// What lines leave for later ones: the lists that sweeps go over, and the tables of filter calls.
use crate::tables::Tables;
use arrayvec::ArrayVec;
use replay_geometry::boxes::Ends;
use replay_geometry::sweep::{Lists, MOST_INTERVALS};
use replay_text::words::{List, Words};

// What a line sets.
#[derive(Clone, Copy)]
pub enum Setting {
    Values,
    Intervals,
    Sets,
    Nodes,
    Chain,
    Literals,
    LiteralFlags,
    Records,
    RecordFlags,
    RecordTypes,
    TypesKnown,
    Names,
}

impl Setting {
    // What a line sets, by its first word.
    pub fn named(first: &str) -> Option<Setting> {
        match first {
            "values" => Some(Setting::Values),
            "intervals" => Some(Setting::Intervals),
            "sets" => Some(Setting::Sets),
            "nodes" => Some(Setting::Nodes),
            "chain" => Some(Setting::Chain),
            "literals" => Some(Setting::Literals),
            "literal_flags" => Some(Setting::LiteralFlags),
            "records" => Some(Setting::Records),
            "record_flags" => Some(Setting::RecordFlags),
            "record_types" => Some(Setting::RecordTypes),
            "types_known" => Some(Setting::TypesKnown),
            "names" => Some(Setting::Names),
            _ => None,
        }
    }
}

// Before the first line nothing is in them.
#[derive(Default, Drop)]
pub struct Kept {
    pub lists: Lists,
    pub tables: Tables,
}

impl Kept {
    // Sets what a line sets. It stays as it is where the words are no good.
    pub fn set(&mut self, setting: Setting, words: Words) -> Option<()> {
        match setting {
            Setting::Values => self.lists.values = words.read_all()?,
            Setting::Intervals => self.lists.intervals = read_intervals(words)?,
            Setting::Sets => self.lists.sets = words.read_all()?,
            Setting::Nodes => self.set_nodes(words.read_all()?)?,
            Setting::Chain => self.set_chain(words)?,
            Setting::Literals => self.tables.literals = words.read_all()?,
            Setting::LiteralFlags => self.tables.literal_flags = words.read_all()?,
            Setting::Records => self.tables.records = words.read_all()?,
            Setting::RecordFlags => self.set_record_flags(words.read_all()?)?,
            Setting::RecordTypes => self.tables.record_types = words.read_all()?,
            Setting::TypesKnown => self.tables.types_known = words.read_all()?,
            Setting::Names => self.tables.names = words.read_all()?,
        }
        Some(())
    }

    // Sets the nodes to these words, where they lie: a table of them is too large to be handed on.
    fn set_nodes(&mut self, list: List<u32>) -> Option<()> {
        self.tables.nodes.clear();
        self.tables
            .nodes
            .try_extend_from_slice(list.as_slice())
            .ok()
    }

    // Sets the nodes to so many words of a chain.
    fn set_chain(&mut self, mut words: Words) -> Option<()> {
        let count = words.read()?;
        words.end()?;
        self.tables.set_chain(count)
    }

    // Sets the flags of records. None of their types are known until a line says so.
    fn set_record_flags(&mut self, flags: List<u8>) -> Option<()> {
        let types = zeros(flags.len())?;
        let known = zeros(flags.len())?;
        self.tables.record_flags = flags;
        self.tables.record_types = types;
        self.tables.types_known = known;
        Some(())
    }
}

// So many zeros, where there is room for them.
fn zeros<T: Default + Drop>(count: usize) -> Option<List<T>> {
    let mut list = List::new();
    list.extend((0..count).map(|_| T::default())).ok()?;
    Some(list)
}

// The intervals whose ends the words spell, of no more than boxes are made of.
fn read_intervals(words: Words) -> Option<ArrayVec<Ends, MOST_INTERVALS>> {
    let ends: List<f64> = words.read_all()?;
    let (pairs, rest) = ends.as_slice().as_chunks();
    if !rest.is_empty() {
        return None;
    }
    ArrayVec::try_from(pairs).ok()
}
