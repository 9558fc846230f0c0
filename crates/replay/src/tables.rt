// The tables that a filter call is lent: nodes, the boxes of literals and of records, the records'
// types, and names.
use arrayvec::ArrayVec;
use replay_text::words::List;
use sedona_expr::tables::{Records, Table};

// Room for the words of one node more than a filter may have.
const MOST_NODE_WORDS: usize = 4100;

pub type Nodes = ArrayVec<u32, MOST_NODE_WORDS>;

// At first each table is empty.
#[derive(Default, Drop)]
pub struct Tables {
    pub nodes: Nodes,
    pub literals: List<f64>,
    pub literal_flags: List<u8>,
    pub records: List<f64>,
    pub record_flags: List<u8>,
    pub record_types: List<u32>,
    pub types_known: List<u8>,
    pub names: List<u32>,
}

impl Tables {
    // The filter, as it is lent.
    pub fn filter(&self) -> Table<'_> {
        Table::new(
            self.nodes.as_slice(),
            self.literals.as_slice(),
            self.literal_flags.as_slice(),
        )
    }

    // Sets the nodes to so many words of a chain, where there is room for them. A chain hands the answer of
    // its lowest node up to the root: each And has an Unknown beside it, and each Or a LiteralFalse.
    pub fn set_chain(&mut self, count: u32) -> Option<()> {
        if count as usize > MOST_NODE_WORDS {
            return None;
        }
        self.nodes.clear();
        self.nodes.extend((0..count).map(chain_word)).ok()
    }

    // The records, as they are lent.
    pub fn records(&self) -> Records<'_> {
        Records::new(
            self.records.as_slice(),
            self.record_flags.as_slice(),
            self.record_types.as_slice(),
            self.types_known.as_slice(),
        )
    }
}

// A word of the chain. Node 0 is an Intersects of the first literal and the first column; from then
// on an even node pairs the two below it.
fn chain_word(at: u32) -> u32 {
    let node = at / 4;
    match (node, at % 4) {
        (0, _) => 0,
        (_, 0) => kind(node),
        (_, 3) => 0,
        (_, k) if node % 2 == 0 => node + k - 3,
        _ => 0,
    }
}

// The kind of a node behind the first.
fn kind(node: u32) -> u32 {
    match node % 4 {
        0 => 4,
        1 => 6,
        2 => 3,
        _ => 5,
    }
}
