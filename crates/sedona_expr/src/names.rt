// The names of columns, which are numbers: the search for one, and whether one comes twice.
ghost use Rattle.std.specs.Prelude.{◌≡◌, false, ◌<◌, ◌≤◌, length, drop};
ghost use Rattle.sedona_geometry.specs.Bits.{has_bit, with_bit};
ghost use Rattle.sedona_geometry.specs.Lists.{are_all};
ghost use Rattle.sedona_expr.specs.Names.{find_name, has_twice, search_of};
ghost use Rattle.sedona_expr.specs.Within.{is_other, behind, comes_before, ascends, mark_of};

// What a search for a name gives.
#[derive(Clone, Copy, Debug, PartialEq, Eq)]
pub struct NameSearch {
    // The hit's place, counted from 0.
    pub place: Option<usize>,
    // How many names were compared: the hit's place, counted from 1; all, where none is a hit.
    pub compared: usize,
}

// Whether none of some names is the name. There is no way out before the end, so that many are compared
// at once.
fn is_none_of(names: &[u32], name: u32) -> bool
    ensures { result ≡ are_all (is_other name) names.now }
{
    let mut none = true;
    for other in names {
        none = none & (*other != name);
    }
    none
}

// So many names are compared at once.
const STEP: usize = 8;

// A place before which no name is a hit: that of the first step that has one, or where fewer names are
// left than a step has.
fn passed_over(names: &[u32], name: u32) -> usize
    ensures { (result ≤ length names.now) × (find_name names.now name ≡ behind result (find_name (drop result names.now) name)) }
{
    let mut i = 0;
    for step in names.chunks_exact(STEP) {
        if !is_none_of(step, name) {
            return i;
        }
        i += STEP;
    }
    i
}

// Compares from the first name on, and ends at the first hit. What the hit's step compares besides is not
// counted.
pub fn find_name(names: &[u32], name: u32) -> NameSearch
    ensures { search_of (length names.now) result ≡ find_name names.now name }
{
    for i in passed_over(names, name)..names.len() {
        if names[i] == name {
            return NameSearch {
                place: Some(i),
                compared: i + 1,
            };
        }
    }
    NameSearch {
        place: None,
        compared: names.len(),
    }
}

// Whether the name at a place is one of those before it.
fn comes_before(names: &[u32], i: usize) -> bool
    requires { i < length names.now }
    ensures { result ≡ comes_before names.now i }
{
    find_name(&names[..i], names[i]).place.is_some()
}

// The same, where only a name that is marked can be one of them.
fn comes_again(names: &[u32], i: usize, is_marked: bool) -> bool
    requires { (i < length names.now) × (is_marked ≡ false → comes_before names.now i ≡ false) }
    ensures { result ≡ comes_before names.now i }
{
    if is_marked {
        return comes_before(names, i);
    }
    false
}

// Whether a name comes twice, each looked for among those before it.
fn has_twice_by_pairs(names: &[u32]) -> bool
    ensures { result ≡ has_twice names.now }
{
    for i in 0..names.len() {
        if comes_before(names, i) {
            return true;
        }
    }
    false
}

// Whether a bit of a word is set.
fn has_bit(word: u64, bit: u32) -> bool
    requires { bit < 64 }
    ensures { result ≡ has_bit word bit }
{
    (word >> bit) % 2 == 1
}

// The word with a bit set.
fn with_bit(word: u64, bit: u32) -> u64
    requires { bit < 64 }
    ensures { result ≡ with_bit word bit }
{
    word | 1 << bit
}

// The marks are the bits of so many words, each of so many.
const WORDS: usize = 512;

const BITS: u32 = 64;

// What mixes the bits of a name, so that few names in steps of a power of two or of ten have the same
// mark.
const FACTOR: u64 = 0xe2b1_71df;

// A name's mark, counted from the first word's first bit: the high bits of the low half of a product.
fn mark_of(name: u32) -> u32
    ensures { result ≡ mark_of name }
{
    (name as u64 * FACTOR % 0x1_0000_0000 / 0x2_0000) as u32
}

// Whether a name comes twice, by marks that are all clear at first: a name whose mark is clear is new,
// and only where it is set are the names before looked through.
fn has_twice_by_marks(names: &[u32]) -> bool
    ensures { result ≡ has_twice names.now }
{
    let mut marks = [0u64; WORDS];
    for i in 0..names.len() {
        let mark = mark_of(names[i]);
        let word = (mark / BITS) as usize;
        let bit = mark % BITS;
        if comes_again(names, i, has_bit(marks[word], bit)) {
            return true;
        }
        marks[word] = with_bit(marks[word], bit);
    }
    false
}

// The most names that are looked for in pairs. More are quicker by marks, which take time to clear.
const FEW: usize = 32;

// Whether each name is less than the next. Here too there is no way out before the end. (By `windows` 900
// names took a quarter longer.)
fn are_ascending(names: &[u32]) -> bool
    ensures { result ≡ ascends names.now }
{
    let mut good = true;
    for i in 1..names.len() {
        good = good & (names[i - 1] < names[i]);
    }
    good
}

// Whether a name is twice among them. Of names that ascend none is.
pub(crate) fn has_twice(names: &[u32]) -> bool
    ensures { result ≡ has_twice names.now }
{
    if are_ascending(names) {
        return false;
    }
    if names.len() <= FEW {
        return has_twice_by_pairs(names);
    }
    has_twice_by_marks(names)
}
