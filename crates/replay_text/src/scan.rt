// The search for a byte.
ghost use Rattle.std.specs.Prelude.{◌≡◌, ℕ, ◌<◌, ◌≤◌, ◌≢◌, length, min, slice_index};

// The place of the first such byte, from a place on; the length where there is none, or the place is past it.
pub fn find(bytes: &[u8], from: usize, byte: u8) -> usize
    ensures within { result ≤ length bytes.now }
    ensures after { min from (length bytes.now) ≤ result }
    ensures before { (k : ℕ) → from ≤ k → k < result → slice_index bytes.now k ≢ byte }
    ensures found { result < length bytes.now → slice_index bytes.now result ≡ byte }
{
    for i in from..bytes.len() {
        if bytes[i] == byte {
            return i;
        }
    }
    bytes.len()
}
