// Words as bytes: four to a word, the lowest first.
#![tactic(auto)]

ghost use Rattle.std.specs.Prelude.{◌≡◌, IfOk};
ghost use Rattle.std.specs.List.{slice_get};
ghost use Rattle.word_bytes.specs.Bytes.{words_of, Puts, ReadBack};

use std::alloc::{AllocError, Global};

// Word i, if its four bytes are there.
pub fn word_at(bytes: &[u8], i: usize) -> Option<u32>
    ensures { result ≡ slice_get (words_of bytes.now) i }
{
    let (fours, _) = bytes.as_chunks::<4>();
    let [a, b, c, d] = *fours.get(i)?;
    Some(u32::from_le_bytes([a, b, c, d]))
}

// The words, without what is left over after the last.
#[tactic(auto, using(crate::proofs::Fours::by_fours))]
pub fn read_words(heap: Global, bytes: &[u8]) -> Result<Vec<u32>, AllocError>
    ensures { IfOk result (λ v. v.items ≡ words_of bytes.now) }
{
    let (fours, _) = bytes.as_chunks::<4>();
    fours.iter().copied().map(u32::from_le_bytes).collect(heap)
}

// Writes the four bytes of word i; false, and nothing written, where they do not fit. A bool, since it fails in one way only.
pub fn put_word(bytes: &mut [u8], i: usize, word: u32) -> bool
    ensures { Puts bytes.old i word result bytes.new }
{
    if i >= bytes.len() / 4 {
        return false;
    }
    // By its range: after `as_chunks_mut` or `get_mut` no proof knows what the bytes are.
    let start = 4 * i;
    bytes[start..start + 4].copy_from_slice(&word.to_le_bytes());
    true
}

// The bytes of words read as those words, and whole words give their bytes.
pub fn read_back()
    ensures { ReadBack }
{}

#[cfg(test)]
mod tests {
    use super::*;

    #[test]
    fn words_of_bytes(rt: HostRuntime) {
        let bytes = [1, 0, 0, 0x10, 0x83, 0, 0, 0x20, 7];
        for (i, word) in [(0, Some(0x1000_0001)), (1, Some(0x2000_0083)), (2, None)] {
            assert_eq!(rt; word_at(&bytes, i), word);
        }
    }
}
