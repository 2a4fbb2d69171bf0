//! Sets of numbers, stored as bits in a list of words.
ghost use Rattle.std.specs.Prelude.{◌≡◌, ℕ, ◌+◌, ◌*◌, ◌/◌, ◌<◌, ◌≤◌, ◌||◌, ◌&&◌, ◌==◌, not, false, length, get_or, OnOk};
ghost use Rattle.imposer.specs.SheetNumbers.{has_number as bit};

use std::alloc::AllocError;

/// The number of bits in a word.
pub(crate) const BITS: usize = 64;

/// Whether the bit of this number is set.
pub(crate) fn has_bit(words: &[u64], number: u32) -> bool
    requires { number / 64 < length words.now }
    ensures { result ≡ bit words.now number }
{
    let word = words[number as usize / BITS];
    word >> (number % 64) & 1 == 1
}

/// Sets the bit of this number.
pub(crate) fn set_bit(words: &mut Vec<u64>, number: u32)
    requires { number / 64 < length words.old.items }
    ensures set { (k : ℕ) → bit words.new.items k ≡ ((k == number) || bit words.old.items k) }
    ensures len { length words.new.items ≡ length words.old.items }
{
    words[number as usize / BITS] |= 1u64 << (number % 64);
}

/// Clears the bit of this number.
pub(crate) fn clear_bit(words: &mut Vec<u64>, number: u32)
    requires { number / 64 < length words.old.items }
    ensures cleared { (k : ℕ) → bit words.new.items k ≡ (not (k == number) && bit words.old.items k) }
    ensures len { length words.new.items ≡ length words.old.items }
{
    words[number as usize / BITS] &= !(1u64 << (number % 64));
}

/// Appends words without set bits until the list has a bit for this number.
pub(crate) fn cover(words: &mut Vec<u64>, number: u32) -> Result<(), AllocError>
    ensures covered { OnOk result (number / 64 < length words.new.items) }
    ensures same { (k : ℕ) → bit words.new.items k ≡ bit words.old.items k }
    ensures few { length words.old.items ≤ 67108864 → length words.new.items ≤ 67108864 }
{
    let word = number as usize / BITS;
    if word >= words.len() {
        words.resize(word + 1, 0)?;
    }
    Ok(())
}

/// The index of the first word that has a set bit, from the word `from` to the word with the bit of `end`. If none of these words has a set bit, the
/// result is the index after the last of them, or `from` if that is greater.
pub(crate) fn next_filled(words: &[u64], from: usize, end: u32) -> usize
    ensures forward { from ≤ result }
    ensures blank { (k : ℕ) → 64 * from ≤ k → k < 64 * result → bit words.now k ≡ false }
    ensures after { get_or words.now result 0 ≡ 0 → result < length words.now → end ≤ 64 * result }
{
    let stop = words.len().min(end as usize / BITS + 1);
    let mut word = from;
    while word < stop && words[word] == 0 {
        word += 1;
    }
    word
}
