// Kernels over the entry words of a segment, eight lanes at a time.
ghost use Rattle.std.specs.Prelude.{◌≡◌, ℕ, ◌+◌, ◌<◌, ◌≤◌, ◌^◌, ◌-◌, if◌then◌else◌, map, length, slice_index};
ghost use Rattle.std.specs.Simd.Lanes.{mask_l, chunk, put_chunk};
ghost use Rattle.sweeper.specs.Bits.{bit, is_cell_bits, without_mark};

use std::simd::prelude::*;

const MARK: u64 = 1 << 62;

const UPPER: u64 = 7 << 56;

const TAG: u64 = 255 << 48;

/// Which of eight words have a bit.
fn bits_in(lanes: &[u64; 8], place: u32) -> u64
    requires { place < 64 }
    ensures { result ≡ mask_l (map (λ w. bit w place) lanes.now) }
{
    (u64x8::from_array(*lanes) & u64x8::splat(1 << place))
        .simd_ne(u64x8::splat(0))
        .to_bitmask()
}

/// Which of at most 64 words have a bit.
fn bit_mask(words: &[u64], place: u32) -> u64
    requires many { length words.now ≤ 64 }
    requires place { place < 64 }
    ensures bits { (i : ℕ) → i < length words.now → bit result i ≡ bit (slice_index words.now i) place }
    ensures past { result < 2 ^ length words.now }
{
    let (whole, rest) = words.as_chunks::<8>();
    let mut mask = 0u64;
    let mut at = 0u32;
    for lanes in whole {
        mask |= bits_in(lanes, place) << at;
        at += 8;
    }
    for word in rest {
        mask |= (*word >> place & 1) << at;
        at += 1;
    }
    mask
}

/// Which of at most 64 words have bit 62.
pub fn mark_mask(words: &[u64]) -> u64
    requires { length words.now ≤ 64 }
    ensures bits { (i : ℕ) → i < length words.now → bit result i ≡ bit (slice_index words.now i) 62 }
    ensures past { result < 2 ^ length words.now }
{
    bit_mask(words, 62)
}

/// Which of at most 64 words have bit 58, as evacuation entries do.
pub fn evac_mask(words: &[u64]) -> u64
    requires { length words.now ≤ 64 }
    ensures bits { (i : ℕ) → i < length words.now → bit result i ≡ bit (slice_index words.now i) 58 }
    ensures past { result < 2 ^ length words.now }
{
    bit_mask(words, 58)
}

/// Which of eight words are cells.
fn cells_in(lanes: &[u64; 8]) -> u64
    ensures { result ≡ mask_l (map is_cell_bits lanes.now) }
{
    let words = u64x8::from_array(*lanes);
    let low = (words & u64x8::splat(UPPER))
        .simd_eq(u64x8::splat(0))
        .to_bitmask();
    let tagged = (words & u64x8::splat(TAG))
        .simd_ne(u64x8::splat(0))
        .to_bitmask();
    low & tagged
}

/// 1 where a word has none of the bits 56, 57 and 58, and a tag, and else 0.
fn cell_bit(word: u64) -> u64
    ensures { result ≡ (if is_cell_bits word then 1 else 0) }
{
    if word & UPPER == 0 && word & TAG != 0 {
        1
    } else {
        0
    }
}

/// Which of at most 64 words are cells, marked or not and shown or not.
pub fn cell_mask(words: &[u64]) -> u64
    requires { length words.now ≤ 64 }
    ensures bits { (i : ℕ) → i < length words.now → bit result i ≡ is_cell_bits (slice_index words.now i) }
    ensures past { result < 2 ^ length words.now }
{
    let (whole, rest) = words.as_chunks::<8>();
    let mut mask = 0u64;
    let mut at = 0u32;
    for lanes in whole {
        mask |= cells_in(lanes) << at;
        at += 8;
    }
    for word in rest {
        mask |= cell_bit(*word) << at;
        at += 1;
    }
    mask
}

/// Clears bit 62 of eight words.
fn clear_at(words: &mut [u64], at: usize)
    requires { at + 8 ≤ length words.old }
    ensures { words.new ≡ put_chunk at words.old (map without_mark (chunk at 8 words.old)) }
{
    let lanes = u64x8::from_slice(&words[at..]) & u64x8::splat(!MARK);
    lanes.copy_to_slice(&mut words[at..]);
}

/// Clears bit 62 of each word, and nothing else.
pub fn clear_marks(words: &mut [u64])
    ensures { words.new ≡ map without_mark words.old }
{
    let mut at = 0;
    while words.len() - at >= 8 {
        clear_at(words, at);
        at += 8;
    }
    while at < words.len() {
        words[at] &= !MARK;
        at += 1;
    }
}
