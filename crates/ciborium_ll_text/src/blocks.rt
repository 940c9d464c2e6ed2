//! A test of sixteen bytes at once: may each follow the three bytes before it in a text (Unicode, Table 3-7)?
//!
//! Three tables of sixteen entries give the possible faults of a pair of bytes, one bit for each fault: by the two
//! halves of the first byte, and by the upper half of the second. The pair has a fault if all three entries have its
//! bit.
//!
//! The highest bit is no fault by itself. It is set if a byte from 80 to bf follows another of them. It has to be set
//! exactly if a third or fourth byte of a character is due.

ghost use Rattle.std.specs.Prelude.{◌≡◌, ℕ, ◌+◌, ◌-◌, ◌<◌, ◌≤◌, IsTrue, length, map, slice_index};
ghost use Rattle.simdutf8.specs.Tables.{first_high, first_low, second_high};
ghost use Rattle.simdutf8.specs.Classes.{IsClass};
ghost use Rattle.simdutf8.specs.Steps.{Step};
ghost use Rattle.ciborium_ll_text.specs.Windows.{MayFollow};

use std::simd::prelude::*;

/// The fewest bytes for a test of sixteen at once: these sixteen and the three before them.
pub(crate) const LEAST_LEN: usize = 19;

const FIRST_HIGH: [u8; 16] = [2, 2, 2, 2, 2, 2, 2, 2, 128, 128, 128, 128, 33, 1, 21, 73];

const FIRST_LOW: [u8; 16] = [
    231, 163, 131, 131, 139, 203, 203, 203, 203, 203, 203, 203, 203, 219, 203, 203,
];

const SECOND_HIGH: [u8; 16] = [1, 1, 1, 1, 1, 1, 1, 1, 230, 174, 186, 186, 1, 1, 1, 1];

/// Returns the faults that the upper halves of the first bytes of sixteen pairs allow.
#[inline(always)]
fn by_first_high(first: u8x16) -> u8x16
    ensures { result ≡ map first_high first }
{
    u8x16::from_array(FIRST_HIGH).swizzle_dyn_within::<16>(first >> u8x16::splat(4))
}

/// Returns the faults that the lower halves of the first bytes of sixteen pairs allow.
#[inline(always)]
fn by_first_low(first: u8x16) -> u8x16
    ensures { result ≡ map first_low first }
{
    u8x16::from_array(FIRST_LOW).swizzle_dyn_within::<16>(first & u8x16::splat(15))
}

/// Returns the faults that the upper halves of the second bytes of sixteen pairs allow.
#[inline(always)]
fn by_second_high(second: u8x16) -> u8x16
    ensures { result ≡ map second_high second }
{
    u8x16::from_array(SECOND_HIGH).swizzle_dyn_within::<16>(second >> u8x16::splat(4))
}

/// Returns the faults of sixteen pairs, in one byte for each pair.
#[inline(always)]
fn classes(first: u8x16, second: u8x16) -> u8x16
    ensures len { length result ≡ 16 }
    ensures lanes { (i : ℕ) → i < 16 → IsClass (slice_index first i) (slice_index second i) (slice_index result i) }
{
    by_first_high(first) & by_first_low(first) & by_second_high(second)
}

/// Returns sixteen bytes less sixteen others, or 0 for a byte that is smaller than the other byte.
#[inline(always)]
fn excess(bytes: u8x16, others: u8x16) -> u8x16
    ensures len { length result ≡ 16 }
    ensures lanes { (i : ℕ) → i < 16 → slice_index result i ≡ slice_index bytes i - slice_index others i }
{
    bytes.saturating_sub(others)
}

/// Tells if sixteen bytes are 0. A no says nothing.
#[inline(always)]
#[tactic(auto, using(crate::proofs::BlockLaws::zero_of_mask))]
fn is_zero(block: u8x16) -> bool
    ensures { IsTrue result → (i : ℕ) → slice_index block i ≡ 0 }
{
    block.simd_ne(u8x16::splat(0)).to_bitmask() == 0
}

/// Tells if each of sixteen bytes may follow the three before it, which are in the other blocks. A no says nothing.
#[inline(always)]
fn may_follow(third_last: u8x16, second_last: u8x16, last: u8x16, bytes: u8x16) -> bool
    ensures { IsTrue result → (i : ℕ) → i < 16 → Step (slice_index third_last i) (slice_index second_last i)
        (slice_index last i) (slice_index bytes i) }
{
    let pair = classes(last, bytes);
    // The highest bit is set for a byte from e0 on, and for a byte from f0 on.
    let third = excess(second_last, u8x16::splat(0x60));
    let fourth = excess(third_last, u8x16::splat(0x70));
    is_zero(((third | fourth) & u8x16::splat(0x80)) ^ pair)
}

/// Tells if each of the sixteen bytes from index `at` on may follow the three before it. A no says nothing.
#[inline(always)]
fn follow(bytes: &[u8], at: usize) -> bool
    requires from { 3 ≤ at }
    requires to { at + 16 ≤ length bytes.now }
    ensures { IsTrue result → MayFollow bytes.now at (at + 16) }
{
    may_follow(
        u8x16::from_slice(&bytes[at - 3..]),
        u8x16::from_slice(&bytes[at - 2..]),
        u8x16::from_slice(&bytes[at - 1..]),
        u8x16::from_slice(&bytes[at..]),
    )
}

/// Tells if each byte after the first three may follow the three before it. A no says nothing.
///
/// It tests the last sixteen bytes by themselves, even if it has tested some before.
#[inline(always)]
pub(crate) fn all_follow(bytes: &[u8]) -> bool
    requires { 19 ≤ length bytes.now }
    ensures { IsTrue result → MayFollow bytes.now 3 (length bytes.now) }
{
    let mut at = 3;
    'sixteens: while bytes.len() - at >= 16 {
        if !follow(bytes, at) {
            return false;
        }
        at += 16;
    }
    follow(bytes, bytes.len() - 16)
}
