// A block of each of two masters, compared behind what was seen before them: how many places differ, and only where some do, the largest distance;
// both are compiled to vector code. The first place is looked for only where none was found before.
ghost use Rattle.std.specs.Prelude.{◌≡◌, ◌+◌, ◌<◌, ◌≤◌, max, IfSome, length, sum_by, fold, position, option_map};
ghost use Rattle.std.specs.Int.{from_bool};
ghost use Rattle.std.specs.List.{zip};
ghost use Rattle.strip.specs.Sheet.{most};
ghost use Rattle.strip.specs.Difference.{distance, difference_after};
ghost use Rattle.strip.specs.Inner.{shifted_of, differ, far};

use crate::Difference;
use crate::samples::{bits_of, taken};

// ---- a place

// The position of a sample, counted from the lowest.
fn shifted(bits: u32) -> u32
    ensures { result ≡ shifted_of bits }
{
    if bits < 0x8000_0000 {
        bits + 0x8000_0000
    } else {
        0xffff_ffff - bits
    }
}

// How far two samples are apart in total order.
fn apart(a: u32, b: u32) -> u32
    ensures { result ≡ distance (record { left = a; right = b }) }
{
    shifted(a).abs_diff(shifted(b))
}

// ---- the places that two blocks have both

fn differ(left: &[u8; 4], right: &[u8; 4]) -> bool
    ensures { result ≡ differ (left.now, right.now) }
{
    bits_of(left) != bits_of(right)
}

// A sum of ones, which is compiled to vector code: `filter` and `count` aren't, and take six times as long.
fn count_different(left: &[[u8; 4]], right: &[[u8; 4]]) -> u32
    requires { length left.now ≤ most }
    ensures { result ≡ sum_by (λ p. from_bool (differ p)) (zip left.now right.now) }
{
    left.iter()
        .zip(right)
        .map(|(l, r)| u32::from(differ(l, r)))
        .sum()
}

// The largest distance.
fn find_widest(left: &[[u8; 4]], right: &[[u8; 4]]) -> u32
    ensures { result ≡ fold (λ w p. max w (far p)) 0 (zip left.now right.now) }
{
    left.iter().zip(right).fold(
        0,
        |widest, (l, r)| widest.max(apart(bits_of(l), bits_of(r))),
    )
}

// The index of the first that differs.
fn find_first(left: &[[u8; 4]], right: &[[u8; 4]]) -> Option<usize>
    ensures found { result ≡ position differ (zip left.now right.now) }
    ensures inside { IfSome result (λ i. i < length left.now) }
{
    left.iter().zip(right).position(|(l, r)| differ(l, r))
}

// The same, behind so many places.
fn first_of(before: u64, left: &[[u8; 4]], right: &[[u8; 4]]) -> Option<u64>
    requires { before + length left.now ≤ 18446744073709551615 }
    ensures { result ≡ option_map (λ i. before + i) (position differ (zip left.now right.now)) }
{
    let i = find_first(left, right)?;
    Some(before + i as u64)
}

// ---- two blocks

// A block of each behind what was seen before them. The counts are machine numbers; from nothing seen on they count no more than MOST samples.
pub fn compare_block<'a>(s: Difference, left: &'a [u8], right: &'a [u8]) -> Difference
    ensures { result ≡ difference_after s left.now right.now }
{
    let l = taken(s.left, left);
    let r = taken(s.right, right);
    let told = Difference {
        left: s.left + l.len() as u64,
        right: s.right + r.len() as u64,
        ..s
    };
    let different = count_different(l, r);
    if different == 0 {
        return told;
    }
    let widest = find_widest(l, r) as u64;
    let found = s.first;
    Difference {
        different: s.different.wrapping_add(different as u64),
        first: found.or_else(|| first_of(s.left, l, r)),
        widest: s.widest.max(widest),
        ..told
    }
}
