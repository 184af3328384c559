// A sample of a plane, or a letter of a picture, as a number: `u8` or `u16`. What both have in common is said here, once: the numbers that
// they are, the depths that they hold, their bytes in a stream. And a plane as it is lent.
#![tactic(auto)]

ghost use Rattle.std.specs.Prelude.{◌≡◌, ℕ, List, ◌+◌, ◌≤◌, ◌<◌, cond, eqb, length, map, get_or, set};
ghost use Rattle.std.proofs.lemmas.List.Edits.{sets};
ghost use Rattle.std.proofs.Common.{refl, sym, rules};
ghost use Rattle.std.specs.Align.{type_align};
ghost use Rattle.std.specs.Mem.{type_size};
ghost use Rattle.std.proofs.lemmas.List.{map-id};
ghost use Rattle.yuv_support.specs.Settings.{depths8, depths16};
ghost use Rattle.sample.specs.Bytes.{bytes_of, sample_at};

use crate::depths::Depths;

pub mod depths;
pub mod plane;

// Two samples that stand side by side.
#[derive(Clone, Copy, Debug, PartialEq, Eq)]
pub struct Two<T> {
    pub first: T,
    pub second: T,
}

pub trait Sample: Copy + Depths {
    // The number that a sample is, and the largest number of a sample.
    ghost number: { Self → ℕ };

    ghost most: { ℕ };

    // The numbers of a list of samples. At `u8` and at `u16` this is the list itself, so that a contract there reads in plain numbers.
    ghost numbers: { List Self → List ℕ };

    // How many bytes a sample has in a stream.
    ghost SIZE: { ℕ };

    const SIZE: usize;

    // No `From`, here and in `from_u16`: this one tells that the number fits, and that one asks it, and std's traits have no such clauses.
    fn to_u16(self) -> u16
        ensures value { result ≡ number self }
        ensures fits { result ≤ most };

    fn from_u16(code: u16) -> Self
        requires { code ≤ most }
        ensures { number result ≡ code };

    // The samples at a place and after it. `zero` is 0, a number of run time, so that the compiler loads both at once.
    fn two(row: &[Self], place: usize, zero: u32) -> Two<Self>
        requires room { place + 1 < length row.now }
        requires is_zero { zero ≡ 0 }
        ensures first { number result.first ≡ get_or (numbers row.now) place 0 }
        ensures second { number result.second ≡ get_or (numbers row.now) (place + 1) 0 };

    // The sample whose bytes begin at a place of a stream, low byte first.
    fn from_bytes(bytes: &[u8], place: usize) -> Self
        requires { place + SIZE ≤ length bytes.now }
        ensures { number result ≡ sample_at SIZE bytes.now place };

    // Its bytes, from a place of the output on: a part would have to be cut for each sample.
    fn put_bytes(self, out: &mut [u8], place: usize)
        requires { place + SIZE ≤ length out.old }
        ensures { out.new ≡ sets out.old place (bytes_of SIZE (number self)) };

    // So few that the bytes of a row of 2^32 samples can be counted.
    ghost few_bytes: { SIZE ≤ 8 };

    // So small, and at such places in memory, that an array of some thousand samples can be made, alone and in a struct.
    ghost small: { type_size Self.row ≤ 2 };

    ghost aligned: { type_align Self.row ≤ 2 };

    // The depths go by the number of bytes.
    ghost depths_are: { Self.known ≡ cond (eqb SIZE 1) depths8 depths16 };

    // What generic code knows of `numbers`.
    ghost numbers_are: { (xs : List Self) → numbers xs ≡ map number xs };
}

impl Sample for u8 {
    ghost number = { λ x. x };

    ghost most = { 255 };

    ghost numbers = { λ xs. xs };

    ghost SIZE = { 1 };

    ghost few_bytes = { Prim.search rules };

    ghost small = { Prim.search rules };

    ghost aligned = { Prim.search rules };

    ghost depths_are = { refl };

    ghost numbers_are = { λ xs. sym (map-id xs) };

    const SIZE: usize = 1;

    fn to_u16(self) -> u16 {
        self as u16
    }

    fn from_u16(code: u16) -> u8 {
        code as u8
    }

    fn two(row: &[u8], place: usize, zero: u32) -> Two<u8> {
        let pair = row[place] as u16 + 256 * row[place + 1] as u16 + zero as u16;
        Two {
            first: (pair % 256) as u8,
            second: (pair / 256) as u8,
        }
    }

    #[tactic(auto, unfolding(crate::specs::Bytes::sample_at))]
    fn from_bytes(bytes: &[u8], place: usize) -> u8 {
        bytes[place]
    }

    #[tactic(auto, unfolding(crate::specs::Bytes::bytes_of))]
    fn put_bytes(self, out: &mut [u8], place: usize) {
        out[place] = self;
    }
}

impl Sample for u16 {
    ghost number = { λ x. x };

    ghost most = { 65535 };

    ghost numbers = { λ xs. xs };

    ghost SIZE = { 2 };

    ghost few_bytes = { Prim.search rules };

    ghost small = { Prim.search rules };

    ghost aligned = { Prim.search rules };

    ghost depths_are = { refl };

    ghost numbers_are = { λ xs. sym (map-id xs) };

    const SIZE: usize = 2;

    fn to_u16(self) -> u16 {
        self
    }

    fn from_u16(code: u16) -> u16 {
        code
    }

    // The first is moved to where the second stands, and taken from there, as the second is, which the compiler does faster.
    fn two(row: &[u16], place: usize, zero: u32) -> Two<u16> {
        let pair = row[place] as u32 + 65536 * row[place + 1] as u32 + zero;
        Two {
            first: ((pair << (16 + zero)) / 65536) as u16,
            second: (pair / 65536) as u16,
        }
    }

    #[tactic(auto, unfolding(crate::specs::Bytes::sample_at))]
    fn from_bytes(bytes: &[u8], place: usize) -> u16 {
        u16::from_le_bytes([bytes[place], bytes[place + 1]])
    }

    #[tactic(auto, unfolding(crate::specs::Bytes::bytes_of))]
    fn put_bytes(self, out: &mut [u8], place: usize) {
        let [low, high] = self.to_le_bytes();
        out[place] = low;
        out[place + 1] = high;
    }
}

// The number of a row's sample at a place.
pub fn read<S: Sample>(row: &[S], place: usize) -> u16
    requires { place < length (S.numbers row.now) }
    ensures value { result ≡ get_or (S.numbers row.now) place 0 }
    ensures fits { result ≤ S.most }
{
    row[place].to_u16()
}

// A number put at a place of a row: one element, so there is no part to lend.
pub fn write<S: Sample>(row: &mut [S], place: usize, code: u16)
    requires inside { place < length (S.numbers row.old) }
    requires fits { code ≤ S.most }
    ensures { S.numbers row.new ≡ set (S.numbers row.old) place code }
{
    row[place] = S::from_u16(code);
}
