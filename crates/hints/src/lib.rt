//! The placing rule of document 01 by hints: for a row and a tag, the row to which the rule leads, and what becomes of the counts.
//! A place's counts stand in one number here, fourteen bits a level. A hint is a row and a kind, and a kind is three numbers.
//! Each number below 32 has an arm, so that they are looked up in constant memory with no test.

#![tactic(auto)]

pub mod tables;

ghost use Rattle.std.specs.Prelude.{◌≡◌};
ghost use Rattle.hints.specs.Kinds.{hint_slot, kept_mask, bound_of, more_of};

/// Which of a row's sixteen hints may tell of a tag. No two tags that may follow on one row have the same.
pub fn slot_of(tag: u32) -> usize
    ensures { result ≡ hint_slot tag }
{
    (((tag as u64 * 60675803) >> 22) % 16) as usize
}

/// The bits of the counts that stay: those of the levels further out, and those of the level entered where it is entered once more.
pub fn kept_mask(kind: usize) -> u64
    ensures { result ≡ kept_mask kind }
{
    match kind {
        0 => 0xffff_ffff_ffff_ffff,
        1 => 0,
        2 => 0x3fff,
        3 => 0,
        4 => 0x3fff,
        5 => 0x3fff,
        6 => 0x3fff,
        7 => 0xfff_ffff,
        8 => 0xfff_ffff,
        9 => 0xfff_ffff,
        10 => 0x3fff,
        11 => 0xfff_ffff,
        12 => 0xfff_ffff,
        13 => 0xfff_ffff,
        14 => 0x3ff_ffff_ffff,
        15 => 0x3ff_ffff_ffff,
        16 => 0x3ff_ffff_ffff,
        17 => 0xfff_ffff,
        18 => 0x3ff_ffff_ffff,
        19 => 0x3ff_ffff_ffff,
        20 => 0x3ff_ffff_ffff,
        21 => 0xff_ffff_ffff_ffff,
        22 => 0xff_ffff_ffff_ffff,
        23 => 0xff_ffff_ffff_ffff,
        24 => 0x3ff_ffff_ffff,
        25 => 0xff_ffff_ffff_ffff,
        26 => 0xff_ffff_ffff_ffff,
        27 => 0xffff_ffff_ffff_ffff,
        28 => 0xffff_ffff_ffff_ffff,
        29 => 0xffff_ffff_ffff_ffff,
        30 => 0xffff_ffff_ffff_ffff,
        31 => 0xffff_ffff_ffff_ffff,
        _ => 0xffff_ffff_ffff_ffff,
    }
}

/// A hint of a kind tells where what stays of the counts is less than this.
pub fn bound_of(kind: usize) -> u64
    ensures { result ≡ bound_of kind }
{
    match kind {
        0 => 1,
        1 => 1,
        2 => 9,
        3 => 1,
        4 => 0x63,
        5 => 0x3fff,
        6 => 0x4000,
        7 => 0xc000,
        8 => 0x2_4000,
        9 => 0x18_c000,
        10 => 0x4000,
        11 => 0x18_c000,
        12 => 0xf9_c000,
        13 => 0x1000_0000,
        14 => 0x3000_0000,
        15 => 0x9000_0000,
        16 => 0x6_3000_0000,
        17 => 0x1000_0000,
        18 => 0x6_3000_0000,
        19 => 0x3e_7000_0000,
        20 => 0x400_0000_0000,
        21 => 0xc00_0000_0000,
        22 => 0x2400_0000_0000,
        23 => 0x1_8c00_0000_0000,
        24 => 0x400_0000_0000,
        25 => 0x1_8c00_0000_0000,
        26 => 0x100_0000_0000_0000,
        27 => 0x900_0000_0000_0000,
        28 => 1,
        29 => 1,
        30 => 1,
        31 => 1,
        _ => 1,
    }
}

/// What is added then to what stays.
pub fn more_of(kind: usize) -> u64
    ensures { result ≡ more_of kind }
{
    match kind {
        0 => 1,
        1 => 1,
        2 => 1,
        3 => 0x4001,
        4 => 0x4001,
        5 => 0x4001,
        6 => 0x4000,
        7 => 0x4000,
        8 => 0x4000,
        9 => 0x4000,
        10 => 0x1000_4000,
        11 => 0x1000_4000,
        12 => 0x1000_4000,
        13 => 0x1000_0000,
        14 => 0x1000_0000,
        15 => 0x1000_0000,
        16 => 0x1000_0000,
        17 => 0x400_1000_0000,
        18 => 0x400_1000_0000,
        19 => 0x400_1000_0000,
        20 => 0x400_0000_0000,
        21 => 0x400_0000_0000,
        22 => 0x400_0000_0000,
        23 => 0x400_0000_0000,
        24 => 0x100_0400_0000_0000,
        25 => 0x100_0400_0000_0000,
        26 => 0x100_0000_0000_0000,
        27 => 0x100_0000_0000_0000,
        28 => 1,
        29 => 1,
        30 => 1,
        31 => 1,
        _ => 1,
    }
}
