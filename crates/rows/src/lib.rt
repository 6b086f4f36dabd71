// Rows of bits: sets of positions, one for each element; and a shape laid out, one struct for each block.

#![tactic(auto)]

ghost use Rattle.std.specs.Prelude.{◌≡◌, replicate};
ghost use Rattle.rows.specs.Row.{no_set, no_laid};

use sets::Set;

// A block laid out in a row: the positions at which its run may end, where it then is, and all the block's positions.
#[derive(Clone, Copy)]
pub struct LaidBlock {
    pub zone: Set,
    pub end: Set,
    pub slot: Set,
}

// A layout has a place for each of 32 blocks, a table a row for each position from 0 to 250.
pub const LAYOUT: usize = 32;

pub const TABLE: usize = 251;

const NO_SET: Set = Set {
    a: 0,
    b: 0,
    c: 0,
    d: 0,
};

const NO_LAID: LaidBlock = LaidBlock {
    zone: NO_SET,
    end: NO_SET,
    slot: NO_SET,
};

// Room for N rows: no position in any.
pub fn blank<const N: usize>() -> [Set; N]
    ensures { result ≡ replicate N no_set }
{
    [NO_SET; N]
}

// Room for a layout of N blocks.
pub fn blank_layout<const N: usize>() -> [LaidBlock; N]
    ensures { result ≡ replicate N no_laid }
{
    [NO_LAID; N]
}
