// The quick sweep's places and what push and stretch come to. A block's number and an offset are kept apart by their
// types.

#![tactic(auto)]

// A block's number, from 1.
#[derive(Clone, Copy, PartialEq, Eq, PartialOrd, Ord)]
pub struct BlockNumber(pub u64);

// An offset within a block, from 0.
#[derive(Clone, Copy, PartialEq, Eq, PartialOrd, Ord)]
pub struct Offset(pub u64);

// A place in a shape of m blocks; past the end is block m + 1 at offset 0. Places are in order by block, then by
// offset.
#[derive(Clone, Copy, PartialEq, Eq, PartialOrd, Ord)]
pub struct Place {
    pub block: BlockNumber,
    pub offset: Offset,
}

// Where a shape begins.
pub const START: Place = Place {
    block: BlockNumber(1),
    offset: Offset(0),
};

// What push does after a look at a block: end at this offset in it, restart behind it with the full lower again, or go
// on behind it with this k.
#[derive(Clone, Copy)]
pub enum PushLook {
    Ends(Offset),
    Restarts,
    GoesOn(u64),
}

// What stretch does after a look: end at this offset in the block, or go on behind it with this k.
#[derive(Clone, Copy)]
pub enum StretchLook {
    Ends(Offset),
    GoesOn(u64),
}

// What push comes to: what of k is left, and the looks made.
#[derive(Clone, Copy)]
pub struct Pushed {
    pub start: Place,
    pub end: Place,
    pub left: u64,
    pub looks: u64,
}

// What stretch comes to.
#[derive(Clone, Copy)]
pub struct Stretched {
    pub end: Place,
    pub looks: u64,
}
