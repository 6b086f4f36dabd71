// The steps of the quick sweep: one block pushed or stretched in another shape.

#![tactic(auto)]

ghost use Rattle.std.specs.Prelude.{◌≡◌, reverse, ◌≤◌};
ghost use Rattle.shapes.specs.Lent.{meant, shape_of};
ghost use Rattle.sweep_steps.specs.Places.{number_of};
ghost use Rattle.sweep_steps.specs.Steps;

use shapes::Block;
use sweep_steps::{BlockNumber, Offset, Place, PushLook, Pushed, StretchLook, Stretched};

// What push comes to at block i and offset o.
fn pushed(start: Place, i: BlockNumber, o: Offset, left: u64, looks: u64) -> Pushed
    ensures { result ≡ record { start = start; end = record { block = i; offset = o }; left = left; looks = looks } }
{
    Pushed {
        start,
        end: Place {
            block: i,
            offset: o,
        },
        left,
        looks,
    }
}

// Push a block in the shape y from a place.
pub fn push(s: Block, y: &[u64], from: Place) -> Pushed
    requires { 1 ≤ number_of from }
    ensures { result ≡ Steps.push (meant s) (shape_of y.now) from }
{
    let lower = s.lower;
    let m = (y.len() / shapes::SIZE) as u64;
    let mut k = lower;
    let mut start = from;
    let mut i = from.block;
    let mut o = from.offset;
    let mut looks: u64 = 0;
    // The block's number is part of the place reached, so it outlives the loop: no `for` counts it.
    while i.0 <= m {
        if k == 0 {
            return pushed(start, i, o, k, looks);
        }
        let look = sweep_looks::push_look(s, sweep_places::block(y, i), o, k);
        looks += 1; // block i of y
        match look {
            PushLook::Ends(e) => return pushed(start, i, e, 0, looks),
            PushLook::Restarts => {
                i = BlockNumber(i.0 + 1);
                o = Offset(0);
                k = lower;
                start = Place {
                    block: i,
                    offset: o,
                };
            }
            PushLook::GoesOn(left) => {
                i = BlockNumber(i.0 + 1);
                o = Offset(0);
                k = left;
            }
        }
    }
    pushed(start, i, o, k, looks)
}

// Stretch a block in the reversed shape y from a place of it.
pub fn stretch(s: Block, y: &[u64], from: Place) -> Stretched
    requires { 1 ≤ number_of from }
    ensures { result ≡ Steps.stretch (meant s) (reverse (shape_of y.now)) from }
{
    let m = (y.len() / shapes::SIZE) as u64;
    let mut k = s.upper;
    let mut i = from.block;
    let mut o = from.offset;
    let mut looks: u64 = 0;
    // As in push, the block's number outlives the loop.
    while i.0 <= m {
        let look = sweep_looks::stretch_look(
            s,
            sweep_places::block(y, BlockNumber(m + 1 - i.0)),
            o,
            k,
        );
        looks += 1; // block i of y reversed
        match look {
            StretchLook::Ends(e) => {
                return Stretched {
                    end: Place {
                        block: i,
                        offset: e,
                    },
                    looks,
                };
            }
            StretchLook::GoesOn(left) => {
                i = BlockNumber(i.0 + 1);
                o = Offset(0);
                k = left;
            }
        }
    }
    Stretched {
        end: Place {
            block: i,
            offset: o,
        },
        looks,
    }
}
