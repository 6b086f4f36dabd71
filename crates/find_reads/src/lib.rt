// A shape read for a mark, block by block: the states that some text which lacks the mark ends in, and the lengths at
// which the mark is complete for the first time.

#![tactic(auto)]

ghost use Rattle.std.specs.Prelude.{◌≡◌, List, [], ◌∷◌, ◌++◌, ◌+◌, ◌≤◌, length};
ghost use Rattle.sets.specs.Set.{set_of, Exactly};
ghost use Rattle.shapes.specs.Shape.{Sound, Fits, total};
ghost use Rattle.shapes.specs.Shape.{Block as Meant};
ghost use Rattle.shapes.specs.Lent.{meant, shape_of, Accepted};
ghost use Rattle.find_texts.specs.Reading.{Begun};
ghost use Rattle.find_borders.specs.Borders.{ShortMark};
ghost use Rattle.find_ways.specs.Ways.{FallWords, ContinuedRows, WaysOf};
ghost use Rattle.find_rows.specs.Says.{HitsSay, LiveIn};
ghost use Rattle.find_reads.specs.Reads.{Heard, LeftIn};

use find_ways::{Mark, Ways};
use sets::Set;
use shapes::Block;

// What a search has found so far: the live states, and the lengths at which the mark is complete.
#[derive(Clone, Copy)]
pub struct Search {
    pub live: u64,
    pub hits: Set,
}

// One block more, character by character.
fn read_block(mark: Mark, ways: Ways, b: Block, rows: &mut [Set; 64], before: Search) -> Search
    requires short_mark { ShortMark mark.text.now × Exactly before.live (LiveIn mark.text.now rows.old) × Sound (meant b) }
    requires fall_words { FallWords mark.text.now (length mark.text.now) mark.falls.now × WaysOf mark.text.now ways × (set_of ways.base ≡ set_of b.base) }
    ensures exactly { Exactly result.live (LiveIn mark.entry.text.now rows.new) }
    ensures heard { (s : List Meant) → total s + b.upper ≤ 250 → Heard mark.entry.text.now s rows.old (set_of before.hits)
        → Heard mark.entry.text.now (s ++ (meant b ∷ [])) rows.new (set_of result.hits) }
{
    let m = mark.text.len();
    let mut live = before.live;
    let mut hits = before.hits;
    for o in 0..b.upper {
        let found = find_rows::arrive(mark, ways, rows, live, rows[m - 1], m);
        hits = sets::either(hits, found);
        live = find_rows::step(mark, ways, rows, live, b.lower <= o);
    }
    Search { live, hits }
}

// One block more; where every text has the mark by now, there is nothing left to read.
fn read_on(mark: Mark, b: Block, rows: &mut [Set; 64], before: Search) -> Search
    requires short_mark { ShortMark mark.text.now × Exactly before.live (LiveIn mark.text.now rows.old) × Sound (meant b) }
    requires fall_words { FallWords mark.text.now (length mark.text.now) mark.falls.now × ContinuedRows mark.text.now (length mark.text.now) mark.seen.now }
    ensures exactly { Exactly result.live (LiveIn mark.entry.text.now rows.new) }
    ensures heard { (s : List Meant) → total s + b.upper ≤ 250 → Heard mark.entry.text.now s rows.old (set_of before.hits)
        → Heard mark.entry.text.now (s ++ (meant b ∷ [])) rows.new (set_of result.hits) }
{
    if before.live == 0 {
        return before;
    }
    let ways = find_ways::of_base(mark, b.base);
    read_block(mark, ways, b, rows, before)
}

// All blocks of a shape, from the start.
pub fn read_shape(mark: &[u8], shape: &[u64]) -> Search
    requires { ShortMark mark.now × Accepted shape.now }
    ensures exactly { Exactly result.live (LeftIn mark.now (Fits (shape_of shape.now))) }
    ensures hits_say { HitsSay mark.now (Begun (shape_of shape.now)) (set_of result.hits) }
{
    let mut falls = [0u64; 64];
    let mut seen = rows::blank();
    find_ways::lay(mark, &mut falls, &mut seen);
    let known = Mark {
        text: mark,
        falls: &falls,
        seen: &seen,
    };
    let mut rows = rows::blank();
    rows[0] = sets::single(0);
    let mut search = Search {
        live: 1,
        hits: sets::none(),
    };
    for i in 0..shape.len() / shapes::SIZE {
        let b = shapes::block_at(shape, i);
        search = read_on(known, b, &mut rows, search);
    }
    search
}
