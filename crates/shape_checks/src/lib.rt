// What is wrong with a shape's numbers, if anything: the first bad block and which thing, or the shape's length.

#![tactic(auto)]

ghost use Rattle.std.specs.Prelude.{◌≤◌, ◌<◌};
ghost use Rattle.plain.specs.Tells.{Tells};
ghost use Rattle.shapes.specs.Shape.{block_count};
ghost use Rattle.shapes.specs.Wrong.{Disagree, BlockChecked};
ghost use Rattle.shapes.specs.Lent.{meant, shape_of, BlocksChecked, ShapeChecked};
ghost use Rattle.shapes.specs.Code.{EachChecked};

use answers::Refusal;
use shapes::Block;

// Whether base and upper disagree.
fn disagree(b: Block) -> bool
    ensures { Tells result (Disagree (meant b)) }
{
    if sets::is_empty(b.base) {
        return 0 < b.upper;
    }
    b.upper == 0
}

// Refusals 2, 10 and 11 of block number `place`. The numbers may be any.
fn check_block(b: Block, number: u64, place: u64) -> Result<(), Refusal>
    ensures { BlockChecked number place (meant b) result }
{
    if b.upper < b.lower {
        return Err(Refusal::Crossed(number, place));
    }
    if 250 < b.upper {
        return Err(Refusal::TooLarge(number, place));
    }
    if disagree(b) {
        return Err(Refusal::Disagree(number, place));
    }
    Ok(())
}

// The refusal of the first block that has one.
fn check_each(shape: &[u64], number: u64) -> Result<(), Refusal>
    ensures { EachChecked number (shape_of shape.now) result }
{
    for i in 0..shape.len() / shapes::SIZE {
        let block = shapes::block_at(shape, i);
        check_block(block, number, i as u64 + 1)?;
    }
    Ok(())
}

// Refusals 2, 10, 11 and 3 of the blocks of shape number `number`.
pub fn check_blocks(shape: &[u64], number: u64) -> Result<(), Refusal>
    requires { block_count shape.now ≤ 32 }
    ensures { BlocksChecked number (shape_of shape.now) result }
{
    check_each(shape, number)?;
    if 250 < shapes::total_upper(shape) {
        return Err(Refusal::Total(number));
    }
    Ok(())
}

// Refusal 1, then those of the blocks, of the numbers lent for shape number `number`.
pub fn check_lent(shape: &[u64], number: u64) -> Result<(), Refusal>
    ensures { ShapeChecked number shape.now result }
{
    let n = shape.len();
    if n % shapes::SIZE != 0 || n == 0 || shapes::MOST * shapes::SIZE < n {
        return Err(Refusal::Length(number));
    }
    check_blocks(shape, number)
}
