// The quick sweep: the earliest places of a shape's blocks in another shape, or that there cannot be a common text.

#![tactic(auto)]

ghost use Rattle.std.specs.Prelude.{◌≡◌, ◌*◌, ◌/◌, ◌≤◌, length};
ghost use Rattle.shapes.specs.Lent.{shape_of, RightLength};
ghost use Rattle.shapes.specs.Shape.{block_count};
ghost use Rattle.sweep_steps.specs.Steps.{sweep_of};
ghost use Rattle.sweep_passes.specs.Read.{swept_of, output_of};
ghost use Rattle.sweeps.specs.Kept.{Starts};

use answers::Swept;

// Both passes, over 64 numbers lent for the places, two for each block of x, which are there afterwards where there are
// places; of two accepted shapes.
pub fn sweep_kept(x: &[u64], y: &[u64], kept: &mut [u64]) -> Swept
    requires { RightLength x.now × RightLength y.now × (64 ≤ length kept.old) }
    ensures answer { result ≡ swept_of (sweep_of (shape_of x.now) (shape_of y.now)) }
    ensures starts { Starts (sweep_of (shape_of x.now) (shape_of y.now)) (2 * (block_count x.now)) kept.new }
{
    let s = sweep_passes::stretch_all(x, y, kept);
    if kept[0] != 1 || kept[1] != 0 {
        return Swept::Cannot(s.looks);
    }
    let p = sweep_passes::push_all(x, y, kept);
    match p {
        Swept::Cannot(more) => Swept::Cannot(s.looks + more),
        Swept::Places(more) => Swept::Places(s.looks + more),
    }
}

// The places of x's blocks in y, two numbers for each, to the output; of two accepted shapes.
pub fn sweep_shapes(x: &[u64], y: &[u64], out: &mut [u64]) -> Swept
    requires { RightLength x.now × RightLength y.now × (2 * (block_count x.now) ≤ length out.old) }
    ensures answer { result ≡ swept_of (sweep_of (shape_of x.now) (shape_of y.now)) }
    ensures output { out.new ≡ output_of (sweep_of (shape_of x.now) (shape_of y.now)) out.old }
{
    let mut kept = [0u64; 64];
    let swept = sweep_kept(x, y, &mut kept);
    if let Swept::Places(_) = swept {
        let n = x.len() / shapes::SIZE * 2;
        out[..n].copy_from_slice(&kept[..n]);
    }
    swept
}
