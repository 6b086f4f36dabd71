// Exact narrowing of a join: the text of x is that of y followed by that of z.

#![tactic(auto)]

ghost use Rattle.std.specs.Prelude.{◌≤◌, length};
ghost use Rattle.joins.specs.Refused.{JoinAccepted};
ghost use Rattle.joins.specs.Join.{JoinAnswer};

// Narrows three accepted shapes into outputs with enough room: x against the line of y and z.
pub fn narrow_accepted(
    x: &[u64],
    y: &[u64],
    z: &[u64],
    out_x: &mut [u64],
    out_y: &mut [u64],
    out_z: &mut [u64],
) -> bool
    requires join_accepted { JoinAccepted x.now y.now z.now }
    requires x_in_bounds { (length x.now ≤ length out_x.old) × (length y.now ≤ length out_y.old) × (length z.now ≤ length out_z.old) }
    ensures { JoinAnswer x.now y.now z.now out_x.old out_y.old out_z.old
        out_x.new out_y.new out_z.new result }
{
    let n = y.len();
    let mut line = [0u64; 2 * shapes::MOST * shapes::SIZE];
    let mut new = [0u64; 2 * shapes::MOST * shapes::SIZE];
    let k = join_lines::lay_line(y, z, &mut line);
    if !join_lines::narrow_line(&line[..k], x, &mut new, out_x) {
        return false;
    }
    join_lines::lay_parts(&new[..k], n, out_y, out_z);
    true
}
