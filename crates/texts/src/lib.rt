// The order of two texts.

#![tactic(auto)]

ghost use Rattle.std.specs.Prelude.{◌≡◌};
ghost use Rattle.texts.specs.Order.{AtMost, Before};

// The earlier of two texts itself, as it was lent; the first if they are equal.
pub fn earlier<'a>(first: &'a [u8], second: &'a [u8]) -> &'a [u8]
    ensures value { AtMost first.now second.now → result ≡ first.entry }
    ensures value_2 { Before second.now first.now → result ≡ second.entry }
{
    if second < first { second } else { first }
}
