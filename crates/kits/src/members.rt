ghost use Rattle.std.specs.Prelude.{◌≡◌};
ghost use Rattle.kits.specs.Labels.{has_member};

// Is the number a member of the set, bit v standing for v?
pub fn has_member(set: u64, number: u32) -> bool
    ensures { result ≡ has_member set number }
{
    number < 64 && set >> number & 1 == 1
}
