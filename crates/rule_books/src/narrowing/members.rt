ghost use Rattle.std.specs.Prelude.{◌≡◌};
ghost use Rattle.kits.specs.Labels.{has_member};

use kits::members::has_member;

// Is the number, as rows and labels have it, a member of the label?
pub(crate) fn has(label: u16, number: u16) -> bool
    ensures { result ≡ has_member label number }
{
    has_member(u64::from(label), u32::from(number))
}
