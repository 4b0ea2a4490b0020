ghost use Rattle.std.specs.Prelude.{◌≡◌, not, map, ◌==◌, ◌&&◌, nat_le, nat_lt};
ghost use Rattle.std.specs.List.{zip};
ghost use Rattle.catalogue.specs.Lawful.{all, kind_lawful, rising, apart, offered, row_lawful};
ghost use Rattle.catalogue.specs.Listed.{listed};

use crate::model::Kind;
use crate::slots::Slots;

// Is t a used slot?
pub(crate) fn kind_fits(kind: Kind, used: u32) -> bool
    ensures { result ≡ kind_lawful used kind }
{
    match kind {
        Kind::Goes => true,
        Kind::Needs(t) | Kind::Bars(t) => t < used,
    }
}

// Are these used slots?
pub(crate) fn all_used(slots: &[u32], used: u32) -> bool
    ensures { result ≡ all (λ s. nat_lt s used) slots.now }
{
    slots.iter().all(|s| *s < used)
}

// Is each number above the one before?
pub(crate) fn rise(slots: &[u32]) -> bool
    ensures { result ≡ rising slots.now }
{
    slots.is_sorted_by(|a, b| a < b)
}

fn lacks(slots: &[u32], t: u32) -> bool
    ensures { result ≡ all (λ s. not (s == t)) slots.now }
{
    slots.iter().all(|s| *s != t)
}

// Is t none of these slots?
#[inline(always)]
pub(crate) fn stands_apart(kind: Kind, slots: &[u32]) -> bool
    ensures { result ≡ apart kind slots.now }
{
    match kind {
        Kind::Goes => true,
        Kind::Needs(t) | Kind::Bars(t) => lacks(slots, t),
    }
}

// Is each part among those that the slot beside it offers?
fn parts_fit(slots: &Slots, of: &[u32], row: &[u32]) -> bool
    ensures { result ≡ all (λ p. nat_le 1 p.1 && nat_le p.1 (offered (listed slots.now) p.0)) (zip of.now row.now) }
{
    of.iter()
        .zip(row)
        .all(|(s, part)| 1 <= *part && *part <= slots.parts(*s))
}

// Has the row a part for each of these slots that the slot offers?
#[inline(always)]
pub(crate) fn row_fits(slots: &Slots, of: &[u32], row: &[u32]) -> bool
    ensures { result ≡ row_lawful (map (offered (listed slots.now)) of.now) row.now }
{
    of.len() == row.len() && parts_fit(slots, of, row)
}
