// Words about lists of bytes, two tests on them, and stores into lent tables.
#![tactic(auto)]

pub mod store;

ghost use Rattle.std.specs.Prelude.{◌≡◌};
ghost use Rattle.lists.specs.Blank.{is_blank};
ghost use Rattle.lists.specs.Lists;

// Whether every byte is a blank.
pub fn is_blank(s: &[u8]) -> bool
    ensures { result ≡ is_blank s.now }
{
    s.iter().all(|b| *b == b' ')
}

// Whether two runs of bytes are the same. Inline, so that a label is compared where it is sought.
#[inline(always)]
pub fn same(a: &[u8], b: &[u8]) -> bool
    ensures { result ≡ Lists.same a.now b.now }
{
    a == b
}
