// What a call on lists says of what it came to.
ghost use Rattle.std.specs.Prelude.{◌≡◌};
ghost use Rattle.list_calls.specs.ListCalls.{length_figures, release_figures, group_figures};

use groups::Sizes;
use lists::Lengths;

pub(crate) fn length_figures(n: usize) -> [u64; 4]
    ensures { result ≡ length_figures n }
{
    [n as u64, 0, 0, 0]
}

pub(crate) fn release_figures(n: Lengths) -> [u64; 4]
    ensures { result ≡ release_figures n }
{
    [n.counts as u64, n.free as u64, 0, 0]
}

pub(crate) fn group_figures(n: Sizes) -> [u64; 4]
    ensures { result ≡ group_figures n }
{
    [n.map as u64, n.counts as u64, n.free as u64, 0]
}
