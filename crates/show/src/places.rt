// Memory that holds one value throughout.
ghost use Rattle.std.specs.Prelude.{◌≡◌, length, replicate};
ghost use Rattle.std.specs.List.{list_all};

// Is every place of a slice that value?
pub fn throughout<T: PartialEq + Copy>(b: &[T], value: T) -> bool
    ensures { result ≡ list_all (λ x. T.eq x value) b.now }
{
    b.iter().all(|x| *x == value)
}

// An array that does.
pub fn filled<T: Copy, const N: usize>(value: T) -> [T; N]
    ensures values { result ≡ replicate N value }
    ensures long { N ≡ length result }
{
    [value; N]
}
