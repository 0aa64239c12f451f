// Two texts side by side.
ghost use Rattle.std.specs.Prelude.{◌≡◌, ◌==◌, count_by, take_while};
ghost use Rattle.std.specs.List.{zip};
ghost use Rattle.week.specs.Site.{first_difference};

// The line from which on they differ.
pub fn first_difference(a: &[u8], b: &[u8]) -> usize
    ensures { result ≡ first_difference a.now b.now }
{
    1 + feeds_in_common(a, b)
}

// The line feeds of what both begin with.
fn feeds_in_common(a: &[u8], b: &[u8]) -> usize
    ensures { result ≡ count_by (λ p. p.0 == 10) (take_while (λ p. p.0 == p.1) (zip a.now b.now)) }
{
    let common = a.iter().zip(b).take_while(|(x, y)| x == y);
    common.filter(|(x, _)| **x == b'\n').count()
}
