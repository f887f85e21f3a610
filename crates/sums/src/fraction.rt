// A fraction in lowest terms.
ghost use Rattle.std.specs.Prelude.{◌≡◌};
ghost use Rattle.sums.specs.Gcd.{gcd_of};
ghost use Rattle.sums.specs.Lowest.{reduced_of};

#[derive(Clone, Copy)]
pub struct Fraction {
    pub top: u64,
    pub bottom: u64,
}

// The greatest number that divides both, by Euclid's algorithm; the other where one is 0. Its loop counts nothing, and no iterator stands for it.
pub fn common(a: u64, b: u64) -> u64
    ensures { result ≡ gcd_of a b }
{
    let mut x = a;
    let mut y = b;
    while y != 0 {
        let rest = x % y;
        x = y;
        y = rest;
    }
    x
}

// top / bottom in lowest terms; 0/1 where bottom is 0.
pub fn reduced(top: u64, bottom: u64) -> Fraction
    ensures { result ≡ reduced_of top bottom }
{
    if bottom == 0 {
        return Fraction { top: 0, bottom: 1 };
    }
    let g = common(top, bottom);
    Fraction {
        top: top / g,
        bottom: bottom / g,
    }
}
