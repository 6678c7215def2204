// How long a written number is: for writers that know their length before they write, and for lengths without writing.
ghost use Rattle.std.specs.Prelude.{◌≡◌, ◌≤◌, ◌<◌, length};
ghost use Rattle.text.specs.Written.{decimal};

fn short_length(n: u32) -> usize
    requires { n < 1000 }
    ensures length { (result ≡ length (decimal n)) × (result ≤ 3) }
{
    if n < 10 {
        return 1;
    }
    if n / 10 < 10 {
        return 2;
    }
    3
}

// A number of at most five digits.
pub fn number_length(n: u32) -> usize
    requires { n < 100000 }
    ensures length { (result ≡ length (decimal n)) × (result ≤ 5) }
{
    if n < 1000 {
        return short_length(n);
    }
    short_length(n / 100) + 2
}
