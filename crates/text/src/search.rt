// Bytes in a slice.
ghost use Rattle.std.specs.Prelude.{◌≡◌};
ghost use Rattle.tables.specs.Bytes.{same_bytes};
ghost use Rattle.text.specs.Search.{first_of};

// Where something was found, or that it is not there.
#[derive(Clone, Copy)]
pub enum Found {
    At(usize),
    Nothing,
}

// The place of the first byte b in s.
pub fn find(s: &[u8], b: u8) -> Found
    ensures answer { result ≡ first_of b s.now }
{
    let mut i = 0;
    while i < s.len() {
        if s[i] == b {
            return Found::At(i);
        }
        i += 1;
    }
    Found::Nothing
}

// Whether two byte strings are the same.
pub fn same(a: &[u8], b: &[u8]) -> bool
    ensures answer { result ≡ same_bytes a.now b.now }
{
    if a.len() != b.len() {
        return false;
    }
    let mut i = 0;
    while i < a.len() {
        if a[i] != b[i] {
            return false;
        }
        i += 1;
    }
    true
}
