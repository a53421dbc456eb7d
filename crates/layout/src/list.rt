// The change list: a header of four u32, an entry for each page, the pages.
ghost use Rattle.std.specs.Prelude.{◌≡◌, ◌^◌, ◌<◌};
ghost use Rattle.layout.specs.List.{change_at, pages_at, list_total};

use super::page::PAGE;

// The header's length, and so where the entries start.
pub const LIST_HEADER: usize = 16;

// The length of an entry.
pub const CHANGE: usize = 12;

// Where entry i starts.
pub fn change_at(i: usize) -> usize
    requires { i < 2 ^ 32 }
    ensures { result ≡ change_at i }
{
    LIST_HEADER + CHANGE * i
}

// Where the pages start, n being how many there are.
pub fn pages_at(n: usize) -> usize
    requires { n < 2 ^ 32 }
    ensures { result ≡ pages_at n }
{
    LIST_HEADER + CHANGE * n
}

// The length of a list of n pages.
pub fn list_total(n: usize) -> usize
    requires { n < 2 ^ 32 }
    ensures { result ≡ list_total n }
{
    LIST_HEADER + CHANGE * n + PAGE * n
}
