//! The sizes that several classes keep within.
ghost use Rattle.std.specs.Prelude.{◌≡◌};
ghost use Rattle.document_parts.specs.Sizes.{is_list_size, is_short_list_size};

/// Returns whether a list has 1 to 64 items.
pub fn is_list_size(n: usize) -> bool
    ensures { result ≡ is_list_size n }
{
    0 < n && n <= 64
}

/// Returns whether a list has 1 to 32 items.
pub fn is_short_list_size(n: usize) -> bool
    ensures { result ≡ is_short_list_size n }
{
    0 < n && n <= 32
}
