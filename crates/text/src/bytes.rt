// The four sorts of bytes.
ghost use Rattle.std.specs.Prelude.{◌≡◌};
ghost use Rattle.text.specs.Bytes.{IsSortOf, is_blank, is_digit, is_visible};

use crate::ByteSort;

#[tactic(auto, unfolding(crate::specs::Bytes::sort_of))]
pub fn sort_of(byte: u8) -> ByteSort
    ensures { IsSortOf byte result }
{
    match byte {
        9 | 10 | 13 | 32 => ByteSort::Blank,
        48..=57 => ByteSort::Digit,
        33..=126 => ByteSort::Mark,
        _ => ByteSort::Bad,
    }
}

#[tactic(auto, unfolding(crate::specs::Bytes::is_blank))]
pub(crate) fn is_blank(byte: u8) -> bool
    ensures { result ≡ is_blank byte }
{
    matches!(sort_of(byte), ByteSort::Blank)
}

#[tactic(auto, unfolding(crate::specs::Bytes::is_digit))]
pub(crate) fn is_digit(byte: u8) -> bool
    ensures { result ≡ is_digit byte }
{
    matches!(sort_of(byte), ByteSort::Digit)
}

// Whether the byte is a digit or another mark.
#[tactic(auto, unfolding(crate::specs::Bytes::is_visible))]
pub(crate) fn is_visible(byte: u8) -> bool
    ensures { result ≡ is_visible byte }
{
    matches!(sort_of(byte), ByteSort::Digit | ByteSort::Mark)
}
