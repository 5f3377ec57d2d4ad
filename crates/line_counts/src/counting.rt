//! Counting line feeds.
ghost use Rattle.std.specs.Prelude.{◌≡◌, ◌≤◌, length};
ghost use Rattle.line_counts.specs.LineFeeds.{line_feeds as line_feeds_of};

/// The most bytes of a block, whose line feeds a byte counts.
const BLOCK: usize = 224;

/// Returns the number of line feeds in a block. The count of bytes is a byte, so that many are compared at once.
fn feeds_in_block(block: &[u8]) -> u8
    requires { length block.now ≤ 224 }
    ensures { result ≡ line_feeds_of block.now }
{
    let mut count = 0u8;
    for byte in block {
        if *byte == b'\n' {
            count += 1;
        }
    }
    count
}

/// Returns the number of line feeds.
pub(crate) fn line_feeds(bytes: &[u8]) -> usize
    ensures { result ≡ line_feeds_of bytes.now }
{
    let mut rest = bytes;
    let mut count = 0usize;
    while rest.len() > BLOCK {
        let (block, behind) = rest.split_at(BLOCK);
        count += feeds_in_block(block) as usize;
        rest = behind;
    }
    count + feeds_in_block(rest) as usize
}
