//! Lines that are one word as they stand.
ghost use Rattle.std.specs.Prelude.{◌≡◌, ◌&&◌, ◌==◌, not};
ghost use Rattle.std.specs.List.{list_all};
ghost use Rattle.player_commands.specs.OneWord.{is_word as is_word_of, is_plain as is_plain_of};

/// Whether a line is a word, without spaces, quotes and backslashes, and without a sign at its front.
pub(crate) fn is_word(line: &[u8]) -> bool
    ensures { result ≡ is_word_of line.now }
{
    match line.split_first() {
        Some((first, _)) => *first != b':' && *first != b';' && is_all_plain(line),
        None => false,
    }
}

fn is_all_plain(line: &[u8]) -> bool
    ensures { result ≡ list_all is_plain_of line.now }
{
    line.iter().all(|byte| is_plain(*byte))
}

#[inline(always)]
fn is_plain(byte: u8) -> bool
    ensures { result ≡ is_plain_of byte }
{
    byte != b' ' && byte != b'"' && byte != b'\\'
}
