ghost use Rattle.std.specs.Prelude.{◌≡◌, ◌<◌, ◌≤◌, vec_len, [], length, map, IfOk, OnOk, slice_index_or};
ghost use Rattle.std.specs.Str.Lines.{strip_carriage_return};
ghost use Rattle.kb_name.specs.Texts.{texts};
ghost use Rattle.kb_script.specs.Lines.{words_of, word, is_comment};

use std::alloc::AllocError;

/// A line without the carriage return at its end.
pub fn without_return(line: &[u8]) -> &[u8]
    ensures { result.now ≡ strip_carriage_return line.now }
{
    match line {
        [front @ .., b'\r'] => front,
        _ => line,
    }
}

/// Puts the words of a line, which spaces separate, in place of those that are there.
pub fn cut_words<'a>(words: &mut Vec<&'a str>, line: &'a str) -> Result<(), AllocError>
    ensures { OnOk result (texts words.new.items ≡ words_of line.now) }
{
    words.clear();
    words.extend(line.split(' ').filter(|word| !word.is_empty()))
}

/// Whether the words are of no statement: there are none, or the first begins with `#`.
pub fn is_comment(words: &[&str]) -> bool
    ensures { result ≡ is_comment (texts words.now) }
{
    match words {
        [] => true,
        [first, ..] => first.as_bytes().first() == Some(&b'#'),
    }
}

pub fn count(words: &[&str]) -> usize
    ensures { result ≡ length (texts words.now) }
{
    words.len()
}

pub fn word<'a>(words: &[&'a str], i: usize) -> &'a str
    requires { i < length (texts words.now) }
    ensures { result.now ≡ word (texts words.now) i }
{
    words[i]
}
