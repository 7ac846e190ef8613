// Lines of a text and words of a line. A line ends before a newline or at the text's end; words are what lies between
// single spaces, so that a space too many shows as an empty word.
ghost use Rattle.std.specs.Prelude.{◌≡◌, length};
ghost use Rattle.script.specs.Line.{next_of, words, word_at, Within};

// Where the line that starts at `from` ends: at the next newline, or at the text's end.
pub fn line_end(text: &[u8], from: usize) -> usize
    ensures value { result ≡ next_of 10 text.now from }
    ensures within { Within from (length text.now) result }
{
    if from > text.len() {
        return text.len();
    }
    let rest = &text[from..];
    let newline = rest.iter().position(|b| *b == b'\n');
    from + newline.unwrap_or(rest.len())
}

// How many words a line has: one more than it has spaces.
#[tactic(auto, using(crate::proofs::LineLaws::words_count))]
pub fn count_words(line: &[u8]) -> usize
    ensures { result ≡ length (words line.now) }
{
    let mut n = 1;
    // By `filter` and `count` it takes half as long again.
    for b in line {
        if *b == b' ' {
            n += 1;
        }
    }
    n
}

// The i-th word of a line, counted from 0, and an empty one where there is none.
pub fn word(line: &[u8], i: usize) -> &[u8]
    ensures { result.now ≡ word_at line.now i }
{
    line.split(|b| *b == b' ').nth(i).unwrap_or(&[])
}
