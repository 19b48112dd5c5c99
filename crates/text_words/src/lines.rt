//! Lines: a line ends with a line feed, and a carriage return before it is dropped.

ghost use Rattle.std.specs.Prelude.{◌≡◌, ◌<◌, ◌==◌, [], ◌∷◌, length, IfSome, IfNone};
ghost use Rattle.std.specs.List.{position_from};
ghost use Rattle.std.specs.Str.Lines.{lines, strip_carriage_return};

/// The first line of a text, and the text after it. A last piece without a line feed is a line unless it is empty.
pub fn next_line(text: &[u8]) -> Option<(&[u8], &[u8])>
    ensures some { IfSome result (λ x. lines text.now ≡ x.0.now ∷ lines x.1.now) }
    ensures less { IfSome result (λ x. length x.1.now < length text.now) }
    ensures none { IfNone result (lines text.now ≡ []) }
{
    if text.is_empty() {
        None
    } else {
        match feed_in(text) {
            Some(at) => Some((without_return(&text[..at]), &text[at + 1..])),
            None => Some((text, &[])),
        }
    }
}

fn without_return(line: &[u8]) -> &[u8]
    ensures { result.now ≡ strip_carriage_return line.now }
{
    match line {
        [front @ .., b'\r'] => front,
        _ => line,
    }
}

/// The first line feed of a text.
fn feed_in(text: &[u8]) -> Option<usize>
    ensures exact { result ≡ position_from (λ byte. byte == 10) 0 text.now }
    ensures bound { IfSome result (λ at. at < length text.now) }
{
    text.iter().position(|byte| *byte == b'\n')
}
