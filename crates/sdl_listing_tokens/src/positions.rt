//! Lines and columns of a text.
ghost use Rattle.std.specs.Prelude.{◌≡◌, ◌+◌, ◌^◌, ◌<◌, ◌≤◌, ◌==◌, length, take, reverse, count_by, position, IfSome};
ghost use Rattle.sdl_listing_tokens.specs.Tokens.{up_to};

/// A place in a text: its line, and how many bytes of the line it is from the line's begin. Both count from 1.
#[derive(Clone, Copy)]
pub struct Position {
    pub line: usize,
    pub column: usize,
}

/// How many bytes stand behind the last new line, where there is one.
fn bytes_of_line(front: &[u8]) -> Option<usize>
    ensures value { result ≡ position (λ b. b == 10) (reverse front.now) }
    ensures within { IfSome result (λ i. i < length front.now) }
{
    front.iter().rev().position(|b| *b == 10)
}

/// The position behind these bytes of a text.
fn position_behind(front: &[u8]) -> Position
    requires { length front.now < 2 ^ 63 }
    ensures line { result.line ≡ 1 + count_by (λ b. b == 10) front.now }
    ensures column { result.column ≡ 1 + up_to (position (λ b. b == 10) (reverse front.now)) (length front.now) }
{
    let lines = front.iter().filter(|b| **b == 10).count();
    let bytes = match bytes_of_line(front) {
        Some(count) => count,
        None => front.len(),
    };
    Position {
        line: 1 + lines,
        column: 1 + bytes,
    }
}

/// The position of the byte behind so many of the text.
pub fn position_of(text: &[u8], start: usize) -> Position
    requires { start ≤ length text.now }
    ensures line { result.line ≡ 1 + count_by (λ b. b == 10) (take start text.now) }
    ensures column { result.column ≡ 1 + up_to (position (λ b. b == 10) (reverse (take start text.now))) start }
{
    position_behind(&text[..start])
}
