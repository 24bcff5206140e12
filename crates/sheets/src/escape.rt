//! Any bytes as one line of text: `\n` is a line feed, `\x` and two hexadecimal digits any byte, `\*` and four digits so many of
//! the byte that follows, and a backslash before any other byte is that byte.
use std::alloc::{AllocError, Global};

/// How far an escape is read.
#[derive(Clone, Copy)]
enum State {
    Plain,
    Backslash,
    /// the first digit of a byte is next
    High,
    /// the second digit of a byte is next
    Low(u8),
    /// so many digits of a count are next
    Count(u8, usize),
    /// a byte that stands so many times is next
    Times(usize),
}

/// The value of a hexadecimal digit; 0 for any other byte.
fn digit(b: u8) -> u8 {
    match char::from(b) {
        '0'..='9' => b.saturating_sub(b'0'),
        'A'..='F' => b.saturating_sub(b'A').saturating_add(10),
        _ => 0,
    }
}

/// Takes one byte more.
fn step(state: State, b: u8, out: &mut Vec<u8>) -> Result<State, AllocError> {
    match state {
        State::Plain => {
            if b == b'\\' {
                return Ok(State::Backslash);
            }
            out.push(b)?;
        }
        State::Backslash => match char::from(b) {
            'x' => return Ok(State::High),
            '*' => return Ok(State::Count(4, 0)),
            'n' => out.push(b'\n')?,
            _ => out.push(b)?,
        },
        State::High => return Ok(State::Low(digit(b))),
        State::Low(high) => out.push(high.wrapping_mul(16).wrapping_add(digit(b)))?,
        State::Count(left, sum) => {
            let sum = sum.wrapping_mul(10).wrapping_add(usize::from(digit(b)));
            if left > 1 {
                return Ok(State::Count(left - 1, sum));
            }
            return Ok(State::Times(sum));
        }
        State::Times(count) => {
            for _ in 0..count {
                out.push(b)?;
            }
        }
    }
    Ok(State::Plain)
}

/// The bytes that a line of text stands for.
pub(crate) fn unescape(heap: Global, line: &[u8]) -> Result<Vec<u8>, AllocError> {
    let mut out = Vec::new(heap);
    let mut state = State::Plain;
    for b in line.iter() {
        state = step(state, *b, &mut out)?;
    }
    Ok(out)
}
