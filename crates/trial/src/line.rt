//! A line of the script, read as a call.
use rulebase::call::Call;
use scale::point::Point;
use std::alloc::{AllocError, Global};
use std::str::FromStr;

/// The number that the word is in decimal: digits alone, and no more than fits.
fn decimal<N: FromStr>(word: &str) -> Option<N>
where
    N::Err: Drop,
{
    if word.bytes().all(|byte| byte.is_ascii_digit()) {
        word.parse().ok()
    } else {
        None
    }
}

/// The grade with so many points.
fn grade(word: &str) -> Option<Point> {
    Point::try_from(decimal::<u64>(word)?).ok()
}

/// The call that the words are.
fn call_of(words: &[&str]) -> Option<Call<Point>> {
    let call = match words {
        ["enter", place, points, head, pos, neg] => Call::Enter {
            place: decimal(place)?,
            grade: grade(points)?,
            head: decimal(head)?,
            pos: decimal(pos)?,
            neg: decimal(neg)?,
        },
        ["strike", place] => Call::Strike {
            place: decimal(place)?,
        },
        ["cut", points] => Call::Cut {
            grade: grade(points)?,
        },
        ["mend"] => Call::Mend,
        ["rewind"] => Call::Rewind,
        ["fetch", length] => Call::Fetch {
            length: decimal(length)?,
        },
        ["conflict"] => Call::Conflict,
        _ => return None,
    };
    Some(call)
}

/// The call that the line is, its words parted by blanks; none where it is no call.
pub fn parse_call(heap: Global, line: &str) -> Result<Option<Call<Point>>, AllocError> {
    let words: Vec<&str> = line
        .split(' ')
        .filter(|word| !word.is_empty())
        .collect(heap)?;
    Ok(call_of(&words))
}
