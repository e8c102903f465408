//! Small examples.
use crate::pair::Pair;
use crate::point::Point;
use crate::refusal::Refusal;
use crate::scale::Scale;
use crate::word::Word;
use crate::written::Written;
use std::test::Fail;

#[test]
fn points_from_0_to_100(rt: HostRuntime) -> Result<(), Fail> {
    let low = Point::try_from(40)?;
    let full = Point::try_from(100)?;
    assert!(rt; low.at_most(full) && !full.at_most(low));
    assert_eq!(rt; Point::read(101), Point::bottom());
    assert_eq!(rt; Point::try_from(101), Err(Refusal::PointOutOfRange));
    assert_eq!(rt; u8::from(Refusal::PointOutOfRange), 16);
    Ok(())
}

#[test]
fn words_and_pairs_in_order(rt: HostRuntime) {
    assert!(rt; Word::Nil.at_most(Word::Faint) && Word::Faint.at_most(Word::Fair));
    assert!(rt; Word::Firm.at_most(Word::Sure) && !Word::Firm.at_most(Word::Fair));
    let weak = Pair {
        first: Word::Fair,
        second: Point::top(),
    };
    let strong = Pair {
        first: Word::Firm,
        second: Point::bottom(),
    };
    assert!(rt; weak.at_most(strong) && !strong.at_most(weak));
    let low = Pair {
        first: weak,
        second: Word::Faint,
    };
    let high = Pair {
        first: weak,
        second: Word::Fair,
    };
    assert!(rt; low.at_most(high) && !high.at_most(low));
}

#[test]
fn texts_of_grades(rt: HostRuntime) {
    assert_eq!(rt; Point::top().text().as_bytes(), b"100".as_slice());
    assert_eq!(rt; Point::bottom().text().as_bytes(), b"0".as_slice());
    assert_eq!(rt; Word::top().text().as_bytes(), b"sure".as_slice());
    assert_eq!(rt; Word::parse(b"none"), Some(Word::Nil));
    assert_eq!(rt; Point::parse(b"100"), Some(Point::top()));
}

#[test]
fn no_texts_of_points(rt: HostRuntime) {
    assert_eq!(rt; Point::parse(b"007"), None);
    assert_eq!(rt; Point::parse(b"101"), None);
    assert_eq!(rt; Point::parse(b"80x"), None);
    assert_eq!(rt; Point::parse(b""), None);
}
