//! What the search and the grading answer on rule bases whose readings are known.
use grading::conflict::conflict;
use grading::rows::grade_at;
use grading::rules::WeightedRules;
use scale::pair::Pair;
use scale::point::Point;
use scale::scale::Scale;
use scale::word::Word;
use search::listing::{first, next_after};
use semantics::atom::Atom;
use semantics::rule::PlainRule;
use semantics::set::{AtomSet, with};
use std::alloc::Global;
use std::iter;
use std::test::Fail;

/// The atom with this number; an error where there is none.
fn atom(number: usize) -> Result<Atom, Fail> {
    Ok(Atom::try_from(number)?)
}

/// A rule for the atom with this number, its grade in the row of the same number.
fn rule(number: usize, pos: AtomSet, neg: AtomSet) -> Result<PlainRule, Fail> {
    Ok(PlainRule::new(atom(number)?, pos, neg, number))
}

/// Each of the first `n` atoms holds unless the next one does, and the last unless the first does.
fn ring(heap: Global, n: usize) -> Result<Vec<PlainRule>, Fail> {
    (0..n)
        .zip((1..n).chain(iter::once(0)))
        .map(|(number, next)| rule(number, 0, with(0, atom(next)?)))
        .try_collect(heap)
}

#[test]
fn facts_are_one_reading(rt: HostRuntime) -> Result<(), Fail> {
    let rules: Vec<PlainRule> = (0..64)
        .map(|number| rule(number, 0, 0))
        .try_collect(rt.alloc())?;
    assert_eq!(rt; first(&rules), Some(AtomSet::MAX));
    assert_eq!(rt; next_after(&rules, AtomSet::MAX), None);
    Ok(())
}

#[test]
fn even_ring_has_two_readings(rt: HostRuntime) -> Result<(), Fail> {
    let rules = ring(rt.alloc(), 64)?;
    let odd = 0xaaaa_aaaa_aaaa_aaaa;
    let even = 0x5555_5555_5555_5555;
    assert_eq!(rt; first(&rules), Some(even));
    assert_eq!(rt; next_after(&rules, even), Some(odd));
    assert_eq!(rt; next_after(&rules, odd), None);
    Ok(())
}

#[test]
fn odd_ring_has_none(rt: HostRuntime) -> Result<(), Fail> {
    let rules = ring(rt.alloc(), 63)?;
    assert_eq!(rt; first(&rules), None);
    Ok(())
}

/// Sixteen times the same odd ring, the first atom's rule at grade 10 and the others above it, and sixteen facts.
#[test]
fn conflict_of_a_full_rule_base(rt: HostRuntime) -> Result<(), Fail> {
    let heap = rt.alloc();
    let rows: Vec<u8> = (10..73).chain(iter::once(100)).collect(heap)?;
    let mut rules = Vec::new(heap);
    for _ in 0..16 {
        rules.extend_from_slice(&ring(heap, 63)?)?;
        rules.push(rule(63, 0, 0)?)?;
    }
    assert_eq!(rt; rules.len(), 1024);
    assert_eq!(rt; conflict::<Point>(&mut rules, &rows).value(), 10);
    Ok(())
}

#[test]
fn grades_on_pairs(rt: HostRuntime) -> Result<(), Fail> {
    type Grade = Pair<Word, Point>;
    let rules = [rule(0, 0, 0)?, rule(1, 1, 0)?];
    let [fact, other] = [40, 50].map(|points| Pair {
        first: Word::Fair,
        second: Point::read(points),
    });
    let rows = [fact.row(), other.row()];
    let weighted = WeightedRules::<Grade> {
        rules: &rules,
        rows: &rows,
    };
    let mut buffer = [(Word::Nil, 0u8); 70];
    assert_eq!(rt; weighted.consequences(3, &mut buffer), Some(2));
    assert!(rt; grade_at::<Grade>(&buffer, 1).at_most(fact));
    assert!(rt; fact.at_most(grade_at::<Grade>(&buffer, 1)));
    let mut short = [(Word::Nil, 0u8); 63];
    assert_eq!(rt; weighted.consequences(3, &mut short), None);
    Ok(())
}
