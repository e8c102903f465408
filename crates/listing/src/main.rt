//! Lists the readings of a small sample of rules, step by step.

#![tactic(auto)]

mod graded;
mod name;
mod rule;
mod sample;

use graded::GradedSet;
use grading::conflict::conflict;
use grading::reading::same;
use sample::{RULES, Sample};
use scale::point::Point;
use search::stable_sets::StableSets;
use semantics::atom::ATOMS;
use semantics::set::AtomSet;
use std::io;

/// Prints all rules.
fn print_rules(rt: &impl Print) -> io::Result<()> {
    println!(rt; "rules")?;
    for rule in &RULES {
        println!(rt; "  {rule}")?;
    }
    Ok(())
}

/// Prints the reduct of the rules by the set.
fn print_reduct(rt: &impl Print, set: AtomSet) -> io::Result<()> {
    println!(rt; "the reduct by {set}")?;
    for rule in RULES.iter().filter_map(|rule| rule.reduct(set)) {
        println!(rt; "  {rule}")?;
    }
    Ok(())
}

/// Prints the graded sets after each step in the reduct by the set, until nothing changes.
fn print_steps(rt: &impl Print, sample: &Sample, set: AtomSet) -> io::Result<()> {
    let mut reached = GradedSet::nothing();
    println!(rt; "step 0: {reached}")?;
    for n in 1..=ATOMS {
        let rows = sample.weighted().step(set, &reached.rows);
        let next = GradedSet { rows };
        println!(rt; "step {n}: {next}")?;
        if same::<Point>(&reached.rows, &next.rows) {
            return println!(rt; "nothing changed");
        }
        reached = next;
    }
    Ok(())
}

/// Prints the readings, rising.
fn print_readings(rt: &impl Print, sample: &Sample) -> io::Result<()> {
    for (n, set) in (1u64..).zip(StableSets::of(&sample.rules)) {
        println!(rt; "reading {n}: the set {set}")?;
        print_reduct(rt, set)?;
        print_steps(rt, sample, set)?;
    }
    println!(rt; "no more")
}

fn main(rt: HostRuntime) -> io::Result<()> {
    let mut sample = Sample::new();
    print_rules(&rt)?;
    print_readings(&rt, &sample)?;
    let conflict = conflict::<Point>(&mut sample.rules, &sample.rows);
    println!(rt; "conflict {conflict}")
}
