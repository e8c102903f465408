//! Performs the calls of a script from standard input on a rule base, and prints their answers.

#![tactic(auto)]

mod line;
mod reply;
mod script;

use reply::Reply;
use rulebase::call::{Answer, Call};
use rulebase::rule::Rule;
use rulebase::running::run_all;
use scale::point::Point;
use scale::scale::Scale;
use script::{Step, read_script};
use semantics::atom::ATOMS;
use std::alloc::Global;
use std::io;

/// So many places has the rule base.
const PLACES: usize = 16;

/// Performs the calls of the steps in order, and prints each line with its answer. Each call has an answer and rows of
/// its own, so all of them are performed.
fn perform(rt: &impl Print, heap: Global, steps: &[Step]) -> io::Result<()> {
    let calls: Vec<Call<Point>> = steps.iter().map(|step| step.call).collect(heap)?;
    let bottom = Point::bottom().row();
    // Two tables, since a rule base is opened over two that it is lent.
    let mut rules = [Rule::EMPTY; PLACES];
    let mut rows = [bottom; PLACES];
    let mut answers = vec![in heap; Ok(Answer::<Point>::Done); calls.len()]?;
    let mut readings = vec![in heap; [bottom; ATOMS]; calls.len()]?;
    let buffer = readings.as_flattened_mut();
    run_all::<Point>(&mut rules, &mut rows, &calls, &mut answers, buffer);
    for ((step, &answer), rows) in steps.iter().zip(&answers).zip(&readings) {
        println!(rt; "{}: {}", step.line, Reply { answer, rows })?;
    }
    Ok(())
}

fn main(rt: HostRuntime) -> io::Result<()> {
    let heap = rt.alloc();
    let script = read_script(&rt, heap)?;
    perform(&rt, heap, &script.steps)?;
    if let Some(stop) = script.stop {
        println!(rt; "line {}: {stop}", script.steps.len() + 1)?;
    }
    Ok(())
}
