//! The script: the calls above the line where it stops.
use crate::line::parse_call;
use rulebase::call::Call;
use scale::point::Point;
use std::alloc::Global;
use std::{fmt, io};

/// At most so many calls.
const CALLS: usize = 128;

/// Why a script stops before its end.
#[derive(Clone, Copy, PartialEq, Eq, Debug)]
pub enum Stop {
    NotACall,
    TooManyCalls,
}

impl fmt::Display for Stop {
    fn fmt<W: fmt::Write>(&self, f: &mut fmt::Formatter<W>) -> fmt::Result {
        f.write_str(match self {
            Stop::NotACall => "not a call",
            Stop::TooManyCalls => "too many calls",
        })
    }
}

/// A line that is a call.
#[derive(Drop)]
pub struct Step {
    pub line: String,
    pub call: Call<Point>,
}

impl Step {
    /// The step that a line is, as it was read; none where it is no call. A line that is no text is no call.
    fn read(heap: Global, line: io::Result<String>) -> io::Result<Option<Step>> {
        let line = match line {
            Err(error) if error.kind() == io::ErrorKind::InvalidData => return Ok(None),
            line => line?,
        };
        let call = parse_call(heap, &line)?;
        Ok(call.map(|call| Step { line, call }))
    }
}

/// The lines that are calls, and why they end before the input does.
#[derive(Drop)]
pub struct Script {
    pub steps: Vec<Step>,
    pub stop: Option<Stop>,
}

impl Script {
    /// The same steps, stopped at the line below them.
    fn stopped(self, stop: Stop) -> Script {
        Script {
            stop: Some(stop),
            ..self
        }
    }
}

/// Reads the script from standard input.
pub fn read_script(rt: &impl Input, heap: Global) -> io::Result<Script> {
    let mut script = Script {
        steps: Vec::new(heap),
        stop: None,
    };
    for line in rt.lines(heap) {
        match Step::read(heap, line)? {
            Some(step) if script.steps.len() < CALLS => script.steps.push(step)?,
            Some(_) => return Ok(script.stopped(Stop::TooManyCalls)),
            None => return Ok(script.stopped(Stop::NotACall)),
        }
    }
    Ok(script)
}
