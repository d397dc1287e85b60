//! How a guest is run.
ghost use Rattle.std.specs.Prelude.{◌≤◌};
ghost use Rattle.record_lane.specs.declared.limits.TheConstants.{MOST_LANE};
ghost use Rattle.syscall_drain.specs.declared.limits.TheConstants.{MOST_BUDGET};

use crate::numbers::number_up_to;
use anyhow::{Result, ensure};
use record_lane::limits::MOST_LANE;
use syscall_drain::limits::MOST_BUDGET;

/// The most cores of a run.
const MOST_CORES: u32 = 8;

/// How many records a ring holds, and how many units or records a turn has.
#[derive(Clone, Copy)]
pub struct Shape {
    pub bound: u32,
    pub quantum: u32,
    ghost some_bound: { 1 ≤ bound },
    ghost most_bound: { bound ≤ MOST_LANE },
    ghost some_quantum: { 1 ≤ quantum },
}

/// How a guest is run: by actors in threads, or by the tracker where there is no shape.
#[derive(Clone, Copy)]
pub struct Measure {
    pub cores: u8,
    pub budget: u32,
    pub shape: Option<Shape>,
    ghost some_cores: { 1 ≤ cores },
    ghost most_cores: { cores ≤ 8 },
    ghost some_budget: { 1 ≤ budget },
    ghost most_budget: { budget ≤ MOST_BUDGET },
}

fn shape_in(words: &[String]) -> Result<Option<Shape>> {
    if words.len() == 3 {
        return Ok(None);
    }
    Ok(Some(Shape {
        bound: number_up_to(words, 3, MOST_LANE)?,
        quantum: number_up_to(words, 4, u32::MAX)?,
    }))
}

/// Reads the words after the image.
pub fn read_measure(words: &[String]) -> Result<Measure> {
    ensure!(
        words.len() == 3 || words.len() == 5,
        "the sizes are: IMAGE CORES BUDGET [BOUND QUANTUM]"
    );
    let cores = number_up_to(words, 1, MOST_CORES)? as u8;
    let budget = number_up_to(words, 2, MOST_BUDGET)?;
    let shape = shape_in(words)?;
    Ok(Measure {
        cores,
        budget,
        shape,
    })
}
