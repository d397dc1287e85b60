//! The options of a command.
ghost use Rattle.std.specs.Prelude.{◌≤◌};
ghost use Rattle.elf_image.specs.declared.limits.TheConstants.{MOST_STACK, MOST_HEAP};
ghost use Rattle.syscall_drain.specs.declared.limits.TheConstants.{MOST_BUDGET};
ghost use Rattle.trap_report.specs.declared.limits.TheConstants.{REPORTED_CORES, MOST_LIMIT};
ghost use Rattle.record_lane.specs.declared.limits.TheConstants.{MOST_LANE};

/// The image that a command asks for, and the numbers of its map in their ranges.
#[derive(Clone, Copy)]
pub struct ImageOptions<'a> {
    pub name: &'a str,
    pub cores: u8,
    pub stack: u32,
    pub heap: u32,
    ghost some_cores: { 1 ≤ cores },
    ghost most_cores: { cores ≤ REPORTED_CORES },
    ghost some_stack: { 1 ≤ stack },
    ghost most_stack: { stack ≤ MOST_STACK },
    ghost most_heap: { heap ≤ MOST_HEAP },
}

/// What a run is of: its image, the names of its other files, and its numbers in their ranges.
#[derive(Clone, Copy)]
pub struct SetupOptions<'a> {
    pub image: ImageOptions<'a>,
    pub input: Option<&'a str>,
    pub policy: Option<&'a str>,
    pub budget: u32,
    pub limit: u32,
    ghost some_budget: { 1 ≤ budget },
    ghost most_budget: { budget ≤ MOST_BUDGET },
    ghost some_limit: { 1 ≤ limit },
    ghost most_limit: { limit ≤ MOST_LIMIT },
}

/// The options of a run: how many records wait for a tag actor at most, and how many units or records a turn has.
#[derive(Clone, Copy)]
pub struct RunOptions<'a> {
    pub setup: SetupOptions<'a>,
    pub lane: u32,
    pub quantum: u32,
    ghost some_lane: { 1 ≤ lane },
    ghost most_lane: { lane ≤ MOST_LANE },
    ghost some_quantum: { 1 ≤ quantum },
}

/// The files of a run whose numbers are in its report.
#[derive(Clone, Copy)]
pub struct ReplayOptions<'a> {
    pub image: &'a str,
    pub report: &'a str,
    pub input: Option<&'a str>,
    pub policy: Option<&'a str>,
}

/// What the words of a command line may ask for beside a run.
#[derive(Clone, Copy)]
pub enum OfflineCommand<'a> {
    /// To compare a report with the run along its own order.
    Replay(ReplayOptions<'a>),
    /// To show the memory map of an image.
    Inspect(ImageOptions<'a>),
}
