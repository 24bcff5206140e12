//! The tables of a run.
ghost use Rattle.std.specs.Prelude.{◌≡◌, ◌≤◌, ◌*◌, ◌/◌, ◌%◌, ◌==◌, nat_le};

use crate::task::Task;
use arrayvec::ArrayVec;
use cores::Cores;
use levels::Server;
use packing::{LEVELS, SERVERS, TASKS};

/// All that a run knows, but its choosing rule.
#[derive(Drop)]
pub(crate) struct State {
    pub cores: u32,
    /// the ticks of a frame
    pub unit: u32,
    /// how many frames the run lasts
    pub frames: u32,
    /// the present tick
    pub tick: u32,
    /// how many tasks the sheet has; the idle ones come after these
    pub sheet: usize,
    pub tasks: [Task; TASKS],
    /// how many tasks there are, idle ones included
    pub count: usize,
    /// the servers of each level, the lowest first
    pub levels: ArrayVec<ArrayVec<Server, SERVERS>, LEVELS>,
    /// the jobs begun
    pub jobs: u64,
    pub preemptions: u64,
    /// where each task last ran
    pub placing: Cores,
    /// the tasks that the last granted tick named and that had left after it
    pub unfinished: ArrayVec<u8, TASKS>,
    ghost few_tasks: { count ≤ 80 },
    ghost sheet_tasks: { sheet ≤ count },
    ghost few_cores: { cores ≤ 16 },
    ghost small_unit: { unit ≤ 1000 },
    ghost few_frames: { frames ≤ 65535 },
}

impl State {
    ghost use Rattle.run.specs.Opened.{NeverOpened};

    /// Whether the run is over.
    pub fn is_over(&self) -> bool
        ensures { result ≡ nat_le (self.now.unit * self.now.frames) self.now.tick }
    {
        self.tick >= self.unit * self.frames
    }

    /// The frame of the present tick.
    pub fn frame(&self) -> u32
        requires { 1 ≤ self.now.unit }
        ensures { result ≡ self.now.tick / self.now.unit }
    {
        self.tick / self.unit
    }

    /// Whether a frame starts at the present tick.
    pub fn starts_frame(&self) -> bool
        requires { 1 ≤ self.now.unit }
        ensures { result ≡ (self.now.tick % self.now.unit == 0) }
    {
        self.tick % self.unit == 0
    }

    /// A run that was never opened.
    pub fn blank() -> State
        ensures { NeverOpened result }
    {
        State {
            cores: 0,
            unit: 0,
            frames: 0,
            tick: 0,
            sheet: 0,
            tasks: [Task::BLANK; TASKS],
            count: 0,
            levels: ArrayVec::new(),
            jobs: 0,
            preemptions: 0,
            placing: Cores::new(),
            unfinished: ArrayVec::new(),
        }
    }
}
