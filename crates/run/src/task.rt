//! A task of a run, and what happens to it.
ghost use Rattle.std.specs.Prelude.{◌≡◌, ◌≤◌, map};
ghost use Rattle.run.specs.Phases.{begun, next, phase_by_left, spent_in, is_awaited, WithinRun};

use choosing::Share;

/// Where a task stands.
#[derive(Clone, Copy)]
pub(crate) enum Phase {
    /// nothing is left of its job
    Served,
    /// its job has left
    AtWork,
    /// its deadline is the frame that starts now, and its next job is not announced yet
    Awaited,
}

/// What can happen to a task.
#[derive(Clone, Copy)]
pub(crate) enum Event {
    /// its next job is announced, from its present deadline to this one
    Announce { deadline: u32 },
    /// it runs for a tick
    Tick,
    /// this frame starts
    FrameStart { frame: u32 },
}

/// A task: what is known of its present job, the server that it was placed in, and where it stands.
#[derive(Clone, Copy)]
pub(crate) struct Task {
    pub share: Share,
    pub home: Option<u8>,
    pub phase: Phase,
}

impl Phase {
    /// The phase of a task that is not awaited.
    fn by_left(left: u32) -> Phase
        ensures { result ≡ phase_by_left left }
    {
        if left > 0 {
            Phase::AtWork
        } else {
            Phase::Served
        }
    }

    /// Whether it is that of an awaited task.
    pub fn awaits(self) -> bool
        ensures { result ≡ is_awaited self }
    {
        matches!(self, Phase::Awaited)
    }
}

impl Task {
    /// A task without rate, job and home.
    pub const BLANK: Task = Task {
        share: Share {
            left: 0,
            rate: 0,
            deadline: 0,
        },
        home: None,
        phase: Phase::Served,
    };

    /// Begins a job from the present deadline to this one.
    fn begin(&mut self, deadline: u32)
        requires { deadline ≤ 65535 }
        ensures { self.new ≡ begun self.old deadline }
    {
        let frames = deadline.saturating_sub(self.share.deadline);
        self.share.left = u32::from(self.share.rate) * frames;
        self.share.deadline = deadline;
        self.phase = Phase::by_left(self.share.left);
    }

    /// Takes one tick from what is left.
    fn spend(&mut self)
        ensures { self.new ≡ spent_in self.old.phase self.old }
    {
        self.share.spend();
    }

    /// Takes the task through an event. An awaited task gets the job that is announced for it; a tick takes one from what is
    /// left, and with nothing left a task at work is served; and at the start of the frame of its deadline a task is awaited.
    /// Nothing else changes it.
    pub fn on(&mut self, event: Event)
        requires { WithinRun event }
        ensures { self.new ≡ next self.old event }
    {
        match (self.phase, event) {
            (Phase::Awaited, Event::Announce { deadline }) => self.begin(deadline),
            (Phase::Awaited | Phase::Served, Event::Tick) => self.spend(),
            (Phase::AtWork, Event::Tick) => {
                self.spend();
                self.phase = Phase::by_left(self.share.left);
            }
            (Phase::AtWork, Event::FrameStart { frame }) if self.share.deadline == frame => {
                self.phase = Phase::Awaited;
            }
            (Phase::Served, Event::FrameStart { frame }) if self.share.deadline == frame => {
                self.phase = Phase::Awaited;
            }
            _ => {}
        }
    }
}

/// Takes tasks through an event.
pub(crate) fn all_on(tasks: &mut [Task], event: Event)
    requires { WithinRun event }
    ensures { tasks.new ≡ map (λ t. next t event) tasks.old }
{
    for task in tasks.iter_mut() {
        task.on(event);
    }
}
