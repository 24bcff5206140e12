//! A granted tick.
ghost use Rattle.std.specs.Prelude.{◌≡◌, length, None};
ghost use Rattle.cores.specs.Laws.{Lawful, Listed};
ghost use Rattle.cores.specs.Placing.{limited, placed, written};
ghost use Rattle.ledger.specs.Answering.{refusal};
ghost use Rattle.ledger.specs.Calls.{tick};
ghost use Rattle.run.specs.Changing.{with_placing};
ghost use Rattle.run.specs.Keeping.{Kept};
ghost use Rattle.run.specs.Runs.{figures_of, GrantedTick};

use crate::counting::count_tick;
use crate::frame::start_frame;
use crate::state::State;
use crate::turning::go_on;
use choosing::Choosing;

/// Places the named tasks on the cores, and writes the core list.
fn place_named(state: &mut State, named: &[u8], list: &mut [u8])
    ensures kept { state.new ≡ with_placing state.old state.new.placing }
    ensures placed { state.new.placing ≡ placed state.old.placing named.now (limited state.old.cores) }
    ensures list { list.new ≡ written state.new.placing.held list.old }
    ensures lawful { Lawful state.old.placing named.now (limited state.old.cores) state.new.placing }
    ensures listed { Listed named.now (limited state.old.cores) state.new.placing list.old list.new }
{
    state.placing.place(named, state.cores as usize, list);
}

/// Renews at a frame start, runs the levels, places the tasks that run, counts, and starts the next frame.
pub(crate) fn carry_out<C: Choosing>(rule: &C, state: &mut State, list: &mut [u8])
    requires kept { Kept state.old }
    requires granted { None ≡ refusal (figures_of state.old) (tick (length list.old)) }
    ensures ticked { GrantedTick (C.chosen rule.now) state.old list.old state.new list.new }
    ensures kept { Kept state.new }
{
    let named = go_on(rule, state);
    place_named(state, &named, list);
    count_tick(state, named);
    start_frame(state);
}
