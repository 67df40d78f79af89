// Runs of a kernel, called from C.
ghost use Rattle.std.specs.Prelude.{◌≡◌};
ghost use Rattle.lanes_answers.specs.Interface.{call_run_source, call_run_tso, call_run_pso};

// The state record of the source machine's run at the front of `state`; after a refusal `state` is as it was.
#[unsafe(no_mangle)]
pub extern "C" fn lanes_run_source(kernel: &[u8], moves: &[u8], state: &mut [u8]) -> u64
    ensures { (result, state.new) ≡ call_run_source kernel.now moves.now
        state.old }
{
    lanes::run::lanes_run_source(kernel, moves, state)
}

// The tso machine's run, likewise.
#[unsafe(no_mangle)]
pub extern "C" fn lanes_run_tso(kernel: &[u8], moves: &[u8], state: &mut [u8]) -> u64
    ensures { (result, state.new) ≡ call_run_tso kernel.now moves.now
        state.old }
{
    lanes::run::lanes_run_tso(kernel, moves, state)
}

// The pso machine's run, likewise.
#[unsafe(no_mangle)]
pub extern "C" fn lanes_run_pso(kernel: &[u8], moves: &[u8], state: &mut [u8]) -> u64
    ensures { (result, state.new) ≡ call_run_pso kernel.now moves.now
        state.old }
{
    lanes::run::lanes_run_pso(kernel, moves, state)
}
