#![tactic(auto)]

use program_io::fault::Fault;

// Plays the test vectors of its standard input: openings, whole days, and calls on days that are broken. The same `main` as that of
// `replay_edges`: a program is run on the one `stdin` beside its `src`, so that two inputs are two programs.
fn main(rt: HostRuntime) -> Result<(), Fault> {
    program_replay::play(&rt)
}
