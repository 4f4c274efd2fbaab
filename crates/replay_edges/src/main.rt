#![tactic(auto)]

use program_io::fault::Fault;

// Plays the edges of its standard input: the ends of the ranges, refusals that meet, and a day of full size. The same `main` as that
// of `replay_days`: a program is run on the one `stdin` beside its `src`, so that two inputs are two programs.
fn main(rt: HostRuntime) -> Result<(), Fault> {
    program_replay::play(&rt)
}
