#![tactic(auto)]

use program_io::fault::Fault;

// Writes the lists of its standard input: those of the test vectors, and lists at the edges of the paper. The same `main` as that of
// `replay_texts`: a program is run on the one `stdin` beside its `src`, so that two inputs are two programs.
fn main(rt: HostRuntime) -> Result<(), Fault> {
    program_texts::play(&rt)
}
