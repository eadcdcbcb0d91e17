// Plays the histories of standard input, as cases_calls does, over buffers with room for the largest: 256 inputs of weight
// 1,048,575 and falling, built at divisor 1 with one output of the root.
#![tactic(auto)]

use std::io;

fn main(rt: HostRuntime) -> io::Result<()> {
    history_play::play_over::<_, 65536, 256, 232000, 1640000>(&rt)
}
