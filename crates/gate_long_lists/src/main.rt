// Prints the listings of four call lists that stand in standard input one after the other: one whose listing has several parts; one where what a put and
// reads left in one part is looked up in the next; one with calls past the first 65,536 bytes; one whose 65,536th byte stands inside a call. `stdout`
// has what the oracle printed for each; tools/gate_long_lists.py makes both.
#![tactic(auto)]

use std::io;

// Reads a list of as many bytes as lent and prints its listing after its name.
fn print_next(rt: &(impl Input + Print), name: &[u8], list: &mut [u8]) -> io::Result<()> {
    let n = call_print::read_full(&mut rt.reader(), list)?;
    rt.write_all(name)?;
    call_print::print_listing(&mut io::writer(rt), &list[0..n])
}

fn main(rt: HostRuntime) -> io::Result<()> {
    let mut parts = [0u8; 65403];
    print_next(&rt, b"several parts\n", &mut parts)?;
    let mut across = [0u8; 15300];
    print_next(&rt, b"a put looked up in the next part\n", &mut across)?;
    let mut past = [0u8; 76679];
    print_next(&rt, b"calls past the limit\n", &mut past)?;
    let mut inside = [0u8; 66241];
    print_next(&rt, b"the limit inside a call\n", &mut inside)
}
