// The program `calls`: the first 65,536 bytes of standard input are a call list; its listing goes to standard output. docs/REFERENCE.md has the form of both.
#![tactic(auto)]

use std::io;

fn main(rt: HostRuntime) -> io::Result<()> {
    let mut list = [0u8; 65536];
    let n = call_print::read_full(&mut rt.reader(), &mut list)?;
    call_print::print_listing(&mut io::writer(&rt), &list[0..n])
}
