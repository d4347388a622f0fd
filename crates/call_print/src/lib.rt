// Prints the listing of a call list, on a store of 256 records that starts as zeros.
#![tactic(auto)]

ghost use Rattle.std.specs.Prelude.{◌≡◌, false, ◌/◌, ◌≤◌, length, take, IfOk};
ghost use Rattle.call_run.specs.Run.{too_short};
ghost use Rattle.call_print.specs.Part.{PartAs};

use call_run::RunEnd;
use reader::Cursor;
use std::io;
use std::io::{Read, Write};

// The bytes of a store of 256 records.
const STORE_SIZE: usize = layout::RECORDS_OFFSET + 256 * layout::RECORD_SIZE;

// A part of a listing: where the next part begins, if one follows, and the bytes to write.
#[derive(Clone, Copy, Debug, PartialEq, Eq)]
struct Part {
    next: Option<usize>,
    written: usize,
}

// Runs a list from a place on, for one part of the listing.
fn run_part(
    list: &[u8],
    from: usize,
    s: &mut [u8],
    work: &mut [u8],
    entries: &mut [u8],
    members: &mut [u8],
    out: &mut [u8],
) -> Part
    requires { too_short list.now members.old out.old ≡ false }
    ensures { PartAs result (length work.old) (length entries.old / 52) list.now from s.old out.old s.new out.new }
{
    match call_run::run(list, Cursor { at: from }, s, work, entries, members, out) {
        Err(_) => Part {
            next: None,
            written: 0,
        },
        Ok(
            RunEnd::Listed {
                next,
                written,
                ended,
            },
        ) => {
            let next = if ended { None } else { Some(next.at) };
            Part { next, written }
        }
        Ok(
            RunEnd::Broken {
                fault: _,
                place: _,
                written,
            },
        ) => Part {
            next: None,
            written,
        },
    }
}

// Runs a list on its own store and writes its listing to a writer, part by part.
fn print_parts<W: Write>(to: &mut W, list: &[u8]) -> io::Result<()>
    requires { length list.now ≤ 65536 }
{
    let mut s = [0u8; STORE_SIZE];
    let mut work = [0u8; STORE_SIZE];
    let mut entries = [0u8; 53248];
    let mut members = [0u8; 105060];
    let mut out = [0u8; 65536];
    let mut next = Some(0);
    while let Some(from) = next {
        let part = run_part(
            list,
            from,
            &mut s,
            &mut work,
            &mut entries,
            &mut members,
            &mut out,
        );
        to.write_all(&out[..part.written])?;
        next = part.next;
    }
    Ok(())
}

// The bytes of a list that are taken: the first 65,536.
fn taken(list: &[u8]) -> &[u8]
    ensures { result.now ≡ take 65536 list.now }
{
    &list[..list.len().min(65536)]
}

// Writes the listing of a list's first 65,536 bytes to a writer. What follows them is not read.
pub fn print_listing<W: Write>(to: &mut W, list: &[u8]) -> io::Result<()> {
    print_parts(to, taken(list))
}

// Reads until the buffer is full or the input ends; how many bytes it got.
pub fn read_full<R: Read>(from: &mut R, buf: &mut [u8]) -> io::Result<usize>
    ensures { IfOk result (λ n. n ≤ length buf.new) }
{
    let mut done = 0;
    while done < buf.len() {
        let n = from.read(&mut buf[done..])?;
        if n == 0 {
            break;
        }
        done += n;
    }
    Ok(done)
}
