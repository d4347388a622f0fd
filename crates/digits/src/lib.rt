// Numbers, slots and bytes of a listing, written to a lent output.
#![tactic(auto)]

ghost use Rattle.std.specs.Prelude.{◌≡◌, ◌≤◌, ◌<◌, length};
ghost use Rattle.call_list.specs.Listing.{digit, decimal};

use model::delta_snapshot::Slot;
use model::storage_memo::U256;

// A lent output, and the place in it that is written next.
#[derive(Drop)]
pub struct Output<'a> {
    pub bytes: &'a mut [u8],
    pub at: usize,
    ghost within: { at ≤ length bytes.now },
}

// A digit: 0 to 9, then a to f.
fn digit(d: u64) -> u8
    requires { d < 16 }
    ensures { result ≡ digit d }
{
    if d < 10 { 48 + d as u8 } else { 87 + d as u8 }
}

// A number in decimals, at the end of a buffer.
fn fill_decimal(buffer: &mut [u8; 20], n: u64) -> &[u8]
    ensures { result.now ≡ decimal n }
{
    let mut k: usize = 20;
    let mut rest = n;
    while 10 <= rest {
        k -= 1;
        buffer[k] = digit(rest % 10);
        rest /= 10;
    }
    k -= 1;
    buffer[k] = digit(rest);
    &buffer[k..]
}

impl<'a> Output<'a> {
    ghost use Rattle.std.specs.Prelude.{[], ◌∷◌};
    ghost use Rattle.call_list.specs.Listing.{hex, u256_hex, slot_hex};
    ghost use Rattle.digits.specs.Output.{Room, Writes};

    // Some bytes.
    pub fn write_bytes(&mut self, text: &[u8])
        requires { Room (length text.now) self.old }
        ensures { Writes text.now self.old self.new }
    {
        words::place(self.bytes, self.at, text);
        self.at += text.len();
    }

    // A number in decimals.
    pub fn write_decimal(&mut self, n: u64)
        requires { Room (length (decimal n)) self.old }
        ensures { Writes (decimal n) self.old self.new }
    {
        let mut buffer = [0u8; 20];
        self.write_bytes(fill_decimal(&mut buffer, n));
    }

    // A number in n lower-case hex digits.
    fn write_hex(&mut self, n: usize, x: u64)
        requires { Room n self.old }
        ensures { Writes (hex n x) self.old self.new }
    {
        let at = self.at;
        let mut rest = x;
        for k in (0..n).rev() {
            self.bytes[at + k] = digit(rest % 16);
            rest /= 16;
        }
        self.at += n;
    }

    // A 32-byte number in 64 hex digits.
    pub fn write_u256(&mut self, x: U256)
        requires { Room 64 self.old }
        ensures { Writes (u256_hex x) self.old self.new }
    {
        self.write_hex(16, x.w0);
        self.write_hex(16, x.w1);
        self.write_hex(16, x.w2);
        self.write_hex(16, x.w3);
    }

    // A slot in 104 hex digits.
    pub fn write_slot(&mut self, s: Slot)
        requires { Room 104 self.old }
        ensures { Writes (slot_hex s) self.old self.new }
    {
        let address = s.address;
        self.write_hex(8, u64::from(address.w0));
        self.write_hex(16, address.w1);
        self.write_hex(16, address.w2);
        self.write_u256(s.index);
    }

    // One byte.
    pub fn write_byte(&mut self, b: u8)
        requires { Room 1 self.old }
        ensures { Writes (b ∷ []) self.old self.new }
    {
        self.bytes[self.at] = b;
        self.at += 1;
    }
}
